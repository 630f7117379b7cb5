// Bytes as words: two digits for each byte, and `-` where there is none.
ghost use Rattle.std.specs.Prelude.{◌<◌};

use std::alloc::{AllocError, Global};
use std::fmt;

// Bytes to be written.
#[derive(Clone, Copy, Debug)]
pub struct Hexadecimal<'a>(pub &'a [u8]);

impl fmt::Display for Hexadecimal<'_> {
    fn fmt<W: fmt::Write>(&self, f: &mut fmt::Formatter<W>) -> fmt::Result {
        if self.0.is_empty() {
            return write!(f, "-");
        }
        for byte in self.0 {
            write!(f, "{byte:02X}")?;
        }
        Ok(())
    }
}

// The worth of a digit, in upper case. Any other byte has one too.
fn digit(glyph: u8) -> u8
    ensures { result < 16 }
{
    if glyph < b'A' {
        glyph % 16
    } else {
        (glyph - b'A') % 6 + 10
    }
}

fn byte_of(digits: &[u8]) -> Option<u8> {
    match digits {
        [high, low] => Some(digit(*high) * 16 + digit(*low)),
        _ => None,
    }
}

// The bytes that a word spells, and no more of them than `most`.
pub fn decode(alloc: Global, word: &[u8], most: usize) -> Result<Vec<u8>, AllocError> {
    word.chunks_exact(2)
        .take(most)
        .filter_map(byte_of)
        .collect(alloc)
}
