// What a call leaves in a buffer.
use questions::hexadecimal::Hexadecimal;
use records::buffer::{RECORD_SIZE, RECORD_WORDS};
use std::fmt;

// The bytes of a word.
const WORD_SIZE: usize = RECORD_SIZE / RECORD_WORDS;

// What a byte of a buffer is before the call, and a word of such bytes.
pub const FILL: u8 = 0xAA;

pub const UNTOUCHED: u64 = 0xAAAA_AAAA_AAAA_AAAA;

// A word of a buffer: `-` where it is as it was, and the bytes of one that is cut short.
#[derive(Clone, Copy)]
struct Word<'a>(&'a [u8]);

impl fmt::Display for Word<'_> {
    fn fmt<W: fmt::Write>(&self, f: &mut fmt::Formatter<W>) -> fmt::Result {
        match <[u8; 8]>::try_from(self.0).map(u64::from_le_bytes) {
            Ok(UNTOUCHED) => write!(f, "-"),
            Ok(number) => write!(f, "{number}"),
            Err(_) => write!(f, "{}", Hexadecimal(self.0)),
        }
    }
}

// The words of a buffer, with a mark where a record begins.
#[derive(Clone, Copy, Debug)]
pub struct Left<'a>(pub &'a [u8]);

impl fmt::Display for Left<'_> {
    fn fmt<W: fmt::Write>(&self, f: &mut fmt::Formatter<W>) -> fmt::Result {
        for record in self.0.chunks(RECORD_SIZE) {
            write!(f, " ;")?;
            for word in record.chunks(WORD_SIZE) {
                write!(f, " {}", Word(word))?;
            }
        }
        Ok(())
    }
}
