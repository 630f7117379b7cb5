// A line's words, which a space parts: what is asked, and then each argument.
use crate::hexadecimal;
use std::alloc::{AllocError, Global};

// The limits where a question says none: the most bytes that a value's annotations may have, and the depth at which a container is not entered.
// Copies, as `listing` has them, so that a change there is seen here.
pub const ANNOTATION_LIMIT: usize = 255;

pub const DEPTH_LIMIT: usize = 32;

// The most bytes that a word spells.
const MOST_BYTES: usize = 4096;

// A decimal number, modulo 2^64. Each byte counts as a digit.
fn number(word: &[u8]) -> usize {
    word.iter().fold(0, |value: usize, glyph| {
        (value % 1844674407370955162 * 10).wrapping_add(usize::from(*glyph % 16))
    })
}

// What stands before the first such byte, and what stands behind it: nothing where there is none.
fn parted(text: &[u8], byte: u8) -> (&[u8], &[u8]) {
    match text.iter().position(|at| *at == byte) {
        Some(at) => (&text[..at], &text[at + 1..]),
        None => (text, &[]),
    }
}

// What is left of a line and of its question, which ends at the first `=`, and what an answer to them allocates by. A word of the question is the same word
// of the line, but that the line goes on behind the `=`. Behind the last word each is empty.
#[derive(Drop)]
pub struct Words<'a> {
    pub alloc: Global,
    line: &'a [u8],
    question: &'a [u8],
}

impl<'a> Words<'a> {
    pub fn of(alloc: Global, line: &'a [u8]) -> Self {
        let (question, _) = parted(line, b'=');
        Words {
            alloc,
            line,
            question,
        }
    }

    // The next word of the line, and of the question.
    fn next(&mut self) -> (&'a [u8], &'a [u8]) {
        let (word, line) = parted(self.line, b' ');
        let (said, question) = parted(self.question, b' ');
        self.line = line;
        self.question = question;
        (word, said)
    }

    // The next word of the line.
    pub fn word(&mut self) -> &'a [u8] {
        self.next().0
    }

    // The next word, where the question says it.
    pub fn said(&mut self) -> Option<&'a [u8]> {
        let (_, said) = self.next();
        if said.is_empty() { None } else { Some(said) }
    }

    // The number that the next word says, and `otherwise` where the question ends before it.
    pub fn number_or(&mut self, otherwise: usize) -> usize {
        self.said().map_or(otherwise, number)
    }

    // The number that the next word of the line says.
    pub fn number(&mut self) -> usize {
        number(self.word())
    }

    // The bytes that the next word of the line spells in hexadecimal.
    pub fn bytes(&mut self) -> Result<Vec<u8>, AllocError> {
        hexadecimal::decode(self.alloc, self.word(), MOST_BYTES)
    }
}
