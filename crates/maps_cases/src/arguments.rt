// The arguments of a call, one after the other: the words of its line after the function's name, in the header's order, but that the buffers' lengths stand
// before the limits.
use crate::left::FILL;
use crate::lending::Failure;
use questions::hexadecimal;
use questions::words::{ANNOTATION_LIMIT, DEPTH_LIMIT, Words};
use std::alloc::AllocError;

// What the lent system text is where a line says none: the nine texts. A copy, so that a change there is seen here.
const SYSTEM_TEXT: &[u8] =
    b"$ion$ion_1_0$ion_symbol_tablenameversionimportssymbolsmax_id$ion_shared_symbol_table";

// The most bytes of a system text that a line lends, of a value that is written into a wrapper, of a buffer for a record, and of one for what is written.
const MOST_OF_SYSTEM_TEXT: usize = 128;

const MOST_OF_VALUE: usize = 1024;

const ROOM: usize = 1024;

const ROOM_FOR_WRITING: usize = 512;

// A part of the map, and a position in it.
#[derive(Clone, Copy, Debug)]
pub struct Place {
    pub start: usize,
    pub end: usize,
    pub position: usize,
}

impl Place {
    pub fn of(words: &mut Words) -> Self {
        let start = words.number();
        let end = words.number();
        let position = words.number();
        Place {
            start,
            end,
            position,
        }
    }
}

// The most bytes that a value's annotations may have, and the depth at which a container is not entered.
#[derive(Clone, Copy, Debug)]
pub struct Limits {
    pub limit: usize,
    pub depth: usize,
}

impl Limits {
    pub fn of(words: &mut Words) -> Self {
        let limit = words.number_or(ANNOTATION_LIMIT);
        let depth = words.number_or(DEPTH_LIMIT);
        Limits { limit, depth }
    }
}

// A buffer of the length that is said, where there is room for it.
fn buffer_in(words: &mut Words, room: usize) -> Result<Vec<u8>, Failure> {
    let size = words.number();
    if room < size {
        return Err(Failure::NoRoom);
    }
    Ok(vec![in words.alloc; FILL; size]?)
}

// The buffer for a record.
pub fn buffer(words: &mut Words) -> Result<Vec<u8>, Failure> {
    buffer_in(words, ROOM)
}

// The buffer for what is written.
pub fn buffer_for_writing(words: &mut Words) -> Result<Vec<u8>, Failure> {
    buffer_in(words, ROOM_FOR_WRITING)
}

// The bytes of a value.
pub fn value(words: &mut Words) -> Result<Vec<u8>, AllocError> {
    hexadecimal::decode(words.alloc, words.word(), MOST_OF_VALUE)
}

pub fn system_text(words: &mut Words) -> Result<Vec<u8>, AllocError> {
    match words.said() {
        Some(word) => hexadecimal::decode(words.alloc, word, MOST_OF_SYSTEM_TEXT),
        None => SYSTEM_TEXT.to_vec(words.alloc),
    }
}
