// The buffers that are lent to a call, and what is said of it: what it returned, and what it left in them.
use crate::arguments::{buffer, buffer_for_writing};
use crate::left::Left;
use questions::hexadecimal::Hexadecimal;
use questions::words::Words;
use std::alloc::AllocError;
use std::fmt;

// Why nothing is said of a call: a buffer of its line is longer than there is room for, and it is not made. `From` is written out, as in `vectors`.
#[derive(Drop)]
pub enum Failure {
    NoRoom,
    OutOfMemory(AllocError),
}

impl From<AllocError> for Failure {
    fn from(error: AllocError) -> Self {
        Failure::OutOfMemory(error)
    }
}

pub type Said = Result<String, Failure>;

// What is said of a call that has the buffer for its record.
pub fn left<D: fmt::Display>(words: &Words, returned: &D, out: &[u8]) -> Said {
    Ok(format!(in words.alloc; "{returned}{}", Left(out))?)
}

// And of one that has the buffer for what it writes too.
fn both_left<D: fmt::Display>(words: &Words, returned: &D, to: &[u8], out: &[u8]) -> Said {
    Ok(format!(in words.alloc; "{returned} : {}{}", Hexadecimal(to), Left(out))?)
}

// And of one that is not made, since there is no room for what it writes.
fn neither_left(words: &Words, out: &[u8]) -> Said {
    Ok(format!(in words.alloc; ": -{}", Left(out))?)
}

// Lends a call the buffer for its record.
pub fn lend<D, F>(words: &mut Words, call: F) -> Said
where
    D: fmt::Display + Drop,
    F: FnOnce(&mut [u8], &mut Words) -> Result<D, AllocError> + Drop,
    requires { F.IsAlwaysCallable call }
{
    let mut out = buffer(words)?;
    let returned = call(&mut out, words)?;
    left(words, &returned, &out)
}

// Lends it the other one too. Two functions, as the header's have one buffer or two: a closure of both forms would take a buffer that it leaves alone.
pub fn lend_both<D, F>(words: &mut Words, call: F) -> Said
where
    D: fmt::Display + Drop,
    F: FnOnce(&mut [u8], &mut [u8], &mut Words) -> Result<D, AllocError> + Drop,
    requires { F.IsAlwaysCallable call }
{
    let mut out = buffer(words)?;
    match buffer_for_writing(words) {
        Ok(mut to) => {
            let returned = call(&mut to, &mut out, words)?;
            both_left(words, &returned, &to, &out)
        }
        Err(Failure::NoRoom) => neither_left(words, &out),
        Err(error) => Err(error),
    }
}
