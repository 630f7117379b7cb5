// Calls of the exported functions: what each returns, and what it leaves in its buffers.
use crate::arguments::Place;
use crate::function::Function;
use crate::lending::{Failure, Said, lend, lend_both};
use crate::{reading_calls, step_calls, symbol_calls, write_calls};
use additions::packed::ion_map_packed_size;
use additions::readings::{ion_map_check, ion_map_timestamp};
use questions::words::Words;
use readings::exports::{ion_map_scalar, ion_map_step_in};
use std::alloc::{AllocError, Global};
use std::str;

// One arm for each function: a table in its place would hand out function pointers, which the check refuses.
fn called(function: Function, map: &[u8], words: &mut Words) -> Said {
    match function {
        Function::Step => step_calls::step(map, words),
        Function::Steps => step_calls::steps(map, words),
        Function::StepBounded => step_calls::step_bounded(map, words),
        Function::Walked => step_calls::walked(map, words),
        Function::Ids => step_calls::ids(map, words),
        Function::Annotation => reading_calls::annotation(map, words),
        Function::StepIn => reading_calls::of_value(map, words, ion_map_step_in),
        Function::Scalar => reading_calls::of_value(map, words, ion_map_scalar),
        Function::Timestamp => reading_calls::of_value(map, words, ion_map_timestamp),
        Function::Number => reading_calls::number(map, words),
        Function::Decimal => reading_calls::decimal(map, words),
        Function::Check => reading_calls::of_map(map, words, ion_map_check),
        Function::Text => symbol_calls::text(map, words),
        Function::Symbols => symbol_calls::symbols(map, words),
        Function::SymbolText => symbol_calls::symbol_text(map, words),
        Function::PackedSize => reading_calls::of_map(map, words, ion_map_packed_size),
        Function::Pack => write_calls::pack(map, words),
        Function::WriteNull => write_calls::null(words),
        Function::WriteBool => write_calls::bool(words),
        Function::WriteInt => write_calls::int(map, words),
        Function::WriteFloat => write_calls::float(words),
        Function::WriteSymbol => write_calls::symbol(words),
        Function::WriteScalar => write_calls::scalar(map, words),
        Function::WriteContainer => write_calls::container(map, words),
        Function::WriteWrapper => write_calls::wrapper(map, words),
        Function::WritePad => write_calls::pad(words),
    }
}

// What is said of a function that there is none of. By its name it has buffers as those that write, or one behind a place in a map.
fn not_called(name: &[u8], words: &mut Words) -> Said {
    let said = "no such function";
    if name.starts_with(b"write_") {
        return lend_both(words, |_, _, _| Ok(said));
    }
    let _ = Place::of(words);
    lend(words, |_, _| Ok(said))
}

fn said(words: &mut Words) -> Said {
    let name = words.word();
    let map = words.bytes()?;
    match str::from_utf8(name).unwrap_or("").parse() {
        Ok(function) => called(function, &map, words),
        Err(_) => not_called(name, words),
    }
}

// The answer to a line: the function's name without `ion_map_`, the map's or the lent bytes in hexadecimal, and the other arguments.
pub fn answer(alloc: Global, line: &[u8]) -> Result<String, AllocError> {
    match said(&mut Words::of(alloc, line)) {
        Ok(said) => Ok(said),
        Err(Failure::NoRoom) => Ok(String::new(alloc)),
        Err(Failure::OutOfMemory(error)) => Err(error),
    }
}
