// The answers to questions on numbers and descriptors.
use crate::answering::{Answer, Part, sign};
use numbers::binary_buffer;
use numbers::int::Int;
use numbers::type_descriptor::{Kind, TypeDescriptor};
use numbers::var_int::VarInt;
use numbers::var_uint::VarUInt;
use questions::hexadecimal::Hexadecimal;
use questions::words::Words;
use std::alloc::{AllocError, Global};
use std::iter;

// `varuint BYTES AT END`: the value, and where the number ends.
pub fn var_uint(part: Part, words: &mut Words) -> Answer {
    let VarUInt { value, next } = binary_buffer::read_var_uint(part.s, part.at, part.end)?;
    Ok(format!(in words.alloc; "{value} {next}")?)
}

// `varint BYTES AT END`: sign, magnitude, and where the number ends.
pub fn var_int(part: Part, words: &mut Words) -> Answer {
    let VarInt {
        negative,
        magnitude,
        next,
    } = binary_buffer::read_var_int(part.s, part.at, part.end)?;
    Ok(format!(in words.alloc; "{} {magnitude} {next}", sign(negative))?)
}

// `intparts BYTES AT END LENGTH`: sign, the low seven bits of the first byte, and the span of the bytes after it.
pub fn int_parts(part: Part, words: &mut Words) -> Answer {
    let length = words.number();
    let Int {
        negative,
        first,
        rest,
        end,
    } = binary_buffer::read_int(part.s, part.at, part.end, length)?;
    Ok(format!(in words.alloc; "{} {first} {rest} {end}", sign(negative))?)
}

// A magnitude's bytes without leading zeros.
pub fn magnitude(alloc: Global, first: u8, rest: &[u8]) -> Result<Vec<u8>, AllocError> {
    iter::once(first)
        .chain(rest.iter().copied())
        .skip_while(|byte| *byte == 0)
        .collect(alloc)
}

// `int BYTES AT END LENGTH`: sign, magnitude, and where the number ends.
pub fn int(part: Part, words: &mut Words) -> Answer {
    let length = words.number();
    let int = binary_buffer::read_int(part.s, part.at, part.end, length)?;
    let rest = binary_buffer::read_int_rest(part.s, part.at, part.end, length);
    let bytes = magnitude(words.alloc, int.first, rest)?;
    Ok(format!(in words.alloc;
        "{} {} {}",
        sign(int.negative),
        Hexadecimal(&bytes),
        int.end
    )?)
}

// The words are the questions' own: `Debug` writes others.
fn kind_name(kind: Kind) -> &'static str {
    match kind {
        Kind::Value => "value",
        Kind::Null => "null",
        Kind::Pad => "pad",
        Kind::Marker => "marker",
        Kind::Wrapper => "wrapper",
        Kind::Reserved => "reserved",
    }
}

// `descriptor BYTE`: type code, length code and kind.
pub fn descriptor(part: Part, words: &mut Words) -> Answer {
    let Some(byte) = part.s.first() else {
        return Ok(String::from_str(words.alloc, "nothing")?);
    };
    let TypeDescriptor {
        type_code,
        length_code,
        kind,
    } = TypeDescriptor::from_byte(*byte);
    Ok(format!(in words.alloc; "{type_code} {length_code} {}", kind_name(kind))?)
}
