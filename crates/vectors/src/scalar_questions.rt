// The answers to questions on values: reading a scalar, and stepping into a container.
use crate::answering::{Answer, Part, sign};
use listing::type_name;
use questions::hexadecimal::Hexadecimal;
use questions::words::{ANNOTATION_LIMIT, Words};
use std::alloc::{AllocError, Global};
use stepping::cursor::Rules;
use values::value;
use values::value::{Scalar, Span};

fn span(alloc: Global, name: &str, Span { start, end }: Span) -> Result<String, AllocError> {
    format!(in alloc; "{name} {start} {end}")
}

// `scalar BYTES AT END POSITION LIMIT`: what the value at a position of the part reads as. The bytes of an int are those of the
// reading's part.
pub fn scalar(part: Part, words: &mut Words) -> Answer {
    let position = words.number();
    let limit = words.number_or(ANNOTATION_LIMIT);
    let said = match value::read(part.s, part.at, part.end, position, limit)? {
        Scalar::Null { type_code } => format!(in words.alloc; "null {}", type_name(type_code)),
        Scalar::Bool(value) => format!(in words.alloc; "bool {}", u8::from(value)),
        Scalar::Int { negative, .. } => {
            let bytes = value::read_part(part.s, part.at, part.end, position, limit);
            format!(in words.alloc; "int {} {}", sign(negative), Hexadecimal(bytes))
        }
        Scalar::Float { bits } => format!(in words.alloc; "float {bits:016X}"),
        Scalar::Decimal(body) => span(words.alloc, "decimal", body),
        Scalar::Timestamp(body) => span(words.alloc, "timestamp", body),
        Scalar::Symbol { id } => format!(in words.alloc; "symbol {id}"),
        Scalar::Text(body) => span(words.alloc, "string", body),
        Scalar::Clob(body) => span(words.alloc, "clob", body),
        Scalar::Blob(body) => span(words.alloc, "blob", body),
        Scalar::Container => String::from_str(words.alloc, "container"),
    };
    Ok(said?)
}

// `part BYTES AT END POSITION LIMIT`: the bytes of that reading's part, `-` where there are none.
pub fn read_part(part: Part, words: &mut Words) -> Answer {
    let position = words.number();
    let limit = words.number_or(ANNOTATION_LIMIT);
    let bytes = value::read_part(part.s, part.at, part.end, position, limit);
    Ok(format!(in words.alloc; "{}", Hexadecimal(bytes))?)
}

// `stepin BYTES AT END POSITION LIMIT`: the rules of the container's body, and where it starts and ends.
pub fn step_in(part: Part, words: &mut Words) -> Answer {
    let position = words.number();
    let limit = words.number_or(ANNOTATION_LIMIT);
    let body = value::step_in(part.s, part.at, part.end, position, limit)?;
    // The words are the questions' own: `Debug` writes others.
    let name = match body.rules {
        Rules::Stream => "stream",
        Rules::Sequence => "sequence",
        Rules::Fields => "struct",
    };
    Ok(format!(in words.alloc; "{name} {} {}", body.cursor.at, body.cursor.end)?)
}
