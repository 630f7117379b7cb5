// The answers to questions on steps: through a stream, a list's or sexp's body, a struct's body.
use crate::answering::{Answer, Part, Refused, join};
use crate::frame_questions::Places;
use framing::encoded_value::EncodedValue;
use numbers::refusal::Refusal;
use questions::words::{ANNOTATION_LIMIT, Words};
use std::fmt;
use stepping::cursor::{Cursor, Item, Step};

// What a step says.
#[derive(Clone, Copy)]
struct Said(Result<Item, Refusal>);

impl fmt::Display for Said {
    fn fmt<W: fmt::Write>(&self, f: &mut fmt::Formatter<W>) -> fmt::Result {
        match self.0 {
            Ok(Item::End { position }) => write!(f, "end {position}"),
            Ok(
                Item::Marker {
                    start,
                    major,
                    minor,
                    end,
                },
            ) => write!(f, "marker {start} {major} {minor} {end}"),
            Ok(Item::Value(value)) => write!(f, "{}", Places(value)),
            // A field begins where its ID does.
            Ok(Item::Field { id, start, value }) => {
                let EncodedValue {
                    annotations,
                    descriptor,
                    body,
                    end,
                    byte,
                    ..
                } = value;
                write!(
                    f,
                    "field {id} {byte} {start} {annotations} {descriptor} {body} {end}"
                )
            }
            Err(refusal) => write!(f, "{}", Refused(refusal)),
        }
    }
}

// `stream BYTES AT END COUNT LIMIT`, `sequence ..` and `struct ..`: what so many steps say, each with the cursor that the one
// before handed back.
pub fn steps<F>(part: Part, words: &mut Words, next: F) -> Answer
where
    F: Fn(Cursor, &[u8], usize) -> Step + Drop,
    requires { F.IsAlwaysCallable next }
{
    let count = words.number();
    let limit = words.number_or(ANNOTATION_LIMIT);
    let mut line = String::new(words.alloc);
    let mut cursor = Cursor {
        at: part.at,
        end: part.end,
    };
    for _ in 0..count {
        let step = next(cursor, part.s, limit);
        join(&mut line, &Said(step.item))?;
        cursor = step.next;
    }
    Ok(line)
}

// `streamleft BYTES AT END COUNT LIMIT`, `sequenceleft ..` and `structleft ..`: the cursor that so many steps leave. The loop is that of
// `steps`, which does something with each step: in one function a closure would be made here that does nothing.
pub fn left<F>(part: Part, words: &mut Words, next: F) -> Answer
where
    F: Fn(Cursor, &[u8], usize) -> Step + Drop,
    requires { F.IsAlwaysCallable next }
{
    let count = words.number();
    let limit = words.number_or(ANNOTATION_LIMIT);
    let mut cursor = Cursor {
        at: part.at,
        end: part.end,
    };
    for _ in 0..count {
        cursor = next(cursor, part.s, limit).next;
    }
    Ok(format!(in words.alloc; "{} {}", cursor.at, cursor.end)?)
}
