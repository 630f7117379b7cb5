// The answers to questions on frames: lengths, pads, wrappers, values and annotation steps.
use crate::answering::{Answer, Part, Refused, join};
use framing::annotations_iterator::{Annotation, read_annotation};
use framing::binary_buffer;
use framing::encoded_value::{AnnotationsWrapper, EncodedValue, Frame, Length, NopPad};
use numbers::refusal::Refusal;
use questions::words::{ANNOTATION_LIMIT, Words};
use std::fmt;

// `length BYTES AT END`: where the value's body starts, and its length.
pub fn length(part: Part, words: &mut Words) -> Answer {
    let Length { body, size } = binary_buffer::read_value_length(part.s, part.at, part.end)?;
    Ok(format!(in words.alloc; "{body} {size}")?)
}

// `pad BYTES AT END`: where the pad ends.
pub fn pad(part: Part, words: &mut Words) -> Answer {
    let pad = binary_buffer::read_nop_pad(part.s, part.at, part.end)?;
    Ok(format!(in words.alloc; "{}", pad.end)?)
}

// `wrapper BYTES AT END LIMIT`: where the annotations start and end, and how long the value is to be.
pub fn wrapper(part: Part, words: &mut Words) -> Answer {
    let limit = words.number_or(ANNOTATION_LIMIT);
    let AnnotationsWrapper {
        annotations,
        value,
        expected,
    } = binary_buffer::read_annotations_wrapper(part.s, part.at, part.end, limit)?;
    Ok(format!(in words.alloc; "{annotations} {value} {expected}")?)
}

// A value's own byte, and its places.
#[derive(Clone, Copy)]
pub struct Places(pub EncodedValue);

impl fmt::Display for Places {
    fn fmt<W: fmt::Write>(&self, f: &mut fmt::Formatter<W>) -> fmt::Result {
        let EncodedValue {
            start,
            annotations,
            descriptor,
            body,
            end,
            byte,
        } = self.0;
        write!(
            f,
            "value {byte} {start} {annotations} {descriptor} {body} {end}"
        )
    }
}

// `value BYTES AT END LIMIT`: the value at AT.
pub fn value(part: Part, words: &mut Words) -> Answer {
    let limit = words.number_or(ANNOTATION_LIMIT);
    let value = binary_buffer::read_value(part.s, part.at, part.end, limit)?;
    Ok(format!(in words.alloc; "{}", Places(value))?)
}

// `frame BYTES AT END LIMIT`: the same, or a pad's body.
pub fn frame(part: Part, words: &mut Words) -> Answer {
    let limit = words.number_or(ANNOTATION_LIMIT);
    match binary_buffer::read_frame(part.s, part.at, part.end, limit)? {
        Frame::Pad(NopPad { body, end }) => Ok(format!(in words.alloc; "pad {body} {end}")?),
        Frame::Value(value) => Ok(format!(in words.alloc; "{}", Places(value))?),
    }
}

// What an annotation step says.
#[derive(Clone, Copy)]
struct Said(Result<Option<Annotation>, Refusal>);

impl fmt::Display for Said {
    fn fmt<W: fmt::Write>(&self, f: &mut fmt::Formatter<W>) -> fmt::Result {
        match self.0 {
            Ok(Some(Annotation { id, next })) => write!(f, "{id} {next}"),
            Ok(None) => write!(f, "end"),
            Err(refusal) => write!(f, "{}", Refused(refusal)),
        }
    }
}

// `annotations BYTES AT END COUNT`: what so many annotation steps say, each from where the one before left. The end and a refusal leave the cursor.
pub fn annotations(part: Part, words: &mut Words) -> Answer {
    let count = words.number();
    let mut line = String::new(words.alloc);
    let mut from = part.at;
    for _ in 0..count {
        let step = read_annotation(part.s, from, part.end);
        join(&mut line, &Said(step))?;
        if let Ok(Some(annotation)) = step {
            from = annotation.next;
        }
    }
    Ok(line)
}
