// The answers to questions on timestamps' bodies.
use crate::answering::{Answer, Part, sign};
use questions::words::Words;
use std::fmt;
use timestamps::timestamp::{Stamp, read_timestamp};

// The offset and 1440, or 0 where it is unknown, and the six fields.
#[derive(Clone, Copy)]
struct Fields(Stamp);

impl fmt::Display for Fields {
    fn fmt<W: fmt::Write>(&self, f: &mut fmt::Formatter<W>) -> fmt::Result {
        let Stamp {
            offset,
            year,
            month,
            day,
            hour,
            minute,
            second,
            ..
        } = self.0;
        write!(f, "{offset} {year} {month} {day} {hour} {minute} {second}")
    }
}

// The most places of a fraction that are written.
const PLACES: usize = 18;

// The fraction in units of ten to the -18th, where it has no more places.
#[derive(Clone, Copy)]
struct Attoseconds(Stamp);

impl fmt::Display for Attoseconds {
    fn fmt<W: fmt::Write>(&self, f: &mut fmt::Formatter<W>) -> fmt::Result {
        let Stamp {
            exponent,
            coefficient,
            ..
        } = self.0;
        if coefficient == 0 {
            return write!(f, "0");
        }
        if PLACES < exponent {
            return write!(f, "more than {PLACES} places");
        }
        let width = PLACES - exponent;
        write!(f, "{coefficient}{:0<width$}", "")
    }
}

// `timestamp BYTES START END DESCRIPTOR`: how far it goes, the offset and the fields, sign and magnitude of the fraction's exponent, and its coefficient.
pub fn timestamp(part: Part, words: &mut Words) -> Answer {
    let descriptor = words.number();
    let t = read_timestamp(part.s, part.at, part.end, descriptor)?;
    Ok(format!(in words.alloc;
        "{} {} {} {} {}",
        t.precision,
        Fields(t),
        sign(t.exponent_negative),
        t.exponent,
        t.coefficient
    )?)
}

// `instant BYTES START END`: how far it goes, a fraction as a second, the offset and the fields, and the fraction by its value.
pub fn instant(part: Part, words: &mut Words) -> Answer {
    let t = read_timestamp(part.s, part.at, part.end, 0)?;
    Ok(format!(in words.alloc; "{} {} {}", t.precision.min(5), Fields(t), Attoseconds(t))?)
}
