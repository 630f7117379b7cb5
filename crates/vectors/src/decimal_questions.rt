// The answers to questions on decimals' bodies.
use crate::answering::{Answer, Part, sign};
use crate::number_questions::magnitude;
use bodies::decimal::{read_decimal, read_decimal_rest};
use questions::hexadecimal::Hexadecimal;
use questions::words::Words;

// `decimal BYTES START END`: sign and magnitude of the exponent, and of the coefficient.
pub fn decimal(part: Part, words: &mut Words) -> Answer {
    let decimal = read_decimal(part.s, part.at, part.end)?;
    let coefficient = decimal.coefficient;
    let rest = read_decimal_rest(part.s, part.at, part.end);
    let bytes = magnitude(words.alloc, coefficient.first, rest)?;
    Ok(format!(in words.alloc;
        "{} {} {} {}",
        sign(decimal.exponent_negative),
        decimal.exponent,
        sign(coefficient.negative),
        Hexadecimal(&bytes)
    )?)
}

// `decimalparts BYTES START END`: sign and magnitude of the exponent; of the coefficient the sign, the low seven bits of its
// first byte, and the span of the bytes after it.
pub fn decimal_parts(part: Part, words: &mut Words) -> Answer {
    let decimal = read_decimal(part.s, part.at, part.end)?;
    let coefficient = decimal.coefficient;
    Ok(format!(in words.alloc;
        "{} {} {} {} {} {}",
        sign(decimal.exponent_negative),
        decimal.exponent,
        sign(coefficient.negative),
        coefficient.first,
        coefficient.rest,
        coefficient.end
    )?)
}

// `decimalrest BYTES START END`: the bytes after the coefficient's first one, `-` where there are none.
pub fn decimal_rest(part: Part, words: &mut Words) -> Answer {
    let rest = read_decimal_rest(part.s, part.at, part.end);
    Ok(format!(in words.alloc; "{}", Hexadecimal(rest))?)
}
