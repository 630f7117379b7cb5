// The answer to a question: a word for what is asked, the bytes in hexadecimal, a part of them, numbers, and where there are any the limits.
use crate::asked::Asked;
use crate::{
    check_questions, decimal_questions, frame_questions, number_questions, scalar_questions,
    step_questions, timestamp_questions, walk_questions,
};
use numbers::refusal::Refusal;
use questions::comparing::MOST_OF_ANSWER;
use questions::words::Words;
use std::alloc::{AllocError, Global};
use std::{fmt, str};
use stepping::cursor::Cursor;

// The part at..end of a question's bytes.
#[derive(Clone, Copy)]
pub struct Part<'a> {
    pub s: &'a [u8],
    pub at: usize,
    pub end: usize,
}

// Why there is nothing else to say. Both `From` are written out: what derives them wants each case to be an `Error`, and a refusal is none.
#[derive(Drop)]
pub enum Failure {
    Refusal(Refusal),
    OutOfMemory(AllocError),
}

impl From<Refusal> for Failure {
    fn from(refusal: Refusal) -> Self {
        Failure::Refusal(refusal)
    }
}

impl From<AllocError> for Failure {
    fn from(error: AllocError) -> Self {
        Failure::OutOfMemory(error)
    }
}

pub type Answer = Result<String, Failure>;

// A refusal in words, as `listing` has it in its lines: a copy, so that a change there is seen here.
#[derive(Clone, Copy)]
pub struct Refused(pub Refusal);

impl fmt::Display for Refused {
    fn fmt<W: fmt::Write>(&self, f: &mut fmt::Formatter<W>) -> fmt::Result {
        write!(f, "refused {} {}", self.0.reason.number(), self.0.position)
    }
}

// The word for a sign: with `int_type` of writing, which gives a code, it shares an `if` alone.
pub fn sign(negative: bool) -> &'static str {
    if negative { "negative" } else { "positive" }
}

// Puts an item on a line, behind the items that are there. A line that is as long as is compared takes no more.
pub fn join<D: fmt::Display>(line: &mut String, item: &D) -> Result<(), AllocError> {
    if MOST_OF_ANSWER <= line.len() {
        return Ok(());
    }
    if !line.is_empty() {
        line.push_str(" ; ")?;
    }
    write!(line, "{item}")
}

// One arm for each question: a table in its place would hand out function pointers, which the check refuses.
fn answer_asked(asked: Asked, words: &mut Words) -> Answer {
    let bytes = words.bytes()?;
    let at = words.number();
    let end = words.number();
    let part = Part { s: &bytes, at, end };
    match asked {
        Asked::VarUInt => number_questions::var_uint(part, words),
        Asked::VarInt => number_questions::var_int(part, words),
        Asked::Int => number_questions::int(part, words),
        Asked::IntParts => number_questions::int_parts(part, words),
        Asked::Descriptor => number_questions::descriptor(part, words),
        Asked::Length => frame_questions::length(part, words),
        Asked::Pad => frame_questions::pad(part, words),
        Asked::Wrapper => frame_questions::wrapper(part, words),
        Asked::Value => frame_questions::value(part, words),
        Asked::Frame => frame_questions::frame(part, words),
        Asked::Annotations => frame_questions::annotations(part, words),
        Asked::Stream => step_questions::steps(part, words, Cursor::next_in_stream),
        Asked::Sequence => step_questions::steps(part, words, Cursor::next_in_sequence),
        Asked::Struct => step_questions::steps(part, words, Cursor::next_in_struct),
        Asked::StreamLeft => step_questions::left(part, words, Cursor::next_in_stream),
        Asked::SequenceLeft => step_questions::left(part, words, Cursor::next_in_sequence),
        Asked::StructLeft => step_questions::left(part, words, Cursor::next_in_struct),
        Asked::Scalar => scalar_questions::scalar(part, words),
        Asked::Part => scalar_questions::read_part(part, words),
        Asked::StepIn => scalar_questions::step_in(part, words),
        Asked::Decimal => decimal_questions::decimal(part, words),
        Asked::DecimalParts => decimal_questions::decimal_parts(part, words),
        Asked::DecimalRest => decimal_questions::decimal_rest(part, words),
        Asked::Timestamp => timestamp_questions::timestamp(part, words),
        Asked::Instant => timestamp_questions::instant(part, words),
        Asked::Walk => walk_questions::walk(part, words),
        Asked::Check => check_questions::check(part, words),
    }
}

// What a word that is no text asks is no question.
fn asked(words: &mut Words) -> Option<Asked> {
    str::from_utf8(words.word()).ok()?.parse().ok()
}

fn no_such_question(alloc: Global) -> Result<String, AllocError> {
    String::from_str(alloc, "no such question")
}

// An answer that says nothing, as that of no steps, is none.
pub fn answer(alloc: Global, line: &[u8]) -> Result<String, AllocError> {
    let words = &mut Words::of(alloc, line);
    let Some(asked) = asked(words) else {
        return no_such_question(alloc);
    };
    match answer_asked(asked, words) {
        Ok(said) if said.is_empty() => no_such_question(alloc),
        Ok(said) => Ok(said),
        Err(Failure::Refusal(refusal)) => format!(in alloc; "{}", Refused(refusal)),
        Err(Failure::OutOfMemory(error)) => Err(error),
    }
}
