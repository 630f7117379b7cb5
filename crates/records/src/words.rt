// The words of each kind of record: arrays, since there is no heap and C is given nine words.
//
// `as u64` of a `usize`: std has no `From` for it, and each is proved to lose nothing; of an enum it is the case's own number. The arm of a refusal stands in
// each function: by `map_or_else` the proof did not close.
ghost use Rattle.std.specs.Prelude.{◌≡◌, ◌+◌, ◌-◌, [], ◌∷◌};
ghost use Rattle.numbers.specs.Outcome.{and_then};
ghost use Rattle.numbers.specs.Read.{outcome};
ghost use Rattle.numbers.specs.Refusals.{number_of};
ghost use Rattle.framing.specs.Read.{annotation_read, spans_of};
ghost use Rattle.bodies.specs.Decimal.{decimal_read};
ghost use Rattle.stepping.specs.Read.{item_read};
ghost use Rattle.values.specs.Read.{body_read, scalar_read, dated_read};
ghost use Rattle.records.specs.FirstWords.{entered_at};
ghost use Rattle.records.specs.Read.{number_read};
ghost use Rattle.records.specs.Kinds.{kind_word, what_word};
ghost use Rattle.records.specs.Words.{words, value_kind, bare_words, value_words, end_words, more_words, refused_words, bytes_words, annotation_words, body_words, scalar_words, number_words, decimal_words, fields_word, stamp_words, timestamp_words};

use crate::buffer::RECORD_WORDS;
use crate::kind::RecordKind;
use crate::number::Number;
use bodies::decimal::Decimal;
use framing::annotations_iterator::Annotation;
use framing::encoded_value::{EncodedValue, Length};
use numbers::refusal::Refusal;
use stepping::cursor::{Item, Name, Rules};
use timestamps::timestamp::Stamp;
use values::value::{Body, Scalar, Span, TimestampRead};

// How many bytes start..end has: none where its end stands before its start.
pub fn size_of(start: usize, end: usize) -> u64
    ensures { result ≡ end - start }
{
    end.saturating_sub(start) as u64
}

// The words of a value or a field.
fn value_words(
    kind: RecordKind,
    start: usize,
    value: EncodedValue,
    id: usize,
) -> [u64; RECORD_WORDS]
    ensures { result ≡ value_words (kind_word kind) start (spans_of value) id }
{
    [
        kind as u64,
        u64::from(value.byte),
        start as u64,
        value.annotations as u64,
        value.descriptor as u64,
        value.body as u64,
        value.end as u64,
        id as u64,
        size_of(value.body, value.end),
    ]
}

// The kind of a value's record, by the rules of its part. No `From`: it is not the rules that have a kind; and nothing is run by the case.
fn value_kind(rules: Rules) -> RecordKind
    ensures { kind_word result ≡ value_kind rules }
{
    match rules {
        Rules::Stream | Rules::Sequence => RecordKind::Value,
        Rules::Fields => RecordKind::Field,
    }
}

// The words of a value without a wrapper that ends at `end`, behind its name, which begins at `start`: its descriptor is this byte. Not by `value_words`: the
// size is the one that was read, which the contract allows to differ from `end` - `length.body`.
pub fn bare_words(
    rules: Rules,
    start: usize,
    name: Name,
    byte: u8,
    length: Length,
    end: usize,
) -> [u64; RECORD_WORDS]
    ensures { result ≡ bare_words rules start name.id byte name.next length.body end length.size }
{
    [
        value_kind(rules) as u64,
        u64::from(byte),
        start as u64,
        name.next as u64,
        name.next as u64,
        length.body as u64,
        end as u64,
        name.id as u64,
        length.size as u64,
    ]
}

// The words of an end.
pub fn end_words(position: usize) -> [u64; RECORD_WORDS]
    ensures { result ≡ end_words position }
{
    [RecordKind::End as u64, 0, position as u64, 0, 0, 0, 0, 0, 0]
}

// The words of a step's answer.
pub fn item_words(item: Result<Item, Refusal>) -> [u64; RECORD_WORDS]
    ensures { result ≡ words (item_read item) }
{
    match item {
        Ok(Item::End { position }) => end_words(position),
        Ok(
            Item::Marker {
                start,
                major,
                minor,
                end,
            },
        ) => [
            RecordKind::Marker as u64,
            0xE0,
            start as u64,
            u64::from(major),
            u64::from(minor),
            end as u64,
            end as u64,
            0,
            0,
        ],
        Ok(Item::Value(value)) => value_words(RecordKind::Value, value.start, value, 0),
        Ok(Item::Field { id, start, value }) => value_words(RecordKind::Field, start, value, id),
        Err(refusal) => refused_words(refusal),
    }
}

// The words of a bounded step that goes on: how many pads it passed, and where it goes on.
pub fn more_words(pads: usize, at: usize) -> [u64; RECORD_WORDS]
    ensures { result ≡ more_words pads at }
{
    [
        RecordKind::More as u64,
        pads as u64,
        at as u64,
        0,
        0,
        0,
        0,
        0,
        0,
    ]
}

// The words of a refusal.
pub fn refused_words(refusal: Refusal) -> [u64; RECORD_WORDS]
    ensures { result ≡ refused_words (number_of refusal.reason) refusal.position }
{
    [
        RecordKind::Refused as u64,
        refusal.reason.number(),
        refusal.position as u64,
        0,
        0,
        0,
        0,
        0,
        0,
    ]
}

// The words of an answer that is a number of bytes.
pub fn bytes_words(kind: RecordKind, size: Result<usize, Refusal>) -> [u64; RECORD_WORDS]
    ensures { result ≡ bytes_words (kind_word kind) (outcome (λ n. n) size) }
{
    match size {
        Ok(n) => [kind as u64, 0, 0, n as u64, 0, 0, 0, 0, 0],
        Err(refusal) => refused_words(refusal),
    }
}

// The words of an annotation step.
pub fn annotation_words(
    position: usize,
    annotation: Result<Option<Annotation>, Refusal>,
) -> [u64; RECORD_WORDS]
    ensures { result ≡ annotation_words position (annotation_read annotation) }
{
    match annotation {
        Ok(Some(Annotation { id, next })) => [
            RecordKind::Annotation as u64,
            0,
            position as u64,
            id as u64,
            0,
            0,
            next as u64,
            0,
            0,
        ],
        Ok(None) => end_words(position),
        Err(refusal) => refused_words(refusal),
    }
}

// The words of a body that a container opens.
pub fn body_words(descriptor: usize, body: Result<Body, Refusal>) -> [u64; RECORD_WORDS]
    ensures { result ≡ body_words (and_then (body_read body) (entered_at descriptor)) }
{
    match body {
        Ok(Body { rules, cursor }) => [
            RecordKind::Body as u64,
            u64::from(rules),
            descriptor as u64,
            0,
            0,
            cursor.at as u64,
            cursor.end as u64,
            0,
            size_of(cursor.at, cursor.end),
        ],
        Err(refusal) => refused_words(refusal),
    }
}

// What a scalar is: word 3 of its record.
#[derive(Clone, Copy)]
enum What {
    Null = 0,
    Bool = 1,
    Int = 2,
    Float = 3,
    Decimal = 4,
    Timestamp = 5,
    Symbol = 6,
    Text = 7,
    Clob = 8,
    Blob = 9,
    Container = 10,
}

// Zeros, and no `None`, as C's record has them.
pub(crate) const NO_PART: Span = Span { start: 0, end: 0 };

// The words of a reading: what it is, its number and its part.
fn reading_words(value: EncodedValue, what: What, worth: u64, part: Span) -> [u64; RECORD_WORDS]
    ensures { result ≡ 7 ∷ value.byte ∷ value.descriptor ∷ what_word what ∷ worth ∷ part.start ∷ part.end ∷ 0 ∷ (part.end - part.start) ∷ [] }
{
    [
        RecordKind::Scalar as u64,
        u64::from(value.byte),
        value.descriptor as u64,
        what as u64,
        worth,
        part.start as u64,
        part.end as u64,
        0,
        size_of(part.start, part.end),
    ]
}

// The words of a value's reading.
pub fn scalar_words(value: EncodedValue, scalar: Result<Scalar, Refusal>) -> [u64; RECORD_WORDS]
    ensures { result ≡ scalar_words (spans_of value) (scalar_read scalar) }
{
    match scalar {
        Ok(Scalar::Null { .. }) => reading_words(value, What::Null, 0, NO_PART),
        Ok(Scalar::Bool(b)) => reading_words(value, What::Bool, u64::from(b), NO_PART),
        Ok(
            Scalar::Int {
                negative,
                magnitude,
            },
        ) => reading_words(value, What::Int, u64::from(negative), magnitude),
        Ok(Scalar::Float { bits }) => reading_words(value, What::Float, bits, NO_PART),
        Ok(Scalar::Decimal(part)) => reading_words(value, What::Decimal, 0, part),
        Ok(Scalar::Timestamp(part)) => reading_words(value, What::Timestamp, 0, part),
        Ok(Scalar::Symbol { id }) => reading_words(value, What::Symbol, id, NO_PART),
        Ok(Scalar::Text(part)) => reading_words(value, What::Text, 0, part),
        Ok(Scalar::Clob(part)) => reading_words(value, What::Clob, 0, part),
        Ok(Scalar::Blob(part)) => reading_words(value, What::Blob, 0, part),
        Ok(Scalar::Container) => reading_words(value, What::Container, 0, NO_PART),
        Err(refusal) => refused_words(refusal),
    }
}

// The words of a number.
pub fn number_words(position: usize, number: Result<Number, Refusal>) -> [u64; RECORD_WORDS]
    ensures { result ≡ number_words position (number_read number) }
{
    match number {
        Ok(
            Number {
                negative,
                value,
                rest,
                end,
            },
        ) => [
            RecordKind::Number as u64,
            u64::from(negative),
            position as u64,
            value as u64,
            0,
            rest as u64,
            end as u64,
            0,
            0,
        ],
        Err(refusal) => refused_words(refusal),
    }
}

// The words of a decimal whose body begins at `start`.
pub fn decimal_words(start: usize, decimal: Result<Decimal, Refusal>) -> [u64; RECORD_WORDS]
    ensures { result ≡ decimal_words start (decimal_read decimal) }
{
    match decimal {
        Ok(
            Decimal {
                exponent_negative,
                exponent,
                coefficient,
            },
        ) => [
            RecordKind::Decimal as u64,
            u64::from(coefficient.negative),
            start as u64,
            u64::from(coefficient.first),
            u64::from(exponent_negative),
            coefficient.rest as u64,
            coefficient.end as u64,
            exponent as u64,
            0,
        ],
        Err(refusal) => refused_words(refusal),
    }
}

// A timestamp's fields in one word: the year's two bytes, and a byte for each of the others.
fn fields_word(stamp: Stamp) -> u64
    ensures { result ≡ fields_word stamp.year stamp.month stamp.day stamp.hour stamp.minute stamp.second }
{
    let [low, high] = stamp.year.to_le_bytes();
    u64::from_le_bytes([
        low,
        high,
        stamp.month,
        stamp.day,
        stamp.hour,
        stamp.minute,
        stamp.second,
        0,
    ])
}

// The words of what a timestamp says.
fn stamp_words(descriptor: usize, stamp: Stamp) -> [u64; RECORD_WORDS]
    ensures { result ≡ stamp_words descriptor stamp }
{
    [
        RecordKind::Timestamp as u64,
        u64::from(stamp.precision),
        descriptor as u64,
        u64::from(stamp.offset),
        fields_word(stamp),
        stamp.exponent as u64,
        u64::from(stamp.exponent_negative),
        stamp.coefficient,
        0,
    ]
}

// The words of a reading of a timestamp, and of any other value.
pub fn timestamp_words(read: Result<TimestampRead, Refusal>) -> [u64; RECORD_WORDS]
    ensures { result ≡ timestamp_words (dated_read read) }
{
    match read {
        Ok(TimestampRead::Stamped { descriptor, stamp }) => stamp_words(descriptor, stamp),
        Ok(TimestampRead::Other { value, scalar }) => scalar_words(value, Ok(scalar)),
        Err(refusal) => refused_words(refusal),
    }
}
