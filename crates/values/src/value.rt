// The entries on a value: stepping into a container, reading a scalar, and reading a timestamp.
//
// Each takes a part of the slice, start..end, the position in it of the value's wrapper or descriptor, and the most bytes that a value's annotations may have:
// five parameters and no struct of them, since the exports to C hand them on as they came.
ghost use Rattle.std.specs.Prelude.{◌≡◌, ◌≤◌, ◌<◌, length, false, eqb, IfOk};
ghost use Rattle.numbers.specs.Outcome.{gives, pick};
ghost use Rattle.numbers.specs.Read.{outcome};
ghost use Rattle.timestamps.specs.Timestamp.{timestamp};
ghost use Rattle.framing.specs.Read.{framed_read, spans_of};
ghost use Rattle.stepping.specs.Read.{item_read};
ghost use Rattle.values.specs.Scalars.{null, type_of, code_of, value_in, is_container, opened, step_in, bool_of, positive_of, negative_of, float_of, symbol_of, string_of, typed_of, scalar_of, scalar_in, read_scalar, read_with_value, span_of, scalar_part};
ghost use Rattle.values.specs.Timestamps.{timestamp_of, read_timestamp};
ghost use Rattle.values.specs.Read.{body_read, scalar_told, scalar_read, value_read, dated_read};
ghost use Rattle.values.specs.Private.Values.{value_from};

use bodies::float::widen;
use bodies::magnitude::significant;
use bodies::uint::uint_of;
use bodies::utf8::is_utf8;
use framing::encoded_value::EncodedValue;
use framing::limits::out_of_range;
use numbers::binary_buffer::outside;
use numbers::refusal::{LIMIT_OUT_OF_RANGE, OUTSIDE, Reason, Refusal};
use numbers::type_descriptor::FIRST_NO_PAD;
use stepping::cursor::{Cursor, Item, Rules, item_at};
use timestamps::timestamp::{Stamp, read_timestamp as read_body};

// The body of a container: its rules, and a cursor at its start.
#[derive(Clone, Copy, Debug, PartialEq, Eq)]
pub struct Body {
    pub rules: Rules,
    pub cursor: Cursor,
}

// The bytes start..end of the slice.
#[derive(Clone, Copy, Debug, PartialEq, Eq)]
pub struct Span {
    pub start: usize,
    pub end: usize,
}

impl Span {
    // The body of a value.
    pub fn of_body(value: EncodedValue) -> Span
        ensures { result ≡ record { start = value.body; end = value.end } }
    {
        Span {
            start: value.body,
            end: value.end,
        }
    }
}

// What a value is read as.
#[derive(Clone, Copy, Debug, PartialEq, Eq)]
pub enum Scalar {
    // A null, by the type code of its type; that of an int is 2.
    Null { type_code: u8 },
    Bool(bool),
    // Its sign, and its magnitude without leading zero bytes.
    Int { negative: bool, magnitude: Span },
    // The bits of a 64-bit IEEE number.
    Float { bits: u64 },
    Decimal(Span),
    Timestamp(Span),
    Symbol { id: u64 },
    Text(Span),
    Clob(Span),
    Blob(Span),
    // A list, a sexp or a struct.
    Container,
}

// A value's spans with what it is read as.
#[derive(Clone, Copy, Debug, PartialEq, Eq)]
pub struct ValueRead {
    pub value: EncodedValue,
    pub scalar: Result<Scalar, Refusal>,
}

// What a value is read as where timestamps are read. Each case tells something: no plainer as an Option.
#[derive(Clone, Copy, Debug, PartialEq, Eq)]
pub enum TimestampRead {
    // A timestamp: where its descriptor stands, and what it says.
    Stamped { descriptor: usize, stamp: Stamp },
    // A null or another type: its spans and its scalar.
    Other { value: EncodedValue, scalar: Scalar },
}

// The type code of a timestamp: this and those below are the document's own numbers.
const TIMESTAMP: u8 = 6;

// The most bytes of a symbol.
const MAX_SYMBOL_SIZE_IN_BYTES: usize = 8;

// The value that the answer of a step at `at` is.
fn value_of(at: usize, item: Result<Item, Refusal>) -> Result<EncodedValue, Refusal>
    ensures { framed_read result ≡ value_from at (item_read item) }
{
    match item? {
        Item::Value(value) => Ok(value),
        Item::End { .. } | Item::Marker { .. } | Item::Field { .. } => Err(Refusal {
            reason: Reason::NotAValue,
            position: at,
        }),
    }
}

// The value at `at` in the part start..end: what a step in a sequence answers there, but that a pad is refused.
#[tactic(auto, using(crate::proofs::Valued::tested, crate::proofs::Valued::in_slice))]
pub fn value_in(
    s: &[u8],
    start: usize,
    end: usize,
    at: usize,
    limit: usize,
) -> Result<EncodedValue, Refusal>
    ensures { framed_read result ≡ value_in limit s.now start end at }
{
    if out_of_range(limit) {
        return Err(LIMIT_OUT_OF_RANGE);
    }
    if at < start || outside(s, at, end) {
        return Err(OUTSIDE);
    }
    if at == end {
        return Err(Refusal {
            reason: Reason::NoValueLeft,
            position: end,
        });
    }
    if s[at] < FIRST_NO_PAD {
        return Err(Refusal {
            reason: Reason::NotAValue,
            position: at,
        });
    }
    value_of(at, item_at(Rules::Sequence, s, at, end, limit))
}

// Whether a value is of a type, by its code, and not null. By the byte's halves, here and below: a descriptor would be made with its kind for each test.
#[tactic(auto, using(crate::proofs::Tests::tests))]
pub fn is_typed(value: EncodedValue, type_code: u8) -> bool
    ensures { result ≡ pick (eqb (code_of (spans_of value)) 15) false (eqb (type_of (spans_of value)) type_code) }
{
    value.byte % 16 != 15 && value.byte / 16 == type_code
}

// Whether a value is a list, a sexp or a struct, and not null.
#[tactic(auto, using(crate::proofs::Tests::tests), unfolding(crate::specs::Scalars::is_container))]
pub fn is_container(value: EncodedValue) -> bool
    ensures { result ≡ is_container (spans_of value) }
{
    value.byte % 16 != 15 && 10 < value.byte / 16
}

// The body of a value that is a container.
#[tactic(auto, using(crate::proofs::Tests::tests), unfolding(crate::specs::Scalars::opened))]
pub fn open(value: EncodedValue) -> Result<Body, Refusal>
    ensures { body_read result ≡ opened (spans_of value) }
{
    if !is_container(value) {
        return Err(Refusal {
            reason: Reason::NotAContainer,
            position: value.descriptor,
        });
    }
    let rules = if value.byte / 16 == 13 {
        Rules::Fields
    } else {
        Rules::Sequence
    };
    let cursor = Cursor {
        at: value.body,
        end: value.end,
    };
    Ok(Body { rules, cursor })
}

// Steps into the container at `at`.
#[tactic(auto, using(crate::proofs::Tests::tests), unfolding(crate::specs::Scalars::step_in))]
pub fn step_in(s: &[u8], start: usize, end: usize, at: usize, limit: usize) -> Result<Body, Refusal>
    ensures { body_read result ≡ step_in limit s.now start end at }
{
    open(value_in(s, start, end, at, limit)?)
}

#[tactic(auto, using(crate::proofs::Tests::tests), unfolding(crate::specs::Scalars::bool_of))]
fn read_bool(value: EncodedValue) -> Result<Scalar, Refusal>
    ensures { scalar_read result ≡ bool_of (spans_of value) }
{
    let code = value.byte % 16;
    if 1 < code {
        return Err(Refusal {
            reason: Reason::BadBool,
            position: value.descriptor,
        });
    }
    Ok(Scalar::Bool(code == 1))
}

// A positive int, and below a negative one: two functions, as the document has two types, of which only the second has a reading that is refused.
// No methods of `Placed`, as `read_string` below: they ask nothing of where the value lies.
#[tactic(auto, using(crate::proofs::Tests::tests), unfolding(crate::specs::Scalars::positive_of))]
fn read_positive(s: &[u8], value: EncodedValue) -> Scalar
    ensures { gives (scalar_told result) ≡ positive_of s.now (spans_of value) }
{
    Scalar::Int {
        negative: false,
        magnitude: Span {
            start: significant(s, value.body, value.end),
            end: value.end,
        },
    }
}

#[tactic(auto, using(crate::proofs::Tests::tests), unfolding(crate::specs::Scalars::negative_of))]
fn read_negative(s: &[u8], value: EncodedValue) -> Result<Scalar, Refusal>
    ensures { scalar_read result ≡ negative_of s.now (spans_of value) }
{
    let start = significant(s, value.body, value.end);
    if start == value.end {
        return Err(Refusal {
            reason: Reason::NegativeZeroInt,
            position: value.descriptor,
        });
    }
    Ok(Scalar::Int {
        negative: true,
        magnitude: Span {
            start,
            end: value.end,
        },
    })
}

// Four bytes are proved to fit a `u32`. That takes what each byte is at most, which is known of a slice that is a parameter and not of one in a struct: so
// this is no method of `Placed`, and has its facts as a `requires`.
#[tactic(auto, using(crate::proofs::Tests::tests, crate::proofs::Reading::four_fit), unfolding(crate::specs::Scalars::float_of))]
fn read_float(s: &[u8], value: EncodedValue) -> Scalar
    requires { (value.body ≤ value.end) × (value.end ≤ length s.now) }
    ensures { gives (scalar_told result) ≡ float_of s.now (spans_of value) }
{
    let size = value.end - value.body;
    if size == 0 {
        return Scalar::Float { bits: 0 };
    }
    let bits = uint_of(s, value.body, value.end);
    if size == 4 {
        return Scalar::Float {
            bits: widen(bits as u32),
        };
    }
    Scalar::Float { bits }
}

#[tactic(auto, using(crate::proofs::Tests::tests), unfolding(crate::specs::Scalars::string_of))]
fn read_string(s: &[u8], value: EncodedValue) -> Result<Scalar, Refusal>
    ensures { scalar_read result ≡ string_of s.now (spans_of value) }
{
    if !is_utf8(s, value.body, value.end) {
        return Err(Refusal {
            reason: Reason::BadUtf8,
            position: value.descriptor,
        });
    }
    Ok(Scalar::Text(Span::of_body(value)))
}

fn null_of(type_code: u8) -> Scalar
    ensures { scalar_told result ≡ null (pick (eqb type_code 3) 2 type_code) }
{
    if type_code == 3 {
        return Scalar::Null { type_code: 2 };
    }
    Scalar::Null { type_code }
}

// A value whose body lies in the slice.
#[derive(Clone, Copy)]
struct Placed<'a> {
    s: &'a [u8],
    value: EncodedValue,
    ghost in_order: { value.body ≤ value.end },
    ghost in_slice: { value.end ≤ length s.now },
}

impl<'a> Placed<'a> {
    // The value at `at` in the part start..end.
    #[tactic(auto, using(crate::proofs::Reading::framed_order, crate::proofs::Reading::framed_within))]
    fn at(
        s: &'a [u8],
        start: usize,
        end: usize,
        at: usize,
        limit: usize,
    ) -> Result<Placed<'a>, Refusal>
        ensures value { outcome (λ p. spans_of p.value) result ≡ value_in limit s.now start end at }
        ensures slice { IfOk result (λ p. p.s.now ≡ s.now) }
    {
        let value = value_in(s, start, end, at, limit)?;
        Ok(Placed { s, value })
    }

    #[tactic(auto, using(crate::proofs::Tests::tests), unfolding(crate::specs::Scalars::symbol_of))]
    fn symbol(self) -> Result<Scalar, Refusal>
        ensures { scalar_read result ≡ symbol_of self.entry.s.now (spans_of self.entry.value) }
    {
        let Placed { s, value } = self;
        if MAX_SYMBOL_SIZE_IN_BYTES < value.end - value.body {
            return Err(Refusal {
                reason: Reason::SymbolTooLong,
                position: value.descriptor,
            });
        }
        Ok(Scalar::Symbol {
            id: uint_of(s, value.body, value.end),
        })
    }

    // A value that is no null, by its type code.
    #[tactic(auto, using(crate::proofs::Tests::tests), unfolding(crate::specs::Scalars::typed_of))]
    fn typed(self, type_code: u8) -> Result<Scalar, Refusal>
        ensures { scalar_read result ≡ typed_of self.entry.s.now (spans_of self.entry.value) type_code }
    {
        let Placed { s, value } = self;
        let body = Span::of_body(value);
        match type_code {
            1 => read_bool(value),
            2 => Ok(read_positive(s, value)),
            3 => read_negative(s, value),
            4 => Ok(read_float(s, value)),
            5 => Ok(Scalar::Decimal(body)),
            6 => Ok(Scalar::Timestamp(body)),
            7 => self.symbol(),
            8 => read_string(s, value),
            9 => Ok(Scalar::Clob(body)),
            10 => Ok(Scalar::Blob(body)),
            _ => Ok(Scalar::Container),
        }
    }

    // The scalar of the value.
    #[tactic(auto, using(crate::proofs::Tests::tests), unfolding(crate::specs::Scalars::scalar_of))]
    fn scalar(self) -> Result<Scalar, Refusal>
        ensures { scalar_read result ≡ scalar_of self.entry.s.now (spans_of self.entry.value) }
    {
        let type_code = self.value.byte / 16;
        if self.value.byte % 16 == 15 {
            return Ok(null_of(type_code));
        }
        self.typed(type_code)
    }

    // What the value is read as where timestamps are read.
    #[tactic(auto, using(crate::proofs::Tests::tests), unfolding(crate::specs::Timestamps::timestamp_of, crate::specs::Timestamps::is_timestamp))]
    fn timestamp(self) -> Result<TimestampRead, Refusal>
        ensures { dated_read result ≡ timestamp_of self.entry.s.now (spans_of self.entry.value) }
    {
        let Placed { s, value } = self;
        if is_typed(value, TIMESTAMP) {
            let descriptor = value.descriptor;
            let stamp = read_body(s, value.body, value.end, descriptor)?;
            return Ok(TimestampRead::Stamped { descriptor, stamp });
        }
        let scalar = self.scalar()?;
        Ok(TimestampRead::Other { value, scalar })
    }
}

// Reads a value whose places are known.
#[tactic(auto, using(numbers::proofs::Outcomes::inside_order, numbers::proofs::Outcomes::inside_end), unfolding(crate::specs::Scalars::scalar_in))]
pub fn read_placed(s: &[u8], value: EncodedValue) -> Result<Scalar, Refusal>
    ensures { scalar_read result ≡ scalar_in s.now (spans_of value) }
{
    if outside(s, value.body, value.end) {
        return Err(OUTSIDE);
    }
    Placed { s, value }.scalar()
}

// Reads the value at `at`, and hands its spans out too.
#[tactic(auto, using(crate::proofs::Tests::tests), unfolding(crate::specs::Scalars::read_with_value))]
pub fn read_with_value(
    s: &[u8],
    start: usize,
    end: usize,
    at: usize,
    limit: usize,
) -> Result<ValueRead, Refusal>
    ensures { value_read result ≡ read_with_value limit s.now start end at }
{
    let placed = Placed::at(s, start, end, at, limit)?;
    Ok(ValueRead {
        value: placed.value,
        scalar: placed.scalar(),
    })
}

// Reads the value at `at`.
#[tactic(auto, using(crate::proofs::Tests::tests), unfolding(crate::specs::Scalars::read_scalar))]
pub fn read(s: &[u8], start: usize, end: usize, at: usize, limit: usize) -> Result<Scalar, Refusal>
    ensures { scalar_read result ≡ read_scalar limit s.now start end at }
{
    Placed::at(s, start, end, at, limit)?.scalar()
}

// Reads the value at `at`, and what it says where it is a timestamp.
#[tactic(auto, using(crate::proofs::Tests::tests), unfolding(crate::specs::Timestamps::read_timestamp))]
pub fn read_timestamp(
    s: &[u8],
    start: usize,
    end: usize,
    at: usize,
    limit: usize,
) -> Result<TimestampRead, Refusal>
    ensures { dated_read result ≡ read_timestamp limit s.now start end at }
{
    Placed::at(s, start, end, at, limit)?.timestamp()
}

// The span of a reading's part, which is empty where it has none or is refused: zeros, and no `None`, as the definition has them.
fn span_of(scalar: Result<Scalar, Refusal>) -> Span
    ensures { result ≡ span_of (scalar_read scalar) }
{
    match scalar {
        Ok(
            Scalar::Int {
                magnitude: span,
                ..
            }
            | Scalar::Decimal(span)
            | Scalar::Timestamp(span)
            | Scalar::Text(span)
            | Scalar::Clob(span)
            | Scalar::Blob(span),
        ) => span,
        Ok(_) | Err(_) => Span { start: 0, end: 0 },
    }
}

// The bytes of that reading's part of the slice: a string's, clob's, blob's, decimal's or timestamp's body, or an int's
// magnitude; none where it refuses or has no part.
#[tactic(auto, using(crate::proofs::Reading::span_order, crate::proofs::Reading::span_within, numbers::proofs::Parts::part_taken), unfolding(crate::specs::Scalars::scalar_part))]
pub fn read_part(s: &[u8], start: usize, end: usize, at: usize, limit: usize) -> &[u8]
    ensures { result.now ≡ scalar_part limit s.now start end at }
{
    let span = span_of(read(s, start, end, at, limit));
    &s[span.start..span.end]
}
