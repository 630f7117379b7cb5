// Writes nulls and scalars: a null of a type, a bool, an int, a float, a symbol, and the types that are given as bodies.
ghost use Rattle.std.specs.Prelude.{◌≡◌, [], ◌∷◌, ℕ, ◌≤◌, ◌<◌, length, MatchOption};
ghost use Rattle.checking.specs.Reading.{done};
ghost use Rattle.checking.specs.Read.{done_read};
ghost use Rattle.writing.specs.Things.{null, bool, int, float, symbol, scalar, null_byte, bool_byte, int_type, significant, written};
ghost use Rattle.writing.specs.Answers.{has_body, judged_scalar, fitted, write_of, buffer_after};
ghost use Rattle.writing.specs.Read.{written_read};

use crate::written::{Typed, refused, room_for};
use bodies::magnitude::significant;
use checking::item::read_body;
use framing::binary_buffer::bare_value;
use numbers::refusal::{OUTSIDE, Reason, Refusal};
use values::value::read_placed;

// The type codes of what is written: the document's own numbers, as callers in C have them.
const POSITIVE_INT: u8 = 2;

const NEGATIVE_INT: u8 = 3;

const FLOAT: u8 = 4;

const TIMESTAMP: u8 = 6;

const SYMBOL: u8 = 7;

// The last type that has a null.
const LAST_TYPE: usize = 13;

// The least bytes of a timestamp.
const LEAST_TIMESTAMP: usize = 2;

// Puts a thing of one byte at the buffer's start, if it fits.
#[tactic(auto, using(numbers::proofs::Passing::passed_on))]
fn put_one(to: &mut [u8], byte: u8) -> Result<usize, Refusal>
    ensures answers { written_read result ≡ fitted (length to.old) 1 done }
    ensures puts { to.new ≡ buffer_after (byte ∷ []) to.old (written_read result) }
{
    let size = room_for(to, 1)?;
    to[0] = byte;
    Ok(size)
}

// The byte of a type's null: an int's is that of the positive ones. None for a code that is no type's.
#[tactic(auto, using(std::proofs::lemmas::Bool::Decides::nat_tests), unfolding(crate::specs::Things::null_byte))]
fn null_byte(type_code: usize) -> Option<u8>
    ensures { MatchOption result (13 < type_code) (λ b. (type_code ≤ 13) × (b ≡ null_byte type_code)) }
{
    if LAST_TYPE < type_code {
        return None;
    }
    // By `as`: the code is in range, and `u8::try_from` would have a case that never comes.
    let code = type_code as u8;
    if code == NEGATIVE_INT {
        return Some(POSITIVE_INT * 16 + 15);
    }
    Some(code * 16 + 15)
}

// Writes a null of a type, by its type code.
#[tactic(auto, using(std::proofs::lemmas::Bool::Decides::nat_tests), unfolding(crate::specs::Answers::write_of))]
pub fn write_null(type_code: usize, to: &mut [u8]) -> Result<usize, Refusal>
    ensures answers { (limit deepest : ℕ) → written_read result ≡ write_of limit deepest (null type_code) (length to.old) }
    ensures puts { to.new ≡ buffer_after (written (null type_code)) to.old (written_read result) }
{
    let Some(byte) = null_byte(type_code) else {
        return Err(OUTSIDE);
    };
    put_one(to, byte)
}

// The byte of a bool.
#[tactic(auto, unfolding(crate::specs::Things::bool_byte))]
fn bool_byte(value: bool) -> u8
    ensures { result ≡ bool_byte value }
{
    16 + u8::from(value)
}

// Writes a bool.
#[tactic(auto, using(std::proofs::lemmas::Bool::Decides::nat_tests), unfolding(crate::specs::Answers::write_of))]
pub fn write_bool(value: bool, to: &mut [u8]) -> Result<usize, Refusal>
    ensures answers { (limit deepest : ℕ) → written_read result ≡ write_of limit deepest (bool value) (length to.old) }
    ensures puts { to.new ≡ buffer_after (written (bool value)) to.old (written_read result) }
{
    put_one(to, bool_byte(value))
}

// A number's bytes, the most significant first, without leading zero bytes.
#[tactic(auto, using(crate::proofs::Stages::magnitudes))]
fn without_zeros(magnitude: &[u8]) -> &[u8]
    ensures { result.now ≡ significant magnitude.now }
{
    let start = significant(magnitude, 0, magnitude.len());
    &magnitude[start..]
}

// The type code of an int of this sign.
fn int_type(negative: bool) -> u8
    ensures { result ≡ int_type negative }
{
    if negative { NEGATIVE_INT } else { POSITIVE_INT }
}

// Writes an int of this sign and magnitude, the most significant byte first, without leading zero bytes.
#[tactic(auto, using(std::proofs::lemmas::Bool::Decides::nat_tests), unfolding(crate::specs::Answers::write_of, crate::specs::Answers::judged_int))]
pub fn write_int(negative: bool, magnitude: &[u8], to: &mut [u8]) -> Result<usize, Refusal>
    ensures answers { (limit deepest : ℕ) → written_read result ≡ write_of limit deepest (int negative magnitude.now) (length to.old) }
    ensures puts { to.new ≡ buffer_after (written (int negative magnitude.now)) to.old (written_read result) }
{
    let body = without_zeros(magnitude);
    let Some(value) = Typed::new(int_type(negative), body) else {
        return refused(Reason::NoSuchLength, 0);
    };
    if negative && body.is_empty() {
        return refused(Reason::NegativeZeroInt, 0);
    }
    value.put(to)
}

// Writes the float with these bits: in eight bytes, and positive zero in none.
#[tactic(auto, using(std::proofs::lemmas::Bool::Decides::nat_tests, crate::proofs::Stages::eight_bytes, crate::proofs::Lengths::told), unfolding(crate::specs::Answers::write_of, crate::specs::Things::float_body))]
pub fn write_float(bits: u64, to: &mut [u8]) -> Result<usize, Refusal>
    ensures answers { (limit deepest : ℕ) → written_read result ≡ write_of limit deepest (float bits) (length to.old) }
    ensures puts { to.new ≡ buffer_after (written (float bits)) to.old (written_read result) }
{
    if bits == 0 {
        let zero = Typed {
            type_code: FLOAT,
            body: &[],
        };
        return zero.put(to);
    }
    let bytes = bits.to_be_bytes();
    let value = Typed {
        type_code: FLOAT,
        body: &bytes,
    };
    value.put(to)
}

// Writes a symbol by its ID, without leading zero bytes.
#[tactic(auto, using(std::proofs::lemmas::Bool::Decides::nat_tests, crate::proofs::Stages::eight_bytes, crate::proofs::Stages::significant_short, crate::proofs::Lengths::told), unfolding(crate::specs::Answers::write_of, crate::specs::Things::symbol_body))]
pub fn write_symbol(id: u64, to: &mut [u8]) -> Result<usize, Refusal>
    ensures answers { (limit deepest : ℕ) → written_read result ≡ write_of limit deepest (symbol id) (length to.old) }
    ensures puts { to.new ≡ buffer_after (written (symbol id)) to.old (written_read result) }
{
    let bytes = id.to_be_bytes();
    let value = Typed {
        type_code: SYMBOL,
        body: without_zeros(&bytes),
    };
    value.put(to)
}

// Whether a type is given as a body: a decimal, a timestamp, a string, a clob or a blob.
#[tactic(auto, unfolding(crate::specs::Answers::has_body))]
fn has_body(type_code: usize) -> bool
    ensures { result ≡ has_body type_code }
{
    matches!(type_code, 5 | 6 | 8..=10)
}

// Reads a body as the reader would.
#[tactic(auto, using(std::proofs::lemmas::Bool::Decides::nat_tests, crate::proofs::Stages::placed), unfolding(crate::specs::Answers::judged_scalar, framing::specs::Answers::short_timestamp, checking::specs::Reading::read_content))]
fn judge_scalar(value: Typed) -> Result<(), Refusal>
    ensures { done_read result ≡ judged_scalar value.entry.type_code value.entry.body.now }
{
    let Typed { type_code, body } = value;
    if type_code == TIMESTAMP && body.len() < LEAST_TIMESTAMP {
        return refused(Reason::TimestampTooShort, 0);
    }
    let value = bare_value(type_code * 16, 0, 0, body.len());
    read_body(body, 0, read_placed(body, value))
}

// Writes a decimal, a timestamp, a string, a clob or a blob, by its type code and its representation.
#[tactic(auto, using(std::proofs::lemmas::Bool::Decides::nat_tests, numbers::proofs::Passing::passed_on), unfolding(crate::specs::Answers::write_of, crate::specs::Answers::has_body))]
pub fn write_scalar(type_code: usize, body: &[u8], to: &mut [u8]) -> Result<usize, Refusal>
    ensures answers { (limit deepest : ℕ) → written_read result ≡ write_of limit deepest (scalar type_code body.now) (length to.old) }
    ensures puts { to.new ≡ buffer_after (written (scalar type_code body.now)) to.old (written_read result) }
{
    if !has_body(type_code) {
        return Err(OUTSIDE);
    }
    // By `as`: the code is in range, and `u8::try_from` would have a refusal that never comes.
    let Some(value) = Typed::new(type_code as u8, body) else {
        return refused(Reason::NoSuchLength, 0);
    };
    judge_scalar(value)?;
    value.put(to)
}
