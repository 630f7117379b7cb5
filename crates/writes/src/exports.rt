// The exported functions that write values. `to` is the lent buffer for what is written, `out` that for the answer's record; they and the lent bytes do not
// overlap. The parameters, among them flags and a type code as numbers, and the numbers returned are C's.
ghost use Rattle.std.specs.Prelude.{◌≡◌, ℕ, length, eqb};
ghost use Rattle.std.specs.Fn.{FnOnceReturnsAtMut};
ghost use Rattle.writing.specs.Things.{null, bool, int, float, symbol, scalar, pad, container, wrapper, written};
ghost use Rattle.writing.specs.Answers.{write_of, limited_write, buffer_after};
ghost use Rattle.writing.specs.Read.{written_read};
ghost use Rattle.writes.specs.Writes.{flagged, flag_read, flag_of, Wrote};

use numbers::refusal::{OUTSIDE, Reason, Refusal};
use records::buffer::{RECORD_SIZE, put_record};
use records::kind::RecordKind;
use records::words::bytes_words;
use writing::container::write_container;
use writing::pad::write_pad;
use writing::scalar::{write_bool, write_float, write_int, write_null, write_scalar, write_symbol};
use writing::wrapper::write_wrapper;

// Writes into `to`, puts the answer's record into `out`, and returns its number. Where `out` has no room for the record, nothing is written: the test stands
// here as it does in `ion_map_pack`, since one function for both would be public in `records`, and ask its callers that their closure can be called.
fn put_written<F: FnOnce(&mut [u8]) -> Result<usize, Refusal>>(
    to: &mut [u8],
    out: &mut [u8],
    write: F,
) -> u64
    requires { F.IsAlwaysCallable write }
    ensures { (o : _) (bytes : _) → ((answer : _) (left : _) → FnOnceReturnsAtMut F.FnOnce write to.old answer left → (written_read answer ≡ o) × (left ≡ buffer_after bytes to.old o)) → Wrote o bytes to.old to.new out.old out.new result }
{
    if out.len() < RECORD_SIZE {
        return Reason::RecordTooShort.number();
    }
    put_record(out, bytes_words(RecordKind::Written, write(to)))
}

// A flag: 0 or 1. By a match: std has no `TryFrom` of a number for a bool.
fn flag(value: u64) -> Result<bool, Refusal>
    ensures { flag_read result ≡ flag_of value }
{
    match value {
        0 => Ok(false),
        1 => Ok(true),
        _ => Err(OUTSIDE),
    }
}

// Writes a null of a type, by its type code: 0 to 13.
pub fn ion_map_write_null(type_code: usize, to: &mut [u8], out: &mut [u8]) -> u64
    ensures { (limit deepest : ℕ) → Wrote (write_of limit deepest (null type_code) (length to.old)) (written (null type_code)) to.old to.new out.old out.new result }
{
    put_written(to, out, |to| write_null(type_code, to))
}

// Writes a bool: 0 or 1.
pub fn ion_map_write_bool(value: u64, to: &mut [u8], out: &mut [u8]) -> u64
    ensures { (limit deepest : ℕ) → Wrote (flagged value (write_of limit deepest (bool (eqb value 1)) (length to.old))) (written (bool (eqb value 1))) to.old to.new out.old out.new result }
{
    put_written(to, out, |to| write_bool(flag(value)?, to))
}

// Writes an int of this magnitude, the most significant byte first; it is negative where the flag is 1.
pub fn ion_map_write_int(magnitude: &[u8], negative: u64, to: &mut [u8], out: &mut [u8]) -> u64
    ensures { (limit deepest : ℕ) → Wrote (flagged negative (write_of limit deepest (int (eqb negative 1) magnitude.now) (length to.old))) (written (int (eqb negative 1) magnitude.now)) to.old to.new out.old out.new result }
{
    put_written(to, out, |to| write_int(flag(negative)?, magnitude, to))
}

// Writes the float with these 64 bits.
pub fn ion_map_write_float(bits: u64, to: &mut [u8], out: &mut [u8]) -> u64
    ensures { (limit deepest : ℕ) → Wrote (write_of limit deepest (float bits) (length to.old)) (written (float bits)) to.old to.new out.old out.new result }
{
    put_written(to, out, |to| write_float(bits, to))
}

// Writes a symbol by its ID.
pub fn ion_map_write_symbol(id: u64, to: &mut [u8], out: &mut [u8]) -> u64
    ensures { (limit deepest : ℕ) → Wrote (write_of limit deepest (symbol id) (length to.old)) (written (symbol id)) to.old to.new out.old out.new result }
{
    put_written(to, out, |to| write_symbol(id, to))
}

// Writes a pad of this total size.
pub fn ion_map_write_pad(size: usize, to: &mut [u8], out: &mut [u8]) -> u64
    ensures { (limit deepest : ℕ) → Wrote (write_of limit deepest (pad size) (length to.old)) (written (pad size)) to.old to.new out.old out.new result }
{
    put_written(to, out, |to| write_pad(size, to))
}

// Writes a decimal, a timestamp, a string, a clob or a blob, by its type code (5, 6, 8, 9, 10) and its representation.
pub fn ion_map_write_scalar(type_code: usize, body: &[u8], to: &mut [u8], out: &mut [u8]) -> u64
    ensures { (limit deepest : ℕ) → Wrote (write_of limit deepest (scalar type_code body.now) (length to.old)) (written (scalar type_code body.now)) to.old to.new out.old out.new result }
{
    put_written(to, out, |to| write_scalar(type_code, body, to))
}

// Writes a list, a sexp or an unordered struct, by its type code (11, 12, 13) and its body. `limit` is the most bytes that a value's annotations may have,
// `deepest` the depth at which a container is too deep.
pub fn ion_map_write_container(
    type_code: usize,
    body: &[u8],
    limit: usize,
    deepest: usize,
    to: &mut [u8],
    out: &mut [u8],
) -> u64
    ensures { Wrote (limited_write limit deepest (container type_code body.now) (length to.old)) (written (container type_code body.now)) to.old to.new out.old out.new result }
{
    put_written(
        to,
        out,
        |to| write_container(type_code, body, limit, deepest, to),
    )
}

// Writes a wrapper of these annotation bytes around a value, with the same limits.
pub fn ion_map_write_wrapper(
    annotations: &[u8],
    value: &[u8],
    limit: usize,
    deepest: usize,
    to: &mut [u8],
    out: &mut [u8],
) -> u64
    ensures { Wrote (limited_write limit deepest (wrapper annotations.now value.now) (length to.old)) (written (wrapper annotations.now value.now)) to.old to.new out.old out.new result }
{
    put_written(
        to,
        out,
        |to| write_wrapper(annotations, value, limit, deepest, to),
    )
}
