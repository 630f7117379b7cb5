// The functions that write values, as other languages call them: those of the crate `writes`, each under its clauses. The parameters are C's.
#![tactic(auto)]

ghost use Rattle.std.specs.Prelude.{ℕ, length, eqb};
ghost use Rattle.writing.specs.Things.{null, bool, int, float, symbol, scalar, pad, container, wrapper, written};
ghost use Rattle.writing.specs.Answers.{write_of, limited_write};
ghost use Rattle.writes.specs.Writes.{flagged, Wrote};

// Writes a null of a type, by its type code: 0 to 13.
#[unsafe(no_mangle)]
pub extern "C" fn ion_map_write_null(type_code: usize, to: &mut [u8], out: &mut [u8]) -> u64
    ensures { (limit deepest : ℕ) → Wrote (write_of limit deepest (null type_code) (length to.old)) (written (null type_code)) to.old to.new out.old out.new result }
{
    writes::exports::ion_map_write_null(type_code, to, out)
}

// Writes a bool: 0 or 1.
#[unsafe(no_mangle)]
pub extern "C" fn ion_map_write_bool(value: u64, to: &mut [u8], out: &mut [u8]) -> u64
    ensures { (limit deepest : ℕ) → Wrote (flagged value (write_of limit deepest (bool (eqb value 1)) (length to.old))) (written (bool (eqb value 1))) to.old to.new out.old out.new result }
{
    writes::exports::ion_map_write_bool(value, to, out)
}

// Writes an int of this magnitude, the most significant byte first; it is negative where the flag is 1.
#[unsafe(no_mangle)]
pub extern "C" fn ion_map_write_int(
    magnitude: &[u8],
    negative: u64,
    to: &mut [u8],
    out: &mut [u8],
) -> u64
    ensures { (limit deepest : ℕ) → Wrote (flagged negative (write_of limit deepest (int (eqb negative 1) magnitude.now) (length to.old))) (written (int (eqb negative 1) magnitude.now)) to.old to.new out.old out.new result }
{
    writes::exports::ion_map_write_int(magnitude, negative, to, out)
}

// Writes the float with these 64 bits.
#[unsafe(no_mangle)]
pub extern "C" fn ion_map_write_float(bits: u64, to: &mut [u8], out: &mut [u8]) -> u64
    ensures { (limit deepest : ℕ) → Wrote (write_of limit deepest (float bits) (length to.old)) (written (float bits)) to.old to.new out.old out.new result }
{
    writes::exports::ion_map_write_float(bits, to, out)
}

// Writes a symbol by its ID.
#[unsafe(no_mangle)]
pub extern "C" fn ion_map_write_symbol(id: u64, to: &mut [u8], out: &mut [u8]) -> u64
    ensures { (limit deepest : ℕ) → Wrote (write_of limit deepest (symbol id) (length to.old)) (written (symbol id)) to.old to.new out.old out.new result }
{
    writes::exports::ion_map_write_symbol(id, to, out)
}

// Writes a pad of this total size.
#[unsafe(no_mangle)]
pub extern "C" fn ion_map_write_pad(size: usize, to: &mut [u8], out: &mut [u8]) -> u64
    ensures { (limit deepest : ℕ) → Wrote (write_of limit deepest (pad size) (length to.old)) (written (pad size)) to.old to.new out.old out.new result }
{
    writes::exports::ion_map_write_pad(size, to, out)
}

// Writes a decimal, a timestamp, a string, a clob or a blob, by its type code (5, 6, 8, 9, 10) and its representation.
#[unsafe(no_mangle)]
pub extern "C" fn ion_map_write_scalar(
    type_code: usize,
    body: &[u8],
    to: &mut [u8],
    out: &mut [u8],
) -> u64
    ensures { (limit deepest : ℕ) → Wrote (write_of limit deepest (scalar type_code body.now) (length to.old)) (written (scalar type_code body.now)) to.old to.new out.old out.new result }
{
    writes::exports::ion_map_write_scalar(type_code, body, to, out)
}

// Writes a list, a sexp or an unordered struct, by its type code (11, 12, 13) and its body. `limit` is the most bytes that a value's annotations may have,
// `deepest` the depth at which a container is too deep.
#[unsafe(no_mangle)]
pub extern "C" fn ion_map_write_container(
    type_code: usize,
    body: &[u8],
    limit: usize,
    deepest: usize,
    to: &mut [u8],
    out: &mut [u8],
) -> u64
    ensures { Wrote (limited_write limit deepest (container type_code body.now) (length to.old)) (written (container type_code body.now)) to.old to.new out.old out.new result }
{
    writes::exports::ion_map_write_container(type_code, body, limit, deepest, to, out)
}

// Writes a wrapper of these annotation bytes around a value, with the same limits.
#[unsafe(no_mangle)]
pub extern "C" fn ion_map_write_wrapper(
    annotations: &[u8],
    value: &[u8],
    limit: usize,
    deepest: usize,
    to: &mut [u8],
    out: &mut [u8],
) -> u64
    ensures { Wrote (limited_write limit deepest (wrapper annotations.now value.now) (length to.old)) (written (wrapper annotations.now value.now)) to.old to.new out.old out.new result }
{
    writes::exports::ion_map_write_wrapper(annotations, value, limit, deepest, to, out)
}
