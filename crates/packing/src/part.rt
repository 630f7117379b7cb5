// A part of a map that is packed, and a value that is met in it.
//
// `limit` is the most bytes that a value's annotations may have.
ghost use Rattle.std.specs.Prelude.{◌-◌, ◌≤◌, ◌<◌, length};
ghost use Rattle.framing.specs.Read.{spans_of};
ghost use Rattle.packing.specs.Private.Bytes.{value_bytes};

use framing::encoded_value::EncodedValue;
use stepping::cursor::Rules;

// The part at..end, by its rules.
#[derive(Clone, Copy)]
pub(crate) struct Part<'a> {
    pub(crate) s: &'a [u8],
    pub(crate) limit: usize,
    pub(crate) rules: Rules,
    pub(crate) at: usize,
    pub(crate) end: usize,
}

// A value that is met, and where it begins with its field ID, which it has in a struct. Packed it is no longer than it is.
#[derive(Clone, Copy)]
pub(crate) struct Entry<'a> {
    pub(crate) s: &'a [u8],
    pub(crate) limit: usize,
    pub(crate) from: usize,
    pub(crate) value: EncodedValue,
    pub(crate) ghost named: { from ≤ value.start },
    pub(crate) ghost started: { value.start ≤ value.annotations },
    pub(crate) ghost annotated: { value.annotations ≤ value.descriptor },
    pub(crate) ghost bodied: { value.descriptor < value.body },
    pub(crate) ghost ended: { value.body ≤ value.end },
    pub(crate) ghost in_map: { value.end ≤ length s.now },
    pub(crate) ghost short: { length (value_bytes limit s.now from (spans_of value)) ≤ value.end - from },
}

// What a step meets.
#[derive(Clone, Copy)]
pub(crate) enum Met<'a> {
    Marker { major: u8, minor: u8, end: usize },
    Value(Entry<'a>),
}
