// A value's place in the slice, and its length.
ghost use Rattle.std.specs.Prelude.{◌≡◌, ◌≤◌, ◌<◌, length, IfOk};
ghost use Rattle.framing.specs.Answers.{length_at, value_code, bad_float, short_timestamp, empty_ordered, length_tests, value_length};
ghost use Rattle.framing.specs.Read.{sized_of, length_read};
ghost use Rattle.framing.specs.Private.InlineLengths.{has_inline_length, inline_length, inline_codes, is_ordered, has_length_field, too_short};

use crate::described::Described;
use numbers::binary_buffer::read_var_uint;
use numbers::refusal::{Reason, Refusal};
use numbers::type_descriptor::TypeDescriptor;

#[derive(Clone, Copy, Debug, PartialEq, Eq)]
pub struct EncodedValue {
    // Where the value with its wrapper starts.
    pub start: usize,
    // Where its annotations start; the descriptor's position where it has none.
    pub annotations: usize,
    // The descriptor's position, which is the annotations' end.
    pub descriptor: usize,
    // Its body: body..end.
    pub body: usize,
    pub end: usize,
    // The value's own descriptor byte, not its wrapper's.
    pub byte: u8,
}

// A value's length, and where its body starts.
#[derive(Clone, Copy, Debug, PartialEq, Eq)]
pub struct Length {
    pub body: usize,
    pub size: usize,
}

// A pad: its body, and where it ends.
#[derive(Clone, Copy, Debug, PartialEq, Eq)]
pub struct NopPad {
    pub body: usize,
    pub end: usize,
}

// A wrapper: where its annotations start, where its value stands, and how long that is to be.
#[derive(Clone, Copy, Debug, PartialEq, Eq)]
pub struct AnnotationsWrapper {
    pub annotations: usize,
    pub value: usize,
    pub expected: usize,
}

// What a step meets: a pad or a value.
#[derive(Clone, Copy, Debug, PartialEq, Eq)]
pub enum Frame {
    Pad(NopPad),
    Value(EncodedValue),
}

// For each type code, the length codes that tell a value's length by themselves: a bit for each code, the lowest for 0. A match on both codes was
// tried, and takes a tenth more instructions for each value that `short_value` answers.
const INLINE_LENGTHS: [u16; 16] = [
    0x8000, 0xFFFF, 0xBFFF, 0xBFFF, 0x8111, 0xBFFF, 0xBFFC, 0xBFFF, 0xBFFF, 0xBFFF, 0xBFFF, 0xBFFF,
    0xBFFF, 0xBFFD, 0, 0,
];

// The types whose values have a VarUInt for their length with length code 14: a bit for each type code, the lowest for 0. A float has none. By comparisons, such a
// value takes five instructions more.
const TYPES_WITH_LENGTH_FIELD: u16 = 0x3FEC;

// The length that a length code tells; its VarUInt, if it has one, is at `at`.
#[inline(always)]
#[tactic(auto, using(std::proofs::lemmas::Bool::Decides::nat_tests), unfolding(crate::specs::Answers::length_at))]
pub(crate) fn read_length(s: &[u8], at: usize, end: usize, code: u8) -> Result<Length, Refusal>
    ensures answers { length_read result ≡ length_at s.now at end code }
    ensures in_part { at ≤ end → IfOk result (λ l. (at ≤ l.body) × (l.body ≤ end)) }
{
    if code == 15 {
        return Ok(Length { body: at, size: 0 });
    }
    if code != 14 {
        return Ok(Length {
            body: at,
            size: usize::from(code),
        });
    }
    let number = read_var_uint(s, at, end)?;
    Ok(Length {
        body: number.next,
        size: number.value,
    })
}

// The length codes of a type that tell a value's length.
fn inline_codes(type_code: u8) -> u16
    requires { type_code < 16 }
    ensures { result ≡ inline_codes type_code }
{
    INLINE_LENGTHS[usize::from(type_code)]
}

// Whether a value's descriptor tells its length: no VarUInt says it, and no test of it fails.
pub(crate) fn has_inline_length(descriptor: TypeDescriptor) -> bool
    ensures { result ≡ has_inline_length descriptor.type_code descriptor.length_code }
{
    if 15 < descriptor.type_code || 15 < descriptor.length_code {
        return false;
    }
    (inline_codes(descriptor.type_code) >> descriptor.length_code) % 2 == 1
}

// The length that such a descriptor tells.
#[tactic(auto, using(std::proofs::lemmas::Bool::Decides::nat_tests), unfolding(crate::specs::Private::InlineLengths::inline_length))]
pub(crate) fn inline_length(descriptor: TypeDescriptor) -> usize
    ensures { result ≡ inline_length descriptor.type_code descriptor.length_code }
{
    if descriptor.type_code < 2 || descriptor.length_code == 15 {
        return 0;
    }
    usize::from(descriptor.length_code)
}

#[tactic(auto, using(std::proofs::lemmas::Bool::Decides::nat_tests), unfolding(crate::specs::Private::InlineLengths::is_ordered))]
fn is_ordered(descriptor: TypeDescriptor) -> bool
    ensures { result ≡ is_ordered descriptor.type_code descriptor.length_code }
{
    descriptor.type_code == 13 && descriptor.length_code == 1
}

// The length code that a value is read by: none for null and bool, and a VarUInt for an ordered struct.
#[tactic(auto, using(std::proofs::lemmas::Bool::Decides::nat_tests), unfolding(crate::specs::Answers::value_code, crate::specs::Private::InlineLengths::is_ordered))]
fn value_code(descriptor: TypeDescriptor) -> u8
    ensures { result ≡ value_code descriptor.type_code descriptor.length_code }
{
    if descriptor.type_code < 2 {
        return 0;
    }
    if is_ordered(descriptor) {
        return 14;
    }
    descriptor.length_code
}

#[tactic(auto, using(std::proofs::lemmas::Bool::Decides::nat_tests), unfolding(crate::specs::Answers::bad_float))]
fn bad_float(descriptor: TypeDescriptor) -> bool
    ensures { result ≡ bad_float descriptor.type_code descriptor.length_code }
{
    descriptor.type_code == 4 && !matches!(descriptor.length_code, 0 | 4 | 8 | 15)
}

// Whether a VarUInt says the length of a value with this descriptor.
pub(crate) fn has_length_field(descriptor: TypeDescriptor) -> bool
    ensures { result ≡ has_length_field descriptor.type_code descriptor.length_code }
{
    if descriptor.length_code != 14 {
        return is_ordered(descriptor);
    }
    if 15 < descriptor.type_code {
        return false;
    }
    (TYPES_WITH_LENGTH_FIELD >> descriptor.type_code) % 2 == 1
}

#[tactic(auto, using(std::proofs::lemmas::Bool::Decides::nat_tests), unfolding(crate::specs::Answers::short_timestamp))]
fn short_timestamp(descriptor: TypeDescriptor, size: usize) -> bool
    ensures { result ≡ short_timestamp descriptor.type_code descriptor.length_code size }
{
    descriptor.type_code == 6 && descriptor.length_code != 15 && size < 2
}

#[tactic(auto, using(std::proofs::lemmas::Bool::Decides::nat_tests), unfolding(crate::specs::Answers::empty_ordered, crate::specs::Private::InlineLengths::is_ordered))]
fn empty_ordered(descriptor: TypeDescriptor, size: usize) -> bool
    ensures { result ≡ empty_ordered descriptor.type_code descriptor.length_code size }
{
    is_ordered(descriptor) && size == 0
}

// Whether a timestamp or an ordered struct is too short: no other value can be.
#[tactic(auto, using(std::proofs::lemmas::Bool::Decides::nat_tests), unfolding(crate::specs::Private::InlineLengths::too_short, crate::specs::Answers::short_timestamp, crate::specs::Answers::empty_ordered))]
pub(crate) fn too_short(descriptor: TypeDescriptor, size: usize) -> bool
    ensures { result ≡ too_short descriptor.type_code descriptor.length_code size }
{
    size < 2 && (short_timestamp(descriptor, size) || empty_ordered(descriptor, size))
}

// Tests the length of the value with this descriptor at `at`.
#[inline(always)]
#[tactic(auto, using(std::proofs::lemmas::Bool::Decides::nat_tests), unfolding(crate::specs::Answers::length_tests))]
fn check_length(at: usize, descriptor: TypeDescriptor, length: Length) -> Result<Length, Refusal>
    ensures { length_read result ≡ length_tests at descriptor.type_code descriptor.length_code (sized_of length) }
{
    if bad_float(descriptor) {
        return Err(Refusal {
            reason: Reason::BadFloatLength,
            position: at,
        });
    }
    if short_timestamp(descriptor, length.size) {
        return Err(Refusal {
            reason: Reason::TimestampTooShort,
            position: at,
        });
    }
    if empty_ordered(descriptor, length.size) {
        return Err(Refusal {
            reason: Reason::EmptyOrderedStruct,
            position: at,
        });
    }
    Ok(length)
}

// The length of the value that begins here.
#[inline(always)]
#[tactic(auto, using(std::proofs::lemmas::Bool::Decides::nat_tests), unfolding(crate::specs::Answers::value_length))]
pub(crate) fn value_length(place: Described) -> Result<Length, Refusal>
    ensures { length_read result ≡ value_length place.entry.s.now place.entry.at place.entry.end place.entry.descriptor }
{
    let after = place.at + 1;
    let descriptor = place.descriptor;
    if has_inline_length(descriptor) {
        let size = inline_length(descriptor);
        return Ok(Length { body: after, size });
    }
    let code = value_code(descriptor);
    let length = read_length(place.s, after, place.end, code)?;
    check_length(place.at, descriptor, length)
}
