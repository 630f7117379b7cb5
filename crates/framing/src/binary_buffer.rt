// Frames what stands at a position: values, pads and annotation wrappers.
//
// Each function reads the part at..end of `s`, whose first byte is the descriptor; `limit` is the most bytes that a value's annotations may have. The public ones
// take these as parameters and no struct of them, since the layers above hand them on as C gave them; behind the first look they are in a `Described`.
// What frames an item stands in its callers' place: without a call in it a step needs no frame on the stack, and a check or a pack takes a tenth less.
ghost use Rattle.std.specs.Prelude.{◌≡◌, ℕ, ◌+◌, ◌≤◌, ◌<◌, length, get_or, IfOk};
ghost use Rattle.framing.specs.Answers.{peeked_descriptor, is_pad, is_wrapper, no_value, pad_at, value_at, frame_at, read_value, read_frame, read_value_length, read_pad, read_wrapper};
ghost use Rattle.framing.specs.Limits.{limited};
ghost use Rattle.framing.specs.ShortValue.{bare_spans, short_value_of, begins_value};
ghost use Rattle.framing.specs.Read.{sized_of, length_read, pad_read, wrapper_read, framed_read, frame_read, spans_of, short_value_read};
ghost use Rattle.framing.specs.Private.Peeked.{peeked_read};
ghost use Rattle.framing.specs.Private.Located.{location_of, differs_from, fitted, located_value};
ghost use Rattle.framing.specs.Private.ShortLength.{ShortLengthAt};

use crate::annotations_wrapper::{Located, locate_value, read_wrapper};
use crate::described::Described;
use crate::encoded_value::{
    AnnotationsWrapper, EncodedValue, Frame, Length, NopPad, has_inline_length, has_length_field,
    inline_length, read_length, too_short, value_length,
};
use crate::limits::out_of_range;
use numbers::binary_buffer::{outside, short_var_uint};
use numbers::refusal::{LIMIT_OUT_OF_RANGE, OUTSIDE, Reason, Refusal};
use numbers::type_descriptor::{FIRST_NO_PAD, Kind, TypeDescriptor};

// The first byte past those that begin a value or a null.
const FIRST_WRAPPER: u8 = 0xE0;

// Tests of a kind, under the names that the contracts have for them.
pub(crate) fn is_pad(kind: Kind) -> bool
    ensures { result ≡ is_pad kind }
{
    matches!(kind, Kind::Pad)
}

pub(crate) fn is_wrapper(kind: Kind) -> bool
    ensures { result ≡ is_wrapper kind }
{
    matches!(kind, Kind::Wrapper)
}

// Whether a descriptor begins no value.
pub(crate) fn no_value(kind: Kind) -> bool
    ensures { result ≡ no_value kind }
{
    !matches!(kind, Kind::Value | Kind::Null)
}

// Looks at the descriptor at `at`.
#[inline(always)]
#[tactic(auto, using(std::proofs::lemmas::Bool::Decides::nat_tests), unfolding(crate::specs::Answers::peeked_descriptor))]
pub(crate) fn peek_type_descriptor(
    s: &[u8],
    at: usize,
    end: usize,
) -> Result<Described<'_>, Refusal>
    ensures answers { peeked_read result ≡ peeked_descriptor s.now at end }
    ensures there { IfOk result (λ d. (d.s.now ≡ s.now) × (d.at ≡ at) × (d.end ≡ end)) }
{
    if outside(s, at, end) {
        return Err(OUTSIDE);
    }
    if at == end {
        return Err(Refusal {
            reason: Reason::NoValueLeft,
            position: end,
        });
    }
    Ok(Described {
        s,
        at,
        end,
        descriptor: TypeDescriptor::from_byte(s[at]),
    })
}

// The pad that begins here.
#[inline(always)]
#[tactic(auto, using(std::proofs::lemmas::Bool::Decides::nat_tests), unfolding(crate::specs::Answers::pad_at, crate::specs::Answers::padded))]
fn read_pad(place: Described) -> Result<NopPad, Refusal>
    ensures { pad_read result ≡ pad_at place.entry.s.now place.entry.at place.entry.end place.entry.descriptor }
{
    let Length { body, size } = read_length(
        place.s,
        place.at + 1,
        place.end,
        place.descriptor.length_code,
    )?;
    if place.end - body < size {
        return Err(Refusal {
            reason: Reason::PadCut,
            position: body,
        });
    }
    let past = body + size;
    Ok(NopPad { body, end: past })
}

// Whether a value's length differs from what its wrapper says, if it has one.
#[tactic(auto, using(std::proofs::lemmas::Bool::Decides::nat_tests), unfolding(crate::specs::Private::Located::differs_from))]
fn differs(expected: usize, size: usize) -> bool
    ensures { result ≡ differs_from expected size }
{
    expected != 0 && size != expected
}

// The value that is located here, in the item at `at`, where it has this first byte and is to have this length.
#[inline(always)]
#[tactic(auto, using(std::proofs::lemmas::Bool::Decides::nat_tests), unfolding(crate::specs::Private::Located::fitted))]
fn fit_value(at: usize, found: Located, byte: u8, size: Length) -> Result<EncodedValue, Refusal>
    requires { (found.value.at ≤ size.body) × (size.body ≤ found.value.end) }
    ensures { framed_read result ≡ fitted at found.entry.value.end found.entry.annotations found.entry.value.at found.entry.expected byte (sized_of size) }
{
    let value = found.value;
    if value.end - size.body < size.size {
        return Err(Refusal {
            reason: Reason::ValueCut,
            position: value.at,
        });
    }
    let after = size.body + size.size;
    if differs(found.expected, after - value.at) {
        return Err(Refusal {
            reason: Reason::WrappedLengthDiffers,
            position: at,
        });
    }
    Ok(EncodedValue {
        start: at,
        annotations: found.annotations,
        descriptor: value.at,
        body: size.body,
        end: after,
        byte,
    })
}

// The value that is located here, in the item at `at`.
#[inline(always)]
#[tactic(auto, using(std::proofs::lemmas::Bool::Decides::nat_tests), unfolding(crate::specs::Private::Located::located_value))]
fn read_located_value(at: usize, located: Located) -> Result<EncodedValue, Refusal>
    ensures { framed_read result ≡ located_value located.entry.value.s.now at located.entry.value.end (location_of located.entry) }
{
    let byte = located.value.s[located.value.at];
    let size = value_length(located.value)?;
    fit_value(at, located, byte, size)
}

// The value that begins here, with or without a wrapper.
#[inline(always)]
#[tactic(auto, using(std::proofs::lemmas::Bool::Decides::nat_tests, crate::proofs::Location::value_located))]
fn read_value_at(place: Described, limit: usize) -> Result<EncodedValue, Refusal>
    ensures { framed_read result ≡ value_at limit place.entry.s.now place.entry.at place.entry.end place.entry.descriptor }
{
    let located = locate_value(place, limit)?;
    read_located_value(place.at, located)
}

// The pad or the value that begins here.
#[inline(always)]
#[tactic(auto, using(std::proofs::lemmas::Bool::Decides::nat_tests), unfolding(crate::specs::Answers::frame_at))]
fn read_frame_at(place: Described, limit: usize) -> Result<Frame, Refusal>
    ensures { frame_read result ≡ frame_at limit place.entry.s.now place.entry.at place.entry.end place.entry.descriptor }
{
    if is_pad(place.descriptor.kind) {
        let pad = read_pad(place)?;
        return Ok(Frame::Pad(pad));
    }
    let value = read_value_at(place, limit)?;
    Ok(Frame::Value(value))
}

// The value at `at`, with or without a wrapper.
#[tactic(auto, using(std::proofs::lemmas::Bool::Decides::nat_tests), unfolding(crate::specs::Answers::read_value))]
pub fn read_value(s: &[u8], at: usize, end: usize, limit: usize) -> Result<EncodedValue, Refusal>
    ensures { framed_read result ≡ limited limit (read_value limit s.now at end) }
{
    if out_of_range(limit) {
        return Err(LIMIT_OUT_OF_RANGE);
    }
    let place = peek_type_descriptor(s, at, end)?;
    read_value_at(place, limit)
}

// Whether a byte begins a value or a null, without a wrapper. By two comparisons, and not by `no_value`: its kind would be made for it.
#[tactic(auto, using(std::proofs::lemmas::Bool::Decides::nat_tests), unfolding(crate::specs::ShortValue::begins_value, numbers::specs::Descriptor::kind_of))]
fn begins_value(byte: u8) -> bool
    ensures { result ≡ begins_value byte }
{
    FIRST_NO_PAD <= byte && byte < FIRST_WRAPPER
}

// The value without a wrapper whose descriptor is this byte at `at`, with the body body..end.
pub fn bare_value(byte: u8, at: usize, body: usize, end: usize) -> EncodedValue
    ensures { spans_of result ≡ bare_spans byte at body end }
{
    EncodedValue {
        start: at,
        annotations: at,
        descriptor: at,
        body,
        end,
        byte,
    }
}

// The length of the value at `at`, where it has no wrapper and a length field of three bytes at most: its descriptor tells it, or a short VarUInt does.
// Of a part, and of no `Described`, whose descriptor is made here, once its byte is known to begin a value.
fn short_length(s: &[u8], at: usize, end: usize) -> Option<Length>
    requires { (at < end) × (end ≤ length s.now) }
    ensures { ShortLengthAt s.now at end result }
{
    let descriptor = TypeDescriptor::from_byte(s[at]);
    let after = at + 1;
    if has_inline_length(descriptor) {
        let size = inline_length(descriptor);
        return Some(Length { body: after, size });
    }
    if !has_length_field(descriptor) {
        return None;
    }
    let number = short_var_uint(s, after, end)?;
    if too_short(descriptor, number.value) {
        return None;
    }
    Some(Length {
        body: number.next,
        size: number.value,
    })
}

// The length of the value at `at`, where it has no wrapper and its length field has three bytes at most: most values are such. Nothing is said of another.
pub fn short_value(s: &[u8], at: usize, end: usize) -> Option<Length>
    ensures { (limit : ℕ) → short_value_read (get_or s.now at 0) at result ≡ short_value_of at (read_value limit s.now at end) }
{
    if s.len() < end || end <= at {
        return None;
    }
    if !begins_value(s[at]) {
        return None;
    }
    let size = short_length(s, at, end)?;
    if end - size.body < size.size {
        return None;
    }
    Some(size)
}

// The pad or the value at `at`.
#[inline(always)]
#[tactic(auto, using(std::proofs::lemmas::Bool::Decides::nat_tests), unfolding(crate::specs::Answers::read_frame))]
pub fn read_frame(s: &[u8], at: usize, end: usize, limit: usize) -> Result<Frame, Refusal>
    ensures { frame_read result ≡ limited limit (read_frame limit s.now at end) }
{
    if out_of_range(limit) {
        return Err(LIMIT_OUT_OF_RANGE);
    }
    let place = peek_type_descriptor(s, at, end)?;
    read_frame_at(place, limit)
}

// The length of the value at `at` without annotations.
#[tactic(auto, using(std::proofs::lemmas::Bool::Decides::nat_tests), unfolding(crate::specs::Answers::read_value_length, crate::specs::Answers::length_or_none))]
pub fn read_value_length(s: &[u8], at: usize, end: usize) -> Result<Length, Refusal>
    ensures { length_read result ≡ read_value_length s.now at end }
{
    let place = peek_type_descriptor(s, at, end)?;
    if no_value(place.descriptor.kind) {
        return Err(Refusal {
            reason: Reason::NotAValue,
            position: at,
        });
    }
    value_length(place)
}

// The pad at `at`.
#[tactic(auto, using(std::proofs::lemmas::Bool::Decides::nat_tests), unfolding(crate::specs::Answers::read_pad, crate::specs::Answers::pad_or_none))]
pub fn read_nop_pad(s: &[u8], at: usize, end: usize) -> Result<NopPad, Refusal>
    ensures { pad_read result ≡ read_pad s.now at end }
{
    let place = peek_type_descriptor(s, at, end)?;
    if !is_pad(place.descriptor.kind) {
        return Err(Refusal {
            reason: Reason::NotAValue,
            position: at,
        });
    }
    read_pad(place)
}

// The wrapper at `at`.
#[tactic(auto, using(std::proofs::lemmas::Bool::Decides::nat_tests), unfolding(crate::specs::Answers::read_wrapper, crate::specs::Answers::wrapper_or_none))]
pub fn read_annotations_wrapper(
    s: &[u8],
    at: usize,
    end: usize,
    limit: usize,
) -> Result<AnnotationsWrapper, Refusal>
    ensures { wrapper_read result ≡ limited limit (read_wrapper limit s.now at end) }
{
    if out_of_range(limit) {
        return Err(LIMIT_OUT_OF_RANGE);
    }
    let place = peek_type_descriptor(s, at, end)?;
    if !is_wrapper(place.descriptor.kind) {
        return Err(Refusal {
            reason: Reason::NotAValue,
            position: at,
        });
    }
    read_wrapper(place, limit)
}
