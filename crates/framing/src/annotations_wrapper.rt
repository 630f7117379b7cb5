// Annotation wrappers: where the annotations of a value start, and where the value stands.
//
// Each function reads the part at..end of `s`; `limit` is the most bytes that a value's annotations may have.
ghost use Rattle.std.specs.Prelude.{◌≡◌, ◌+◌, ◌≤◌, ◌<◌, ◌^◌, length, IfOk};
ghost use Rattle.numbers.specs.Answers.{most_bytes};
ghost use Rattle.numbers.specs.Read.{unsigned_read};
ghost use Rattle.framing.specs.Answers.{wrapper_tests, wrapper_at};
ghost use Rattle.framing.specs.Read.{sized_of, wrapping_of, wrapper_read};
ghost use Rattle.framing.specs.Private.Located.{located_read, inner_at, location_in_wrapper, location_at};

use crate::binary_buffer::{is_pad, is_wrapper, no_value, peek_type_descriptor};
use crate::described::Described;
use crate::encoded_value::{AnnotationsWrapper, Length, read_length};
use numbers::binary_buffer::read_var_uint;
use numbers::refusal::{Reason, Refusal};
use numbers::var_uint::VarUInt;

// Tests the wrapper at `at` by its combined length and its annotations' length. By numbers, and no `Described`: it reads no byte.
#[inline(always)]
#[tactic(auto, using(std::proofs::lemmas::Bool::Decides::nat_tests), unfolding(crate::specs::Answers::wrapper_tests))]
fn check_wrapper(
    at: usize,
    end: usize,
    combined: Length,
    size: VarUInt,
    limit: usize,
) -> Result<AnnotationsWrapper, Refusal>
    requires { (combined.body ≤ size.next) × (size.next ≤ end) × (size.next ≤ combined.body + most_bytes) × (size.value < 2 ^ 63) }
    ensures { wrapper_read result ≡ wrapper_tests limit at end (sized_of combined) (unsigned_read size) }
{
    let annotations = size.next;
    let size = size.value;
    if size == 0 {
        return Err(Refusal {
            reason: Reason::NoAnnotations,
            position: at,
        });
    }
    let needed = annotations - combined.body + size;
    if combined.size < needed {
        return Err(Refusal {
            reason: Reason::AnnotationsTooLong,
            position: at,
        });
    }
    if combined.size == needed {
        return Err(Refusal {
            reason: Reason::NoRoomForValue,
            position: at,
        });
    }
    if limit < size {
        return Err(Refusal {
            reason: Reason::TooManyAnnotations,
            position: at,
        });
    }
    if end - annotations < size {
        return Err(Refusal {
            reason: Reason::AnnotationsCut,
            position: annotations,
        });
    }
    Ok(AnnotationsWrapper {
        annotations,
        value: annotations + size,
        expected: combined.size - needed,
    })
}

// The wrapper that begins here.
#[inline(always)]
#[tactic(auto, using(std::proofs::lemmas::Bool::Decides::nat_tests), unfolding(crate::specs::Answers::wrapper_at, crate::specs::Answers::annotations_at))]
pub(crate) fn read_wrapper(place: Described, limit: usize) -> Result<AnnotationsWrapper, Refusal>
    ensures { wrapper_read result ≡ wrapper_at limit place.entry.s.now place.entry.at place.entry.end place.entry.descriptor }
{
    let combined = read_length(
        place.s,
        place.at + 1,
        place.end,
        place.descriptor.length_code,
    )?;
    let size = read_var_uint(place.s, combined.body, place.end)?;
    check_wrapper(place.at, place.end, combined, size, limit)
}

// A value where it stands, once its wrapper is read: `expected` is how long the wrapper's lengths say that it is, 0 where it has no wrapper. A number and no
// Option, since no wrapper says 0, and one test in the definition is enough.
#[derive(Clone, Copy)]
pub(crate) struct Located<'a> {
    pub annotations: usize,
    pub value: Described<'a>,
    pub expected: usize,
}

// What stands in a wrapper that begins here, where something does that may.
#[inline(always)]
#[tactic(auto, using(std::proofs::lemmas::Bool::Decides::nat_tests), unfolding(crate::specs::Private::Located::inner_at, crate::specs::Private::Located::inner_tests))]
fn locate_inner_value(place: Described, wrapper: AnnotationsWrapper) -> Result<Located<'_>, Refusal>
    ensures answers { located_read result ≡ inner_at place.entry.s.now place.entry.end (wrapping_of wrapper) }
    ensures there { IfOk result (λ l. (l.value.s.now ≡ place.entry.s.now) × (l.value.end ≡ place.entry.end)) }
{
    let value = peek_type_descriptor(place.s, wrapper.value, place.end)?;
    if is_wrapper(value.descriptor.kind) {
        return Err(Refusal {
            reason: Reason::WrapperInWrapper,
            position: wrapper.value,
        });
    }
    if is_pad(value.descriptor.kind) {
        return Err(Refusal {
            reason: Reason::PadInWrapper,
            position: wrapper.value,
        });
    }
    if no_value(value.descriptor.kind) {
        return Err(Refusal {
            reason: Reason::NotAValue,
            position: wrapper.value,
        });
    }
    Ok(Located {
        annotations: wrapper.annotations,
        value,
        expected: wrapper.expected,
    })
}

// The value of the wrapper that begins here: ion-rust's `read_annotated_value` up to the value's length, which `read_located_value` reads with or without a
// wrapper.
#[inline(always)]
#[tactic(auto, using(std::proofs::lemmas::Bool::Decides::nat_tests), unfolding(crate::specs::Private::Located::location_in_wrapper))]
fn locate_annotated_value(place: Described, limit: usize) -> Result<Located<'_>, Refusal>
    ensures answers { located_read result ≡ location_in_wrapper limit place.entry.s.now place.entry.at place.entry.end place.entry.descriptor }
    ensures there { IfOk result (λ l. (l.value.s.now ≡ place.entry.s.now) × (l.value.end ≡ place.entry.end)) }
{
    let wrapper = read_wrapper(place, limit)?;
    locate_inner_value(place, wrapper)
}

// The value that begins here, or the one in the wrapper that does.
#[inline(always)]
#[tactic(auto, using(std::proofs::lemmas::Bool::Decides::nat_tests), unfolding(crate::specs::Private::Located::location_at))]
pub(crate) fn locate_value(place: Described, limit: usize) -> Result<Located<'_>, Refusal>
    ensures answers { located_read result ≡ location_at limit place.entry.s.now place.entry.at place.entry.end place.entry.descriptor }
    ensures there { IfOk result (λ l. (l.value.s.now ≡ place.entry.s.now) × (l.value.end ≡ place.entry.end)) }
{
    if is_wrapper(place.descriptor.kind) {
        return locate_annotated_value(place, limit);
    }
    if no_value(place.descriptor.kind) {
        return Err(Refusal {
            reason: Reason::NotAValue,
            position: place.at,
        });
    }
    Ok(Located {
        annotations: place.at,
        value: place,
        expected: 0,
    })
}
