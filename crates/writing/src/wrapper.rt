// Writes a wrapper of annotations around a value that is already written.
ghost use Rattle.std.specs.Prelude.{◌≡◌, true, false, ◌+◌, ◌<◌, length, MatchOption};
ghost use Rattle.framing.specs.Spans.{Spans};
ghost use Rattle.framing.specs.Read.{framed_read};
ghost use Rattle.checking.specs.Reading.{done};
ghost use Rattle.checking.specs.Read.{done_read};
ghost use Rattle.encoding.specs.Fields.{var_uint_size};
ghost use Rattle.encoding.specs.Heads.{wrapped_bytes, wrapper_bytes};
ghost use Rattle.writing.specs.Things.{wrapper, written};
ghost use Rattle.writing.specs.Answers.{past_nine, lent_value, judged_parts, judged_wrapper, fitted, limited_write, buffer_after};
ghost use Rattle.writing.specs.Read.{written_read};
ghost use Rattle.writing.specs.Private.Inner.{inner_fault};

use crate::written::{past_nine, refused, room_for};
use checking::check::check_body;
use checking::item::read_ids;
use encoding::put::{head_size, put_bytes, put_head, put_var_uint, var_uint_size};
use framing::binary_buffer::read_value;
use framing::encoded_value::EncodedValue;
use numbers::refusal::{LIMIT_OUT_OF_RANGE, Reason, Refusal};
use numbers::type_descriptor::{Kind, TypeDescriptor};
use stepping::cursor::Rules;
use walking::walk::Limits;

// The descriptor of a wrapper, but for its length code.
const WRAPPER: u8 = 14 * 16;

// The largest length that nine bytes of a VarUInt tell.
const LARGEST: usize = 9223372036854775807;

// Whether what is behind the wrapper's length, m bytes of annotations and their length and n bytes of a value, is past nine bytes of a VarUInt.
#[tactic(auto, using(encoding::proofs::VarUInts::size_high, crate::proofs::Lengths::past))]
fn wrapped_past_nine(m: usize, n: usize) -> bool
    ensures { result ≡ past_nine (var_uint_size m + (m + n)) }
{
    let size = m.saturating_add(n);
    if LARGEST < size {
        return true;
    }
    past_nine(var_uint_size(m) + size)
}

// Why a descriptor of this kind begins no value of a wrapper, if it begins none.
fn inner_fault(kind: Kind) -> Option<Reason>
    ensures { result ≡ inner_fault kind }
{
    match kind {
        Kind::Wrapper => Some(Reason::WrapperInWrapper),
        Kind::Pad => Some(Reason::PadInWrapper),
        Kind::Value | Kind::Null | Kind::Marker | Kind::Reserved => None,
    }
}

// A wrapper to be written: its annotations and its value, whose length, with that of the annotations, nine bytes tell.
#[derive(Clone, Copy)]
struct Wrapper<'a> {
    annotations: &'a [u8],
    value: &'a [u8],
    ghost short: { past_nine (length (wrapped_bytes annotations.now value.now)) ≡ false },
}

impl<'a> Wrapper<'a> {
    // None where nine bytes don't tell the length.
    #[tactic(auto, using(encoding::proofs::Heads::wrapped_length))]
    fn new(annotations: &'a [u8], value: &'a [u8]) -> Option<Wrapper<'a>>
        ensures { MatchOption result (past_nine (length (wrapped_bytes annotations.now value.now)) ≡ true) (λ w. (w.annotations.now ≡ annotations.now) × (w.value.now ≡ value.now)) }
    {
        if wrapped_past_nine(annotations.len(), value.len()) {
            return None;
        }
        Some(Wrapper { annotations, value })
    }

    // Its value where it stands by itself.
    #[tactic(auto, using(crate::proofs::Stages::lent))]
    fn lent_value(self, limits: Limits) -> Result<EncodedValue, Refusal>
        requires { 0 < length self.value.now }
        ensures { framed_read result ≡ lent_value self.entry.value.now }
    {
        let descriptor = TypeDescriptor::from_byte(self.value[0]);
        if let Some(reason) = inner_fault(descriptor.kind) {
            return refused(reason, 0);
        }
        read_value(self.value, 0, self.value.len(), limits.bytes)
    }

    // Reads the annotations, and then the value, whose end is known, as the reader would.
    #[tactic(auto, using(std::proofs::lemmas::Bool::Decides::nat_tests, numbers::proofs::Passing::passed_on, crate::proofs::Stages::stages), unfolding(crate::specs::Answers::judged_parts))]
    fn judge_parts(self, end: usize, limits: Limits) -> Result<(), Refusal>
        ensures { (v : Spans) → v.end ≡ end → done_read result ≡ judged_parts limits.bytes limits.depth self.entry.annotations.now self.entry.value.now v }
    {
        if end != self.value.len() {
            return refused(Reason::WrappedLengthDiffers, 0);
        }
        read_ids(self.annotations, 0, self.annotations.len())?;
        check_body(self.value, Rules::Sequence, limits.depth, limits.bytes)
    }

    // Reads its parts as the reader would.
    #[tactic(auto, using(std::proofs::lemmas::Bool::Decides::nat_tests, numbers::proofs::Passing::passed_on), unfolding(crate::specs::Answers::judged_wrapper))]
    fn judge(self, limits: Limits) -> Result<(), Refusal>
        ensures { done_read result ≡ judged_wrapper limits.bytes limits.depth self.entry.annotations.now self.entry.value.now }
    {
        if self.annotations.is_empty() {
            return refused(Reason::NoAnnotations, 0);
        }
        if self.value.is_empty() {
            return refused(Reason::NoRoomForValue, 0);
        }
        if limits.bytes < self.annotations.len() {
            return refused(Reason::TooManyAnnotations, 0);
        }
        let inner = self.lent_value(limits)?;
        self.judge_parts(inner.end, limits)
    }

    // Puts it at the buffer's start, if it fits. `put_wrap` of packing puts the same before a value that is not packed yet: a function for both would be public
    // in encoding, and ask for room.
    #[tactic(auto, using(numbers::proofs::Passing::passed_on, crate::proofs::Lengths::wrapper_put))]
    fn put(self, to: &mut [u8]) -> Result<usize, Refusal>
        ensures answers { written_read result ≡ fitted (length to.old) (length (wrapper_bytes self.entry.annotations.now self.entry.value.now)) done }
        ensures puts { to.new ≡ buffer_after (wrapper_bytes self.entry.annotations.now self.entry.value.now) to.old (written_read result) }
    {
        let m = self.annotations.len();
        let field = var_uint_size(m);
        let n = field + (m + self.value.len());
        let head = head_size(n);
        let size = room_for(to, head + n)?;
        put_head(to, 0, WRAPPER, n);
        put_var_uint(to, head, m);
        put_bytes(to, head + field, self.annotations);
        put_bytes(to, head + field + m, self.value);
        Ok(size)
    }
}

// Writes a wrapper by its annotations and its value. `limit` is the most bytes that a value's annotations may have, `deepest` the depth at which a container is
// too deep.
#[tactic(auto, using(std::proofs::lemmas::Bool::Decides::nat_tests, numbers::proofs::Passing::passed_on, crate::proofs::Stages::stages), unfolding(crate::specs::Answers::write_of, crate::specs::Answers::limited_write))]
pub fn write_wrapper(
    annotations: &[u8],
    value: &[u8],
    limit: usize,
    deepest: usize,
    to: &mut [u8],
) -> Result<usize, Refusal>
    ensures answers { written_read result ≡ limited_write limit deepest (wrapper annotations.now value.now) (length to.old) }
    ensures puts { to.new ≡ buffer_after (written (wrapper annotations.now value.now)) to.old (written_read result) }
{
    let Some(limits) = Limits::new(limit, deepest) else {
        return Err(LIMIT_OUT_OF_RANGE);
    };
    let Some(wrapper) = Wrapper::new(annotations, value) else {
        return refused(Reason::NoSuchLength, 0);
    };
    wrapper.judge(limits)?;
    wrapper.put(to)
}
