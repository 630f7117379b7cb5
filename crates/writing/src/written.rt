// A refusal to write, and a value of a type put into a lent buffer.
ghost use Rattle.std.specs.Prelude.{◌≡◌, true, false, ◌≤◌, ◌<◌, length, Err, MatchOption, IfOk};
ghost use Rattle.checking.specs.Reading.{done};
ghost use Rattle.encoding.specs.Heads.{typed_bytes};
ghost use Rattle.writing.specs.Answers.{past_nine, fitted, buffer_after};
ghost use Rattle.writing.specs.Read.{written_read};

use encoding::put::{head_size, put_bytes, put_head, var_uint_size};
use numbers::refusal::{Reason, Refusal};

// The most bytes of a length field.
pub(crate) const MOST_BYTES: usize = 9;

// Short for what many exits give.
pub(crate) fn refused<T>(reason: Reason, position: usize) -> Result<T, Refusal>
    ensures { result ≡ Err (record { reason = reason; position = position }) }
{
    Err(Refusal { reason, position })
}

// How many bytes are written, where the buffer has room for them.
#[tactic(auto, using(std::proofs::lemmas::Bool::Decides::nat_tests))]
pub(crate) fn room_for(to: &[u8], size: usize) -> Result<usize, Refusal>
    ensures answers { written_read result ≡ fitted (length to.now) size done }
    ensures room { IfOk result (λ n. (n ≡ size) × (size ≤ length to.now)) }
{
    if to.len() < size {
        return refused(Reason::NoRoomToWrite, size);
    }
    Ok(size)
}

// Whether a length is past nine bytes of a VarUInt.
#[tactic(auto, unfolding(crate::specs::Answers::past_nine))]
pub(crate) fn past_nine(n: usize) -> bool
    ensures { result ≡ past_nine n }
{
    MOST_BYTES < var_uint_size(n)
}

// A value to be written: the code of its type, and its representation, whose length nine bytes tell.
#[derive(Clone, Copy)]
pub(crate) struct Typed<'a> {
    pub(crate) type_code: u8,
    pub(crate) body: &'a [u8],
    pub(crate) ghost known: { type_code < 14 },
    pub(crate) ghost short: { past_nine (length body.now) ≡ false },
}

impl<'a> Typed<'a> {
    // None where nine bytes don't tell the length.
    pub(crate) fn new(type_code: u8, body: &'a [u8]) -> Option<Typed<'a>>
        requires { type_code < 14 }
        ensures { MatchOption result (past_nine (length body.now) ≡ true) (λ t. (t.type_code ≡ type_code) × (t.body.now ≡ body.now)) }
    {
        if past_nine(body.len()) {
            return None;
        }
        Some(Typed { type_code, body })
    }

    // Puts it at the buffer's start, if it fits. In its callers' place: there the body's length is known, and a call for a float or a symbol takes 1.5 to 2.6
    // times the instructions.
    #[inline(always)]
    #[tactic(auto, using(numbers::proofs::Passing::passed_on, crate::proofs::Lengths::typed_put))]
    pub(crate) fn put(self, to: &mut [u8]) -> Result<usize, Refusal>
        ensures answers { written_read result ≡ fitted (length to.old) (length (typed_bytes self.entry.type_code self.entry.body.now)) done }
        ensures puts { to.new ≡ buffer_after (typed_bytes self.entry.type_code self.entry.body.now) to.old (written_read result) }
    {
        let n = self.body.len();
        let head = head_size(n);
        let size = room_for(to, head + n)?;
        put_head(to, 0, self.type_code * 16, n);
        put_bytes(to, head, self.body);
        Ok(size)
    }
}
