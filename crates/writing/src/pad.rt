// Writes pads.
ghost use Rattle.std.specs.Prelude.{◌≡◌, true, false, ℕ, ◌≤◌, length, MatchOption};
ghost use Rattle.std.proofs.lemmas.List.Edits.{sets};
ghost use Rattle.writing.specs.Things.{pad, pad_field, pad_head, pad_bytes, written};
ghost use Rattle.writing.specs.Answers.{no_pad, write_of, buffer_after};
ghost use Rattle.writing.specs.Read.{written_read};

use crate::written::{MOST_BYTES, refused, room_for};
use encoding::put::{put_byte, put_var_uint_in, var_uint_size};
use numbers::refusal::{Reason, Refusal};

// The pads from this size on have a length field.
const LONG: usize = 15;

// The length code of a pad with a length field.
const FIELD_CODE: u8 = 14;

// A pad by its total size, and how many bytes its length field has: the fewest that give the size.
#[derive(Clone, Copy)]
struct Pad {
    size: usize,
    field: usize,
    ghost told: { no_pad size ≡ false },
    ghost fewest: { field ≡ pad_field size },
}

impl Pad {
    // None where the size is none, or nine bytes don't give it.
    #[tactic(auto, using(std::proofs::lemmas::Bool::Decides::nat_tests, crate::proofs::Pads::fields), unfolding(crate::specs::Answers::no_pad))]
    fn new(size: usize) -> Option<Pad>
        ensures { MatchOption result (no_pad size ≡ true) (λ p. p.size ≡ size) }
    {
        if size == 0 {
            return None;
        }
        if size < LONG {
            return Some(Pad { size, field: 0 });
        }
        // By `find` over the range this was tried, and its proof did not close.
        for field in 1..=MOST_BYTES {
            if var_uint_size(size - 1 - field) <= field {
                return Some(Pad { size, field });
            }
        }
        None
    }

    // Puts its descriptor and its length field.
    #[tactic(auto, using(crate::proofs::Pads::heads))]
    fn put_head(self, to: &mut [u8])
        ensures { to.new ≡ sets to.old 0 (pad_head self.size) }
    {
        if self.size < LONG {
            // By `as`: the size is in range, and `u8::try_from` would have a case that never comes.
            put_byte(to, 0, (self.size - 1) as u8);
            return;
        }
        put_byte(to, 0, FIELD_CODE);
        put_var_uint_in(to, 1, self.field - 1, self.size - 1 - self.field);
    }

    // Puts it at the start of a buffer that it fits.
    #[tactic(auto, using(crate::proofs::Pads::puts))]
    fn put(self, to: &mut [u8])
        requires { self.size ≤ length to.old }
        ensures { to.new ≡ sets to.old 0 (pad_bytes self.size) }
    {
        self.put_head(to);
        to[1 + self.field..self.size].fill(0);
    }
}

// Writes a pad of this total size.
#[tactic(auto, using(std::proofs::lemmas::Bool::Decides::nat_tests, numbers::proofs::Passing::passed_on, crate::proofs::Pads::stores), unfolding(crate::specs::Answers::write_of))]
pub fn write_pad(size: usize, to: &mut [u8]) -> Result<usize, Refusal>
    ensures answers { (limit deepest : ℕ) → written_read result ≡ write_of limit deepest (pad size) (length to.old) }
    ensures puts { to.new ≡ buffer_after (written (pad size)) to.old (written_read result) }
{
    let Some(pad) = Pad::new(size) else {
        return refused(Reason::NoSuchLength, 0);
    };
    let size = room_for(to, size)?;
    pad.put(to);
    Ok(size)
}
