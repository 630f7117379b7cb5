// Reads the annotation bytes of a value, one ID a step.
ghost use Rattle.std.specs.Prelude.{◌≡◌};
ghost use Rattle.framing.specs.Answers.{read_annotation};
ghost use Rattle.framing.specs.Read.{annotation_read};

use numbers::binary_buffer::{outside, read_var_uint};
use numbers::refusal::{OUTSIDE, Refusal};

// An annotation's ID, and where the next one begins. A type of its own, and not `VarUInt`, since its field's name says what the number is.
#[derive(Clone, Copy, Debug, PartialEq, Eq)]
pub struct Annotation {
    pub id: usize,
    pub next: usize,
}

// The annotation ID at `at` of the annotation bytes that end at `end`: none at their end.
#[tactic(auto, using(std::proofs::lemmas::Bool::Decides::nat_tests), unfolding(crate::specs::Answers::read_annotation))]
pub fn read_annotation(s: &[u8], at: usize, end: usize) -> Result<Option<Annotation>, Refusal>
    ensures { annotation_read result ≡ read_annotation s.now at end }
{
    if outside(s, at, end) {
        return Err(OUTSIDE);
    }
    if at == end {
        return Ok(None);
    }
    let number = read_var_uint(s, at, end)?;
    Ok(Some(Annotation {
        id: number.value,
        next: number.next,
    }))
}
