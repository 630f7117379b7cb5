// The limit of annotation bytes: each call gives the most that a value's annotations may have, and this is its range.
ghost use Rattle.std.specs.Prelude.{◌≡◌};
ghost use Rattle.framing.specs.Limits.{out_of_range};

const LEAST_LIMIT: usize = 255;

const MOST_LIMIT: usize = 65535;

// Whether a limit of annotation bytes is none.
#[tactic(auto, using(std::proofs::lemmas::Bool::Decides::nat_tests), unfolding(crate::specs::Limits::out_of_range))]
pub fn out_of_range(limit: usize) -> bool
    ensures { result ≡ out_of_range limit }
{
    limit < LEAST_LIMIT || MOST_LIMIT < limit
}
