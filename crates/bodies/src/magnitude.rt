// Integer magnitudes, given by the slice and a part of it, and not by the part alone, as `lib.rt` says.
ghost use Rattle.std.specs.Prelude.{◌≡◌, not, eqb, position};
ghost use Rattle.bodies.specs.Magnitude.{significant_from};

// Where the first byte is that is not zero.
fn first_digit(bytes: &[u8]) -> Option<usize>
    ensures { result ≡ position (λ b. not (eqb b 0)) bytes.now }
{
    bytes.iter().position(|byte| *byte != 0)
}

// Where the bytes at..end begin without their leading zero bytes: `end` where all are zero, and `at` where at..end is no
// part of the slice.
#[tactic(auto, using(crate::proofs::Leading::significant_some, crate::proofs::Leading::significant_none, crate::proofs::Leading::significant_out, numbers::proofs::Outcomes::inside_order, numbers::proofs::Outcomes::inside_end))]
pub fn significant(s: &[u8], at: usize, end: usize) -> usize
    ensures { result ≡ significant_from s.now at end }
{
    if numbers::binary_buffer::outside(s, at, end) {
        return at;
    }
    match first_digit(&s[at..end]) {
        Some(zeros) => at + zeros,
        None => end,
    }
}
