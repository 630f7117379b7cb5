// UInts of at most 8 bytes, the most significant first: a symbol's ID, a float's bits. They are given by the slice and a part of it, and not
// by the part alone, as `lib.rt` says.
ghost use Rattle.std.specs.Prelude.{◌≡◌, ◌≤◌, length};
ghost use Rattle.numbers.specs.Format.{uint_of};
ghost use Rattle.bodies.specs.Uint.{uint_in};

// The most bytes of a UInt that is read as a number.
const MAX_UINT_SIZE_IN_BYTES: usize = 8;

// What so many bytes are worth.
#[tactic(auto, using(crate::proofs::BigEndian::uint_next, crate::proofs::BigEndian::uint_none, crate::proofs::BigEndian::byte_more, crate::proofs::BigEndian::byte_fits))]
fn worth(bytes: &[u8]) -> u64
    requires { length bytes.now ≤ 8 }
    ensures { result ≡ uint_of bytes.now }
{
    let mut value = 0u64;
    for byte in bytes {
        value = value * 256 + u64::from(*byte);
    }
    value
}

// The UInt whose bytes are at..end. Where these are no part of the slice or more than 8 bytes, 0.
#[tactic(auto, using(numbers::proofs::Outcomes::inside_order, numbers::proofs::Outcomes::inside_end, numbers::proofs::Parts::part_taken), unfolding(crate::specs::Uint::uint_in))]
pub fn uint_of(s: &[u8], at: usize, end: usize) -> u64
    ensures { result ≡ uint_in s.now at end }
{
    if numbers::binary_buffer::outside(s, at, end) || MAX_UINT_SIZE_IN_BYTES < end - at {
        return 0;
    }
    worth(&s[at..end])
}
