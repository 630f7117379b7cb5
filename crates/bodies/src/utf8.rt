// Text: whether bytes are well-formed UTF-8. It takes the slice and a part of it, and not the part alone, as `lib.rt` says.
ghost use Rattle.std.specs.Prelude.{◌≡◌};
ghost use Rattle.bodies.specs.Utf8.{utf8};

// Whether the bytes at..end are well-formed UTF-8: false where at..end is no part of the slice.
#[tactic(auto, using(crate::proofs::Rows::utf8_out, numbers::proofs::Outcomes::inside_order, numbers::proofs::Outcomes::inside_end))]
pub fn is_utf8(s: &[u8], at: usize, end: usize) -> bool
    ensures { result ≡ utf8 s.now at end }
{
    if numbers::binary_buffer::outside(s, at, end) {
        return false;
    }
    std::str::from_utf8(&s[at..end]).is_ok()
}
