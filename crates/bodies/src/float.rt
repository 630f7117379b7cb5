// Floats of 32 bits as those of 64. All is done on the bits as integers: a machine's conversion may take subnormals for
// zero.
ghost use Rattle.std.specs.Prelude.{◌≡◌, ◌<◌};
ghost use Rattle.bodies.specs.Widen.{widen_of};
ghost use Rattle.bodies.specs.Private.Fields.{sign_of, special_of, finite_of};

// The weights of the 64-bit format: its sign, its exponent's field, and what a digit of a 32-bit fraction weighs there.
const SIGN: u64 = 0x8000_0000_0000_0000;

const EXPONENT: u64 = 0x0010_0000_0000_0000;

const FRACTION: u64 = 0x2000_0000;

// The sign, where the 64-bit format has it.
#[tactic(auto, unfolding(crate::specs::Private::Fields::sign_of))]
fn sign_of(bits: u32) -> u64
    ensures { result ≡ sign_of bits }
{
    if 0x8000_0000 <= bits { SIGN } else { 0 }
}

// An infinity or a NaN, by its fraction. A NaN keeps its fraction and has the highest digit of it set.
#[tactic(auto, unfolding(crate::specs::Private::Fields::special_of))]
fn special(fraction: u32) -> u64
    requires { fraction < 0x80_0000 }
    ensures { result ≡ special_of fraction }
{
    if fraction == 0 {
        return 0x7FF * EXPONENT;
    }
    let quiet = 0x40_0000 + fraction % 0x40_0000;
    0x7FF * EXPONENT + u64::from(quiet) * FRACTION
}

// A subnormal number or zero, by its fraction: its leading digit, which has a place of its own in the 32-bit format, is
// the one that the 64-bit format leaves out.
#[tactic(auto, using(crate::proofs::Widening::finite_zero, crate::proofs::Widening::finite_place, crate::proofs::Widening::place_fits))]
fn subnormal(fraction: u32) -> u64
    requires { fraction < 0x80_0000 }
    ensures { result ≡ finite_of fraction 0 }
{
    if fraction == 0 {
        return 0;
    }
    let place = fraction.ilog2();
    let field = u64::from(873 + place);
    let digits = u64::from(fraction) << (52 - place);
    field * EXPONENT + digits
}

// The bits of the same number in the 64-bit format.
#[tactic(auto, using(crate::proofs::Widening::widen_special, crate::proofs::Widening::widen_subnormal, crate::proofs::Widening::widen_normal, crate::proofs::Widening::special_fits, crate::proofs::Widening::subnormal_fits, crate::proofs::Widening::normal_fits))]
pub fn widen(bits: u32) -> u64
    ensures { result ≡ widen_of bits }
{
    let sign = sign_of(bits);
    let fraction = bits % 0x80_0000;
    match bits % 0x8000_0000 / 0x80_0000 {
        0xFF => sign + special(fraction),
        0 => sign + subnormal(fraction),
        exponent => sign + (u64::from(896 + exponent) * EXPONENT + u64::from(fraction) * FRACTION),
    }
}
