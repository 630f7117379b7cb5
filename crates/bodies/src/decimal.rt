// Decimals: a body split into its exponent and its coefficient.
ghost use Rattle.std.specs.Prelude.{◌≡◌};
ghost use Rattle.bodies.specs.Decimal.{decimal, decimal_rest, decimal_read};

use numbers::binary_buffer;
use numbers::int::Int;
use numbers::refusal::{OUTSIDE, Refusal};

// The exponent's sign and magnitude, zero being positive, and the coefficient. A sign beside a magnitude, as the definition of an answer has them.
#[derive(Clone, Copy, Debug, PartialEq, Eq)]
pub struct Decimal {
    pub exponent_negative: bool,
    pub exponent: usize,
    pub coefficient: Int,
}

// Splits the decimal whose body is start..end. An empty body is zero with exponent 0.
#[tactic(auto, using(crate::proofs::Splitting::split_tests), unfolding(crate::specs::Decimal::decimal, crate::specs::Decimal::with_coefficient, crate::specs::Decimal::split_as))]
pub fn read_decimal(s: &[u8], start: usize, end: usize) -> Result<Decimal, Refusal>
    ensures { decimal_read result ≡ decimal s.now start end }
{
    if binary_buffer::outside(s, start, end) {
        return Err(OUTSIDE);
    }
    if start == end {
        return Ok(Decimal {
            exponent_negative: false,
            exponent: 0,
            coefficient: Int {
                negative: false,
                first: 0,
                rest: end,
                end,
            },
        });
    }
    let exponent = binary_buffer::read_var_int(s, start, end)?;
    let coefficient = binary_buffer::read_int(s, exponent.next, end, end - exponent.next)?;
    Ok(Decimal {
        exponent_negative: exponent.magnitude != 0 && exponent.negative,
        exponent: exponent.magnitude,
        coefficient,
    })
}

// The coefficient's bytes after its first one, as a part of the slice: empty where `read_decimal` refuses.
#[tactic(auto, using(crate::proofs::Splitting::split_rest, numbers::proofs::Parts::part_taken), unfolding(crate::specs::Decimal::decimal_rest))]
pub fn read_decimal_rest(s: &[u8], start: usize, end: usize) -> &[u8]
    ensures { result.now ≡ decimal_rest s.now start end }
{
    match read_decimal(s, start, end) {
        Ok(Decimal { coefficient, .. }) => &s[coefficient.rest..coefficient.end],
        Err(_) => &s[..0],
    }
}
