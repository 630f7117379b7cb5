// A number as it was read.
ghost use Rattle.std.specs.Prelude.{◌≡◌, Ok};
ghost use Rattle.numbers.specs.Outcome.{and_then};
ghost use Rattle.numbers.specs.Read.{var_uint_read, var_int_read, int_read};
ghost use Rattle.records.specs.FirstWords.{of_unsigned, of_signed, of_fixed};
ghost use Rattle.records.specs.Read.{number_read};

use numbers::int::Int;
use numbers::var_int::VarInt;
use numbers::var_uint::VarUInt;

// Whether it is negative, its value, an Int's first seven bits, and its further bytes, which only an Int has.
#[derive(Clone, Copy, Debug, PartialEq, Eq)]
pub struct Number {
    pub negative: bool,
    pub value: usize,
    pub rest: usize,
    pub end: usize,
}

impl From<VarUInt> for Number {
    ghost from_gives = { λ n r. and_then (var_uint_read (Ok n)) of_unsigned ≡ number_read (Ok r) };

    fn from(number: VarUInt) -> Number {
        Number {
            negative: false,
            value: number.value,
            rest: number.next,
            end: number.next,
        }
    }
}

impl From<VarInt> for Number {
    ghost from_gives = { λ n r. and_then (var_int_read (Ok n)) of_signed ≡ number_read (Ok r) };

    fn from(number: VarInt) -> Number {
        Number {
            negative: number.negative,
            value: number.magnitude,
            rest: number.next,
            end: number.next,
        }
    }
}

impl From<Int> for Number {
    ghost from_gives = { λ n r. and_then (int_read (Ok n)) of_fixed ≡ number_read (Ok r) };

    fn from(number: Int) -> Number {
        Number {
            negative: number.negative,
            value: usize::from(number.first),
            rest: number.rest,
            end: number.end,
        }
    }
}
