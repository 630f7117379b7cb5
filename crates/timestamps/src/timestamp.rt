// Timestamps: a body read into its offset, its fields in UTC and its fraction. Each function takes the slice and a part of it, as in `bodies`.
ghost use Rattle.std.specs.Prelude.{◌≡◌, ◌∷◌, ◌≤◌, ◌^◌, length, leb};
ghost use Rattle.numbers.specs.Format.{of_digits};
ghost use Rattle.numbers.specs.Read.{outcome};
ghost use Rattle.timestamps.specs.Timestamp.{date_out, time_out, fraction_out, out_of_range, precision_of, offset_of, ranged};
ghost use Rattle.timestamps.specs.Timestamp.{fields_from, timestamp, timestamp_read};
ghost use Rattle.timestamps.specs.Private.Reading.{Filled, fields_given, fields_read, fraction_read, magnitude_answer, measured_from};

use crate::calendar::days_in;
use bodies::decimal;
use numbers::binary_buffer;
use numbers::refusal::{Reason, Refusal};

// How far a timestamp goes (1 year, 2 month, 3 day, 4 minute, 5 second, 6 fraction), its offset's minutes and 1440 or 0
// where it is unknown, its fields in UTC, absent ones 0, and its fraction's exponent and coefficient. Numbers and zeros,
// as the record of a stamp that C is given has them; the exponent's sign is beside its magnitude, as the definition of an
// answer has it.
#[derive(Clone, Copy, Debug, PartialEq, Eq)]
pub struct Stamp {
    pub precision: u8,
    pub offset: u16,
    pub year: u16,
    pub month: u8,
    pub day: u8,
    pub hour: u8,
    pub minute: u8,
    pub second: u8,
    pub exponent_negative: bool,
    pub exponent: usize,
    pub coefficient: u64,
}

// The offset's VarInt: its sign beside its magnitude, as the definition of an answer has them.
#[derive(Clone, Copy, Debug, PartialEq, Eq)]
pub struct Offset {
    pub negative: bool,
    pub minutes: usize,
}

// The fields that were read, how many they are, and 0, no `None`, for each of the others: a stamp has them so, and the record of a stamp that C is given.
#[derive(Clone, Copy, Debug, PartialEq, Eq)]
pub struct Fields {
    pub count: usize,
    pub year: usize,
    pub month: usize,
    pub day: usize,
    pub hour: usize,
    pub minute: usize,
    pub second: usize,
}

// A fraction's exponent and its coefficient: each a sign beside a magnitude, as the definition of an answer has them.
#[derive(Clone, Copy, Debug, Default, PartialEq, Eq)]
pub struct Fraction {
    pub exponent_negative: bool,
    pub exponent: usize,
    pub negative: bool,
    pub coefficient: u64,
}

// Whether year, month or day is out of range.
#[tactic(auto, unfolding(crate::specs::Timestamp::date_out, crate::specs::Timestamp::year_out, crate::specs::Timestamp::month_out, crate::specs::Timestamp::day_out))]
fn date_out(fields: Fields) -> bool
    ensures { result ≡ date_out fields }
{
    if fields.year < 1 || 9999 < fields.year {
        return true;
    }
    if fields.count < 2 {
        return false;
    }
    if fields.month < 1 || 12 < fields.month {
        return true;
    }
    if fields.count < 3 {
        return false;
    }
    fields.day < 1 || days_in(fields.year, fields.month) < fields.day
}

// Whether hour, minute or second is out of range.
#[tactic(auto, unfolding(crate::specs::Timestamp::time_out))]
fn time_out(fields: Fields) -> bool
    ensures { result ≡ time_out fields }
{
    23 < fields.hour || 59 < fields.minute || 59 < fields.second
}

// Whether a coefficient is at least ten to the power of `places`.
#[tactic(auto, using(crate::proofs::Powers::by_power, crate::proofs::Powers::below_power))]
fn reaches_one(coefficient: u64, places: usize) -> bool
    ensures { result ≡ leb (10 ^ places) coefficient }
{
    // (`as`: std has no `From` of a `u32` for a `usize`.)
    coefficient != 0 && places <= coefficient.ilog10() as usize
}

// Whether the fraction is below 0 or at least 1.
#[tactic(auto, unfolding(crate::specs::Timestamp::fraction_out))]
fn fraction_out(fraction: Option<Fraction>) -> bool
    ensures { result ≡ fraction_out (fraction_read fraction) }
{
    let Some(fraction) = fraction else {
        return false;
    };
    if fraction.coefficient == 0 {
        return false;
    }
    if fraction.negative {
        return true;
    }
    !fraction.exponent_negative || reaches_one(fraction.coefficient, fraction.exponent)
}

#[tactic(auto, unfolding(crate::specs::Timestamp::out_of_range, crate::specs::Timestamp::offset_out))]
fn out_of_range(offset: Offset, fields: Fields, fraction: Option<Fraction>) -> bool
    ensures { result ≡ out_of_range (record { offset = offset; fields = fields; fraction = fraction_read fraction }) }
{
    1439 < offset.minutes || date_out(fields) || time_out(fields) || fraction_out(fraction)
}

// How far a timestamp with so many fields goes. (`as`: six at most, which is proved to fit.)
#[tactic(auto, unfolding(crate::specs::Timestamp::precision_of))]
fn precision_of(count: usize, fraction: bool) -> u8
    requires { count ≤ 6 }
    ensures { result ≡ precision_of count fraction }
{
    if fraction {
        return 6;
    }
    if 3 < count {
        return (count - 1) as u8;
    }
    count as u8
}

// The offset's minutes and 1440; 0 where it is unknown. (`as`: 1439 minutes at most, which is proved to fit.)
#[tactic(auto, unfolding(crate::specs::Timestamp::offset_of))]
fn offset_of(offset: Offset, count: usize) -> u16
    requires { offset.minutes ≤ 1439 }
    ensures { result ≡ offset_of offset count }
{
    if count < 4 {
        return 0;
    }
    let minutes = offset.minutes as u16;
    if !offset.negative {
        return 1440 + minutes;
    }
    if minutes == 0 { 0 } else { 1440 - minutes }
}

// What was read as an answer, where all of it is in range. (`as`: the ranges say that each field fits, where `try_from` would have an error that never comes.)
#[tactic(auto, using(crate::proofs::Ranges::fields_fit), unfolding(crate::specs::Timestamp::ranged, crate::specs::Timestamp::stamp_of))]
fn answer_in_range(
    descriptor: usize,
    offset: Offset,
    fields: Fields,
    fraction: Option<Fraction>,
) -> Result<Stamp, Refusal>
    requires { Filled fields }
    ensures { timestamp_read result ≡ ranged descriptor (record { offset = offset; fields = fields; fraction = fraction_read fraction }) }
{
    if out_of_range(offset, fields, fraction) {
        return Err(Refusal {
            reason: Reason::TimestampOutOfRange,
            position: descriptor,
        });
    }
    let precision = precision_of(fields.count, fraction.is_some());
    let Fraction {
        exponent_negative,
        exponent,
        coefficient,
        ..
    } = fraction.unwrap_or_default();
    Ok(Stamp {
        precision,
        offset: offset_of(offset, fields.count),
        year: fields.year as u16,
        month: fields.month as u8,
        day: fields.day as u8,
        hour: fields.hour as u8,
        minute: fields.minute as u8,
        second: fields.second as u8,
        exponent_negative,
        exponent,
        coefficient,
    })
}

// The magnitude whose digits are `first` and the bytes of `rest`: none where 8 bytes do not hold it.
#[tactic(auto, using(bodies::proofs::BigEndian::digits_one, bodies::proofs::BigEndian::digits_next, bodies::proofs::BigEndian::digits_large), unfolding(crate::specs::Private::Reading::magnitude_answer))]
fn read_magnitude(first: u8, rest: &[u8]) -> Option<u64>
    ensures { result ≡ magnitude_answer (of_digits 256 (first ∷ rest.now)) }
{
    let mut value = u64::from(first);
    for byte in rest {
        value = value.checked_mul(256)? + u64::from(*byte);
    }
    Some(value)
}

// The fraction in the bytes at..end that the fields leave: none where they leave none.
#[tactic(auto, using(crate::proofs::Stamps::fraction_told, bodies::proofs::Splitting::split_rest), unfolding(crate::specs::Private::Reading::measured_from))]
fn read_fraction(
    s: &[u8],
    at: usize,
    end: usize,
    descriptor: usize,
) -> Result<Option<Fraction>, Refusal>
    requires { (at ≤ end) × (end ≤ length s.now) }
    ensures { outcome fraction_read result ≡ measured_from descriptor s.now end at }
{
    if at == end {
        return Ok(None);
    }
    let decimal = decimal::read_decimal(s, at, end)?;
    let digits = decimal.coefficient;
    let Some(coefficient) = read_magnitude(digits.first, &s[digits.rest..digits.end]) else {
        return Err(Refusal {
            reason: Reason::CoefficientTooLong,
            position: descriptor,
        });
    };
    Ok(Some(Fraction {
        exponent_negative: decimal.exponent_negative,
        exponent: decimal.exponent,
        negative: digits.negative,
        coefficient,
    }))
}

// The fields as they were read, and where they end.
#[derive(Clone, Copy)]
struct FieldsRead {
    fields: Fields,
    next: usize,
}

// Reads the fields from `at` on: a year, and up to five more as long as there are bytes.
fn read_fields(s: &[u8], at: usize, end: usize) -> Result<FieldsRead, Refusal>
    ensures { fields_read result ≡ fields_given (fields_from 6 s.now end at) }
{
    // Six places, since there is no heap: a stamp has a 0 for each field that was not read.
    let mut values = [0usize; 6];
    // Counted beside the `for`: it is asked for behind the loop, and the index of an `enumerate` would be kept in a variable all the same.
    let mut count = 0;
    let mut next = at;
    for value in &mut values {
        let number = binary_buffer::read_var_uint(s, next, end)?;
        *value = number.value;
        count += 1;
        next = number.next;
        if next == end {
            break;
        }
    }
    let [year, month, day, hour, minute, second] = values;
    let fields = Fields {
        count,
        year,
        month,
        day,
        hour,
        minute,
        second,
    };
    Ok(FieldsRead { fields, next })
}

// Reads the timestamp whose body is start..end. Faults of what is read as a whole, and not of one of its numbers, are at
// `descriptor`, where the value's descriptor stands.
#[tactic(auto, using(crate::proofs::Stamps::stamp_told), unfolding(crate::specs::Timestamp::timestamp, crate::specs::Timestamp::encoded))]
pub fn read_timestamp(
    s: &[u8],
    start: usize,
    end: usize,
    descriptor: usize,
) -> Result<Stamp, Refusal>
    ensures { timestamp_read result ≡ timestamp descriptor s.now start end }
{
    let first = binary_buffer::read_var_int(s, start, end)?;
    let offset = Offset {
        negative: first.negative,
        minutes: first.magnitude,
    };
    let FieldsRead { fields, next } = read_fields(s, first.next, end)?;
    if fields.count == 4 {
        return Err(Refusal {
            reason: Reason::HourWithoutMinute,
            position: descriptor,
        });
    }
    let fraction = read_fraction(s, next, end, descriptor)?;
    answer_in_range(descriptor, offset, fields, fraction)
}
