// Reads VarUInts, VarInts and Ints from a part of a slice.
//
// Each function reads the part at..end of `s`. Where at ≤ end ≤ the slice's length does not hold it refuses with 50 at 0. The three are parameters and no struct
// of them, since callers of other languages give them so, and a contract would name a struct's fields where it names `s.now`, `at` and `end`.
ghost use Rattle.std.specs.Prelude.{◌≡◌, ℕ, ◌+◌, ◌-◌, ◌≤◌, ◌<◌, ◌^◌, length};
ghost use Rattle.numbers.specs.Outcome.{outside_of};
ghost use Rattle.numbers.specs.Answers.{most_bytes, var_uint, var_int, int, int_rest};
ghost use Rattle.numbers.specs.ShortVarUInt.{short_var_uint_of};
ghost use Rattle.numbers.specs.Refusals.{number_of};
ghost use Rattle.numbers.specs.Read.{refusal_read, var_uint_read, short_var_uint_read, var_int_read, int_read};
ghost use Rattle.numbers.specs.Private.Groups.{groups, Begins};

use crate::int::Int;
use crate::refusal::{OUTSIDE, Reason, Refusal};
use crate::var_int::VarInt;
use crate::var_uint::VarUInt;
use std::ops::ControlFlow;

// The most bytes that a VarUInt or a VarInt may have.
const MAX_ENCODED_SIZE_IN_BYTES: usize = 9;

// Whether at..end is no part of the slice.
#[tactic(auto, using(std::proofs::lemmas::Bool::Decides::nat_tests), unfolding(crate::specs::Outcome::outside_of))]
pub fn outside(s: &[u8], at: usize, end: usize) -> bool
    ensures { result ≡ outside_of s.now at end }
{
    end < at || s.len() < end
}

// The refusal of a number that began at `from` and has nine bytes or more before `at`: too long where its last byte is in at..end, cut short where it is not.
#[inline(always)]
fn past_limit(s: &[u8], from: usize, at: usize, end: usize, cut: Reason) -> Refusal
    requires { (from + most_bytes ≤ at) × (at ≤ end) × (end ≤ length s.now) }
    ensures { (v : ℕ) → refusal_read result ≡ groups (number_of cut) v s.now from at end }
{
    // By positions, as the invariant has the last byte's: over the bytes it would speak of a part of the slice and its length.
    for i in at..end {
        if 128 <= s[i] {
            return Refusal {
                reason: Reason::NumberTooLong,
                position: from,
            };
        }
    }
    Refusal {
        reason: cut,
        position: end,
    }
}

// A number that began at `from`: what its bytes before `at` are worth is `first`, and groups of seven bits follow from
// `at` on. `cut` is the refusal where the last byte is missing. This and what it calls stand in their callers' place: a step without a call in it needs no frame
// on the stack.
#[inline(always)]
fn read_groups(
    s: &[u8],
    from: usize,
    at: usize,
    end: usize,
    first: usize,
    cut: Reason,
) -> Result<VarUInt, Refusal>
    requires { (from ≤ at) × (at ≤ end) × (end ≤ length s.now) × (first < 128 ^ (at - from)) }
    ensures { var_uint_read result ≡ groups (number_of cut) first s.now from at end }
{
    let mut value = first;
    // By positions: where the number began and where it ends are told by them.
    for i in at..end {
        if MAX_ENCODED_SIZE_IN_BYTES <= i - from {
            return Err(past_limit(s, from, i, end, cut));
        }
        let byte = usize::from(s[i]);
        value = value * 128 + byte % 128;
        if 128 <= byte {
            return Ok(VarUInt { value, next: i + 1 });
        }
    }
    Err(Refusal {
        reason: cut,
        position: end,
    })
}

// Reads the first bytes of a VarUInt, three at most: it is all of them, or none of them is its last and it goes on with what they are worth from where they end.
// Byte by byte: by a loop each item took longer (docs/SPEED.md).
#[inline(always)]
fn read_first_bytes(
    s: &[u8],
    at: usize,
    end: usize,
) -> Result<ControlFlow<VarUInt, VarUInt>, Refusal>
    ensures { Begins s.now at end result }
{
    if s.len() < end {
        return Err(OUTSIDE);
    }
    if end <= at {
        if at == end {
            return Ok(ControlFlow::Continue(VarUInt { value: 0, next: at }));
        }
        return Err(OUTSIDE);
    }
    let first = usize::from(s[at]);
    let after = at + 1;
    if 128 <= first {
        return Ok(ControlFlow::Break(VarUInt {
            value: first % 128,
            next: after,
        }));
    }
    if end <= after {
        return Ok(ControlFlow::Continue(VarUInt {
            value: first,
            next: after,
        }));
    }
    let second = usize::from(s[after]);
    let past = after + 1;
    let two = first * 128 + second % 128;
    if 128 <= second {
        return Ok(ControlFlow::Break(VarUInt {
            value: two,
            next: past,
        }));
    }
    if end <= past {
        return Ok(ControlFlow::Continue(VarUInt {
            value: two,
            next: past,
        }));
    }
    let third = usize::from(s[past]);
    let next = past + 1;
    let three = two * 128 + third % 128;
    if 128 <= third {
        return Ok(ControlFlow::Break(VarUInt { value: three, next }));
    }
    Ok(ControlFlow::Continue(VarUInt { value: three, next }))
}

// Reads a VarUInt of three bytes at most: most lengths and field IDs have no more.
pub fn short_var_uint(s: &[u8], at: usize, end: usize) -> Option<VarUInt>
    ensures { short_var_uint_read result ≡ short_var_uint_of at (var_uint s.now at end) }
{
    match read_first_bytes(s, at, end) {
        Ok(ControlFlow::Break(number)) => Some(number),
        Ok(ControlFlow::Continue(_)) | Err(_) => None,
    }
}

// Reads a VarUInt, a short one in place; a longer one goes on behind its first bytes, which are not read again.
#[inline(always)]
pub fn read_var_uint(s: &[u8], at: usize, end: usize) -> Result<VarUInt, Refusal>
    ensures { var_uint_read result ≡ var_uint s.now at end }
{
    match read_first_bytes(s, at, end)? {
        ControlFlow::Break(number) => Ok(number),
        ControlFlow::Continue(begun) => {
            read_groups(s, at, begun.next, end, begun.value, Reason::VarUIntCut)
        }
    }
}

// Reads a VarInt.
#[tactic(auto, using(std::proofs::lemmas::Bool::Decides::nat_tests), unfolding(crate::specs::Answers::var_int, crate::specs::Answers::var_number))]
pub fn read_var_int(s: &[u8], at: usize, end: usize) -> Result<VarInt, Refusal>
    ensures { var_int_read result ≡ var_int s.now at end }
{
    if outside(s, at, end) {
        return Err(OUTSIDE);
    }
    if at == end {
        return Err(Refusal {
            reason: Reason::VarIntCut,
            position: end,
        });
    }
    let byte = usize::from(s[at]);
    let next = at + 1;
    let negative = byte / 64 % 2 == 1;
    let magnitude = byte % 64;
    if 128 <= byte {
        return Ok(VarInt {
            negative,
            magnitude,
            next,
        });
    }
    let number = read_groups(s, at, next, end, magnitude, Reason::VarIntCut)?;
    Ok(VarInt {
        negative,
        magnitude: number.value,
        next: number.next,
    })
}

// Reads the first `length` bytes as an Int.
#[tactic(auto, using(std::proofs::lemmas::Bool::Decides::nat_tests), unfolding(crate::specs::Answers::int, crate::specs::Format::int_negative))]
pub fn read_int(s: &[u8], at: usize, end: usize, length: usize) -> Result<Int, Refusal>
    ensures { int_read result ≡ int s.now at end length }
{
    if outside(s, at, end) {
        return Err(OUTSIDE);
    }
    if length == 0 {
        return Ok(Int {
            negative: false,
            first: 0,
            rest: at,
            end: at,
        });
    }
    if end - at < length {
        return Err(Refusal {
            reason: Reason::IntCut,
            position: at,
        });
    }
    let byte = s[at];
    let rest = at + 1;
    let after = at + length;
    Ok(Int {
        negative: 128 <= byte,
        first: byte % 128,
        rest,
        end: after,
    })
}

// The bytes of that Int after its first one, as a part of the slice: empty where `read_int` refuses.
pub fn read_int_rest(s: &[u8], at: usize, end: usize, length: usize) -> &[u8]
    ensures { result.now ≡ int_rest s.now at end length }
{
    match read_int(s, at, end, length) {
        Ok(int) => &s[int.rest..int.end],
        Err(_) => &s[..0],
    }
}
