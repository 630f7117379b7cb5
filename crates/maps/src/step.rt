// A step whose record is put into a lent buffer.
//
// `limit` is the most bytes that a value's annotations may have. A part's slice, its places and its limit are parameters of their own: the exports to C hand
// them on to `part_rules` as they came, and for `put_step` and `put_long` a struct of them would be made at each call.
ghost use Rattle.std.specs.Prelude.{◌≡◌};
ghost use Rattle.numbers.specs.Read.{outcome};
ghost use Rattle.stepping.specs.Answers.{answer_at};
ghost use Rattle.stepping.specs.Names.{answer_from};
ghost use Rattle.stepping.specs.Read.{name_of};
ghost use Rattle.records.specs.Buffer.{record_in};
ghost use Rattle.records.specs.Words.{words};
ghost use Rattle.maps.specs.Inside.{part_rules};
ghost use Rattle.maps.specs.Put.{put_by};

use framing::binary_buffer::short_value;
use framing::limits::out_of_range;
use numbers::binary_buffer::outside;
use numbers::refusal::{LIMIT_OUT_OF_RANGE, OUTSIDE, Refusal};
use records::buffer::put_record;
use records::words::{bare_words, end_words, item_words, refused_words};
use std::ops::ControlFlow;
use stepping::cursor::{Name, Rules, item_from, left_by, read_name, rules_of};

// The last of the kinds of a part. The kind is tested beside the places, and not by `Rules::try_from`, which takes a step some 8 instructions more.
const LAST_KIND: u64 = 2;

// The rules of the part start..end of the map, by its kind, where the limit is one, `at` is in the part, and there is such a kind.
#[tactic(auto, using(std::proofs::lemmas::Bool::Decides::nat_tests), unfolding(numbers::specs::Outcome::outside_of))]
pub fn part_rules(
    map: &[u8],
    start: usize,
    end: usize,
    at: usize,
    kind: u64,
    limit: usize,
) -> Result<Rules, Refusal>
    ensures { outcome (λ rules. rules) result ≡ part_rules limit map.now start end at kind }
{
    if out_of_range(limit) {
        return Err(LIMIT_OUT_OF_RANGE);
    }
    if map.len() < end || end < at || at < start || LAST_KIND < kind {
        return Err(OUTSIDE);
    }
    Ok(rules_of(kind))
}

// Puts the record of whatever is no short value behind its name, which was read and is not read again.
#[tactic(auto, using(crate::proofs::Putting::left_put, crate::proofs::Putting::over_put))]
fn put_long(
    rules: Rules,
    map: &[u8],
    at: usize,
    name: Name,
    end: usize,
    limit: usize,
    out: &mut [u8],
) -> ControlFlow<u64, usize>
    ensures value { result ≡ put_by (answer_from limit rules map.now at end (name_of name)) out.old }
    ensures out_after { out.new ≡ record_in (words (answer_from limit rules map.now at end (name_of name))) out.old }
{
    match item_from(rules, map, at, name, end, limit) {
        Ok(item) => {
            let number = put_record(out, item_words(Ok(item)));
            match left_by(Ok(item)) {
                Some(past) => ControlFlow::Continue(past),
                None => ControlFlow::Break(number),
            }
        }
        Err(refusal) => ControlFlow::Break(put_record(out, refused_words(refusal))),
    }
}

// Puts the record of the step at `at`, and tells where the step leaves its caller: at the next step, or nowhere, with the number that its call returns. The end
// and a short value behind its name are read here. Each answer's words are put by themselves: one place for all of them would build the words in memory and
// copy them.
#[tactic(auto, using(crate::proofs::Putting::refused_put, crate::proofs::Putting::over_put, crate::proofs::Within::refused_unranged, crate::proofs::Within::refused_outside, stepping::proofs::Moves::moves_end, numbers::proofs::Outcomes::inside_order, numbers::proofs::Outcomes::inside_end))]
pub fn put_step(
    rules: Rules,
    map: &[u8],
    at: usize,
    end: usize,
    limit: usize,
    out: &mut [u8],
) -> ControlFlow<u64, usize>
    ensures value { result ≡ put_by (answer_at limit rules map.now at end) out.old }
    ensures out_after { out.new ≡ record_in (words (answer_at limit rules map.now at end)) out.old }
{
    if out_of_range(limit) {
        return ControlFlow::Break(put_record(out, refused_words(LIMIT_OUT_OF_RANGE)));
    }
    if outside(map, at, end) {
        return ControlFlow::Break(put_record(out, refused_words(OUTSIDE)));
    }
    if end <= at {
        return ControlFlow::Break(put_record(out, end_words(end)));
    }
    match read_name(rules, map, at, end) {
        Ok(name) => {
            if let Some(length) = short_value(map, name.next, end) {
                let past = length.body + length.size;
                put_record(
                    out,
                    bare_words(rules, at, name, map[name.next], length, past),
                );
                return ControlFlow::Continue(past);
            }
            put_long(rules, map, at, name, end, limit, out)
        }
        Err(refusal) => ControlFlow::Break(put_record(out, refused_words(refusal))),
    }
}
