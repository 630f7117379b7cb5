// A step that counts the pads that it passes and the names that it begins to read, and comes back behind as many pads as it may pass.
//
// A part's rules, its slice, a position and the limit are parameters of their own, as in `stepping`.
ghost use Rattle.std.specs.Prelude.{◌≡◌};
ghost use Rattle.numbers.specs.Refusals.{number_of};
ghost use Rattle.counting.specs.Pads.{begins_pad};
ghost use Rattle.counting.specs.Counted.{unbegun, counted, ids_begun};
ghost use Rattle.counting.specs.Bounded.{reached, bounded, bounded_after, bounded_step_of};
ghost use Rattle.counting.specs.Read.{counted_read, bounded_read, bounded_step_read};

use framing::binary_buffer::read_nop_pad;
use framing::limits::out_of_range;
use numbers::binary_buffer::outside;
use numbers::refusal::{Reason, Refusal};
use numbers::type_descriptor::FIRST_NO_PAD;
use stepping::cursor::{Cursor, Item, Rules, after_item, item_from, read_name};

// What a step answers, how many pads it passed, and how many names it began to read: in a struct's body these are field IDs.
#[derive(Clone, Copy, Debug, PartialEq, Eq)]
pub struct Counted {
    pub item: Result<Item, Refusal>,
    pub pads: usize,
    pub names: usize,
}

// What a bounded step answers. Both cases tell something, so an `Option` would be no plainer, and `More` is no refusal, so no `Result`.
#[derive(Clone, Copy, Debug, PartialEq, Eq)]
pub enum Bounded {
    // The answer of the step, which met its bound nowhere.
    Reached(Counted),
    // As many pads were passed as may be, and another pad's descriptor comes next, in a struct after its field ID: the position is behind the last pad passed.
    More { pads: usize, at: usize },
}

// An answer, and the cursor for the next step: the one given where the step is refused.
#[derive(Clone, Copy, Debug, PartialEq, Eq)]
pub struct BoundedStep {
    pub answer: Bounded,
    pub next: Cursor,
}

// More pads than a part can have.
const NO_BOUND: usize = usize::MAX;

// Whether a byte is a pad's descriptor.
#[tactic(auto, using(crate::proofs::PadReading::begins))]
fn begins_pad(byte: u8) -> bool
    ensures { result ≡ begins_pad byte }
{
    byte < FIRST_NO_PAD
}

// A step that is refused before anything is read. By its reason: `numbers` names two of the three refusals that are given so, and none has counts.
fn refused_at_once(reason: Reason) -> Bounded
    ensures { bounded_read result ≡ reached (unbegun (number_of reason)) }
{
    Bounded::Reached(Counted {
        item: Err(Refusal {
            reason,
            position: 0,
        }),
        pads: 0,
        names: 0,
    })
}

// The cursor that an answer leaves.
fn after_bounded(cursor: Cursor, answer: Bounded) -> Cursor
    ensures { result ≡ bounded_after cursor (bounded_read answer) }
{
    match answer {
        Bounded::Reached(counted) => after_item(cursor, counted.item),
        Bounded::More { at, .. } => Cursor {
            at,
            end: cursor.end,
        },
    }
}

// The step at `at` in the part that ends at `end`, with its counts, past `most` pads at most: a name is counted where it is read, and a pad where it is passed.
#[tactic(auto, using(crate::proofs::Behind::bounded_laws))]
pub fn bounded_at(
    rules: Rules,
    s: &[u8],
    at: usize,
    end: usize,
    most: usize,
    limit: usize,
) -> Bounded
    ensures { bounded_read result ≡ bounded limit most rules s.now (record { at = at; end = end }) }
{
    if out_of_range(limit) {
        return refused_at_once(Reason::LimitOutOfRange);
    }
    if outside(s, at, end) {
        return refused_at_once(Reason::Outside);
    }
    if most == 0 {
        return refused_at_once(Reason::NoPadsAllowed);
    }
    let mut from = at;
    let mut pads = 0;
    let mut names = 0;
    // No index is counted: behind a pad it goes on where the pad ends.
    while from < end {
        names += 1;
        // No `?`: the counts go with a refusal.
        let name = match read_name(rules, s, from, end) {
            Ok(name) => name,
            Err(refusal) => {
                return Bounded::Reached(Counted {
                    item: Err(refusal),
                    pads,
                    names,
                });
            }
        };
        if !begins_pad(s[name.next]) {
            let item = item_from(rules, s, from, name, end, limit);
            return Bounded::Reached(Counted { item, pads, names });
        }
        if pads == most {
            return Bounded::More { pads, at: from };
        }
        match read_nop_pad(s, name.next, end) {
            Ok(pad) => {
                pads += 1;
                from = pad.end;
            }
            Err(refusal) => {
                return Bounded::Reached(Counted {
                    item: Err(refusal),
                    pads,
                    names,
                });
            }
        }
    }
    let item = Ok(Item::End { position: end });
    Bounded::Reached(Counted { item, pads, names })
}

// A bounded step: its answer, and the cursor that it leaves.
#[tactic(auto, unfolding(crate::specs::Bounded::bounded_step_of))]
pub fn next_bounded(
    rules: Rules,
    s: &[u8],
    cursor: Cursor,
    most: usize,
    limit: usize,
) -> BoundedStep
    ensures { bounded_step_read result ≡ bounded_step_of limit most rules s.now cursor }
{
    let answer = bounded_at(rules, s, cursor.at, cursor.end, most, limit);
    let next = after_bounded(cursor, answer);
    BoundedStep { answer, next }
}

// The step at `at` with its counts, past all pads: no part has more of them than `NO_BOUND`.
#[tactic(auto, using(crate::proofs::Repeating::unbounded))]
pub fn count_at(rules: Rules, s: &[u8], at: usize, end: usize, limit: usize) -> Counted
    ensures { counted_read result ≡ counted limit rules s.now (record { at = at; end = end }) }
{
    match bounded_at(rules, s, at, end, NO_BOUND, limit) {
        Bounded::Reached(counted) => counted,
        Bounded::More { .. } => unreachable!(),
    }
}

// How many field IDs the step at `at` in a struct's body began to read.
pub fn ids_begun(s: &[u8], at: usize, end: usize, limit: usize) -> usize
    ensures { result ≡ ids_begun limit s.now (record { at = at; end = end }) }
{
    count_at(Rules::Fields, s, at, end, limit).names
}
