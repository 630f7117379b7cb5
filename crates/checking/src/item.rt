// One item of a map that is checked: what is read of a value, and the step to it.
ghost use Rattle.std.specs.Prelude.{◌≡◌, false, ◌≤◌, length, OnOk};
ghost use Rattle.numbers.specs.Outcome.{and_then};
ghost use Rattle.framing.specs.Limits.{out_of_range};
ghost use Rattle.framing.specs.Read.{spans_of};
ghost use Rattle.stepping.specs.Answers.{found};
ghost use Rattle.stepping.specs.Read.{places_of, item_read};
ghost use Rattle.stepping.specs.Runs.{cursor};
ghost use Rattle.values.specs.Read.{scalar_read};
ghost use Rattle.checking.specs.Reading.{read_ids, read_body, read_item};
ghost use Rattle.checking.specs.Counts.{pads, counting};
ghost use Rattle.checking.specs.Read.{done_read};
ghost use Rattle.checking.specs.Private.Items.{start_of, Fits};

use crate::counts::{PADS, Progress};
use bodies::decimal::read_decimal;
use counting::counted::count_at;
use framing::annotations_iterator::read_annotation;
use framing::encoded_value::EncodedValue;
use numbers::refusal::Refusal;
use stepping::cursor::{Item, Rules};
use timestamps::timestamp::read_timestamp;
use values::value::{Scalar, read_placed};

// The map that is checked, and the most bytes that its values' annotations may have: what a call of each level has in one place.
// Apart from `Progress`, which the calls change: they only read this.
#[derive(Clone, Copy)]
pub(crate) struct Map<'a> {
    pub(crate) s: &'a [u8],
    pub(crate) limit: usize,
    ghost in_range: { out_of_range limit ≡ false },
}

// Reads each annotation ID of the bytes start..end.
#[tactic(auto, using(crate::proofs::Ids::ids))]
pub fn read_ids(s: &[u8], start: usize, end: usize) -> Result<(), Refusal>
    ensures { done_read result ≡ read_ids s.now start end }
{
    let mut at = start;
    // No `for`: an ID takes as many bytes as it has.
    while at < end {
        let Some(annotation) = read_annotation(s, at, end)? else {
            return Ok(());
        };
        at = annotation.next;
    }
    Ok(())
}

// Reads what a scalar's own reading leaves: a decimal, or a timestamp whose descriptor stands at `descriptor`.
pub fn read_body(
    s: &[u8],
    descriptor: usize,
    scalar: Result<Scalar, Refusal>,
) -> Result<(), Refusal>
    ensures { done_read result ≡ and_then (scalar_read scalar) (read_body s.now descriptor) }
{
    match scalar? {
        Scalar::Decimal(span) => {
            read_decimal(s, span.start, span.end)?;
            Ok(())
        }
        Scalar::Timestamp(span) => {
            read_timestamp(s, span.start, span.end, descriptor)?;
            Ok(())
        }
        _ => Ok(()),
    }
}

// Reads a value: its annotation IDs, then its scalar.
#[tactic(auto, using(crate::proofs::Scalars::contents), unfolding(crate::specs::Reading::read_item))]
pub(crate) fn read_item(s: &[u8], value: EncodedValue) -> Result<(), Refusal>
    requires { (value.body ≤ value.end) × (value.end ≤ length s.now) }
    ensures { done_read result ≡ read_item s.now (spans_of value) }
{
    read_ids(s, value.annotations, value.descriptor)?;
    read_body(s, value.descriptor, read_placed(s, value))
}

// Where an item begins: an end where its part ends.
fn start_of(item: Item) -> usize
    ensures { result ≡ start_of (places_of item) }
{
    match item {
        Item::End { position } => position,
        Item::Marker { start, .. } | Item::Field { start, .. } => start,
        Item::Value(value) => value.start,
    }
}

// What the next step in the part that ends at `end` answers: the check goes on to where that begins, with the pads that the step skips counted.
#[tactic(auto, using(crate::proofs::Places::found_in), unfolding(counting::specs::Counted::counted))]
pub(crate) fn meet(
    map: &Map,
    progress: &mut Progress,
    rules: Rules,
    end: usize,
) -> Result<Item, Refusal>
    requires { (progress.old.at ≤ end) × (end ≤ length map.now.s.now) }
    ensures answers { item_read result ≡ (found map.now.limit rules map.now.s.now (cursor progress.old.at end)).answer }
    ensures counts { OnOk result (progress.new.counts.places ≡ counting pads (length (found map.now.limit rules map.now.s.now (cursor progress.old.at end)).pads) progress.old.counts.places) }
    ensures onward { progress.old.at ≤ progress.new.at }
    ensures fits { Fits map.now.s.now progress.new.at end (item_read result) }
{
    let step = count_at(rules, map.s, progress.at, end, map.limit);
    let item = step.item?;
    progress.pass(PADS, step.pads, start_of(item));
    Ok(item)
}
