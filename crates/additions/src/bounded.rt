// The exported bounded step: it comes back behind a largest number of pads. Its parameters, a kind as a number among them, and the number returned are C's,
// and are handed on as they came.
ghost use Rattle.std.specs.Prelude.{◌≡◌};
ghost use Rattle.counting.specs.Read.{bounded_read};
ghost use Rattle.records.specs.Buffer.{record_in, returned_by};
ghost use Rattle.additions.specs.Exported.{exported_bounded, bounded_words};

use counting::counted::{Bounded, bounded_at};
use framing::limits::out_of_range;
use numbers::refusal::{LIMIT_OUT_OF_RANGE, OUTSIDE};
use records::buffer::{RECORD_WORDS, put_record};
use records::words::{item_words, more_words, refused_words};
use stepping::cursor::Rules;

// The words of a bounded step's answer.
fn bounded_words(answer: Bounded) -> [u64; RECORD_WORDS]
    ensures { result ≡ bounded_words (bounded_read answer) }
{
    match answer {
        Bounded::Reached(counted) => item_words(counted.item),
        Bounded::More { pads, at } => more_words(pads, at),
    }
}

// The bounded step at `position` in the part start..end, by the part's kind.
#[tactic(auto, unfolding(crate::specs::Exported::exported_bounded))]
fn bounded_by_kind(
    map: &[u8],
    start: usize,
    end: usize,
    position: usize,
    kind: u64,
    most: usize,
    limit: usize,
) -> [u64; RECORD_WORDS]
    ensures { result ≡ bounded_words (exported_bounded limit most map.now start end position kind) }
{
    if out_of_range(limit) {
        return refused_words(LIMIT_OUT_OF_RANGE);
    }
    match Rules::try_from(kind) {
        Ok(rules) if start <= position => {
            bounded_words(bounded_at(rules, map, position, end, most, limit))
        }
        _ => refused_words(OUTSIDE),
    }
}

// One step past `most` pads at most: the record of `ion_map_step`, or one of kind 4.
pub fn ion_map_step_bounded(
    map: &[u8],
    start: usize,
    end: usize,
    position: usize,
    kind: u64,
    most: usize,
    limit: usize,
    out: &mut [u8],
) -> u64
    ensures value { result ≡ returned_by (bounded_words (exported_bounded limit most map.now start end position kind)) out.old }
    ensures out_after { out.new ≡ record_in (bounded_words (exported_bounded limit most map.now start end position kind)) out.old }
{
    put_record(
        out,
        bounded_by_kind(map, start, end, position, kind, most, limit),
    )
}
