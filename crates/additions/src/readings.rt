// The exported readings that the change requests added: of a decimal, of a timestamp, of the field IDs that a step begins to read, and the check of a whole
// map.
//
// `limit` is the most bytes that a value's annotations may have, `deepest` the depth at which a container is too deep. The parameters, and the numbers
// returned, are C's.
ghost use Rattle.std.specs.Prelude.{◌≡◌};
ghost use Rattle.bodies.specs.Decimal.{decimal};
ghost use Rattle.values.specs.Timestamps.{read_timestamp};
ghost use Rattle.checking.specs.Check.{whole_check};
ghost use Rattle.checking.specs.Read.{checked_read};
ghost use Rattle.records.specs.Buffer.{record_in, returned, check_in, check_returned};
ghost use Rattle.records.specs.Words.{decimal_words, timestamp_words, check_words};
ghost use Rattle.additions.specs.Exported.{exported_ids};

use bodies::decimal::read_decimal;
use checking::check::check_map;
use checking::counts::Counts;
use counting::counted::ids_begun;
use numbers::refusal::Refusal;
use records::buffer::put_record;
use records::check_record::{CHECK_WORDS, counts_words, refused_check_words};
use records::words::{decimal_words, timestamp_words};
use values::value::read_timestamp;

// How many field IDs the struct step at `position` in the part start..end began to read; 0 where it is refused with 68 or 50.
#[tactic(auto, unfolding(crate::specs::Exported::exported_ids))]
pub fn ion_map_ids(map: &[u8], start: usize, end: usize, position: usize, limit: usize) -> u64
    ensures { result ≡ exported_ids limit map.now start end position }
{
    if position < start {
        return 0;
    }
    // `as`: std has no `From` of a `usize` for a `u64`.
    ids_begun(map, position, end, limit) as u64
}

// Splits the decimal whose body is start..end.
#[tactic(auto, using(crate::proofs::Returned::decimal_returned))]
pub fn ion_map_decimal(map: &[u8], start: usize, end: usize, out: &mut [u8]) -> u64
    ensures value { result ≡ returned out.old (decimal map.now start end) }
    ensures out_after { out.new ≡ record_in (decimal_words start (decimal map.now start end)) out.old }
{
    put_record(out, decimal_words(start, read_decimal(map, start, end)))
}

// Reads the value at `position` of the part start..end, and what it says where it is a timestamp.
#[tactic(auto, using(crate::proofs::Returned::timestamp_returned))]
pub fn ion_map_timestamp(
    map: &[u8],
    start: usize,
    end: usize,
    position: usize,
    limit: usize,
    out: &mut [u8],
) -> u64
    ensures value { result ≡ returned out.old (read_timestamp limit map.now start end position) }
    ensures out_after { out.new ≡ record_in (timestamp_words (read_timestamp limit map.now start end position)) out.old }
{
    put_record(
        out,
        timestamp_words(read_timestamp(map, start, end, position, limit)),
    )
}

// The words of a check's answer. The arm of a refusal stands here too, as in the words of `records`.
fn check_words(checked: Result<Counts, Refusal>) -> [u64; CHECK_WORDS]
    ensures { result ≡ check_words (checked_read checked).outcome }
{
    match checked {
        Ok(counts) => counts_words(counts.places),
        Err(refusal) => refused_check_words(refusal),
    }
}

// Checks the whole map: every value's places, annotations and scalar, at every depth. Its record of sixteen words has the counts of what the map holds.
#[tactic(auto, using(crate::proofs::Returned::check_answered))]
pub fn ion_map_check(map: &[u8], limit: usize, deepest: usize, out: &mut [u8]) -> u64
    ensures value { result ≡ check_returned out.old (whole_check limit deepest map.now) }
    ensures out_after { out.new ≡ check_in (check_words (whole_check limit deepest map.now)) out.old }
{
    put_record(out, check_words(check_map(map, limit, deepest)))
}
