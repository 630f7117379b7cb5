// Checks a whole map, and counts what it holds: a value by checking its body, and a body by checking its values.
//
// `limit` is the most bytes that a value's annotations may have, `deepest` the depth at which a container is too deep.
ghost use Rattle.std.specs.Prelude.{◌≡◌, ◌≤◌, length, OnOk};
ghost use Rattle.framing.specs.Limits.{out_of_range};
ghost use Rattle.framing.specs.Read.{spans_of};
ghost use Rattle.checking.specs.Check.{value_check};
ghost use Rattle.checking.specs.Body.{limited_body};
ghost use Rattle.checking.specs.Answers.{check_of};
ghost use Rattle.checking.specs.Read.{done_read, verdict_read, checked_read};
ghost use Rattle.checking.specs.Private.Items.{Placed};
ghost use Rattle.checking.specs.Private.Whole.{full};

use crate::counts::{Counts, MARKERS, Progress, place_of};
use crate::item::{Map, meet, read_item};
use framing::encoded_value::EncodedValue;
use framing::limits::out_of_range;
use numbers::refusal::{LIMIT_OUT_OF_RANGE, Reason, Refusal};
use stepping::cursor::{Item, Rules};
use values::value::open;
use walking::walk::Limits;

// How much deeper a container's own values may be at least, for it to be entered.
const LEAST_ROOM: usize = 1;

// Checks the part that ends at `end`, whose containers may be `room` deeper: its values in order.
#[cycle(check_part_check_value)]
#[tactic(auto, using(crate::proofs::Unrolled::unrolled))]
fn check_part(
    map: &Map,
    progress: &mut Progress,
    rules: Rules,
    room: usize,
    end: usize,
) -> Result<(), Refusal>
    requires { (progress.old.at ≤ end) × (end ≤ length map.now.s.now) }
    ensures checks { verdict_read result progress.new.counts.places ≡ full map.now.limit map.now.s.now rules room end progress.old.at progress.old.counts.places }
    ensures passed { OnOk result (progress.new.at ≡ end) }
{
    loop {
        match meet(map, progress, rules, end)? {
            Item::End { .. } => return Ok(()),
            Item::Marker { end: past, .. } => progress.pass(MARKERS, 1, past),
            Item::Value(value) | Item::Field { value, .. } => {
                check_value(map, progress, room, value)?;
            }
        }
    }
}

// Checks a value: what is read of it, and then its inside.
#[cycle(check_part_check_value)]
#[tactic(auto, using(crate::proofs::Scalars::heads), unfolding(crate::specs::Check::value_check))]
fn check_value(
    map: &Map,
    progress: &mut Progress,
    room: usize,
    value: EncodedValue,
) -> Result<(), Refusal>
    requires { (progress.old.at ≤ value.descriptor) × Placed map.now.s.now (spans_of value) }
    ensures checks { verdict_read result progress.new.counts.places ≡ value_check map.now.s.now (full map.now.limit map.now.s.now) room (spans_of value) progress.old.counts.places }
    ensures passed { OnOk result (progress.new.at ≡ value.end) }
{
    read_item(map.s, value)?;
    // By the byte's halves, as in `values`: a descriptor would be made with its kind for each test.
    let place = place_of(value.byte / 16);
    let Ok(body) = open(value) else {
        progress.pass(place, 1, value.end);
        return Ok(());
    };
    if room < LEAST_ROOM {
        return Err(Refusal {
            reason: Reason::TooDeep,
            position: value.descriptor,
        });
    }
    progress.pass(place, 1, value.body);
    check_part(map, progress, body.rules, room - 1, value.end)
}

// Checks a whole map: what it holds, or the first refusal.
#[tactic(auto, using(walking::proofs::Depths::in_limit, crate::proofs::Unrolled::whole))]
pub fn check_map(s: &[u8], limit: usize, deepest: usize) -> Result<Counts, Refusal>
    ensures { checked_read result ≡ check_of limit deepest s.now }
{
    let Some(limits) = Limits::new(limit, deepest) else {
        return Err(LIMIT_OUT_OF_RANGE);
    };
    let map = Map {
        s,
        limit: limits.bytes,
    };
    let mut progress = Progress::none();
    check_part(&map, &mut progress, Rules::Stream, limits.depth, s.len())?;
    Ok(progress.counts)
}

// Checks a body by itself, whose containers may be `room` deeper.
#[tactic(auto, using(crate::proofs::Unrolled::body), unfolding(crate::specs::Body::limited_body, crate::specs::Body::body_check))]
pub fn check_body(s: &[u8], rules: Rules, room: usize, limit: usize) -> Result<(), Refusal>
    ensures { done_read result ≡ limited_body limit room rules s.now }
{
    if out_of_range(limit) {
        return Err(LIMIT_OUT_OF_RANGE);
    }
    let map = Map { s, limit };
    let mut progress = Progress::none();
    check_part(&map, &mut progress, rules, room, s.len())
}
