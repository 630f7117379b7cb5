// The exported run of steps: as many in one call as the lent buffer has room for. The parameters, a kind as a number among them, and what is returned are C's.
ghost use Rattle.std.specs.Prelude.{◌≡◌, false, ◌/◌, ◌≤◌, length};
ghost use Rattle.std.proofs.lemmas.List.Edits.{sets};
ghost use Rattle.framing.specs.Limits.{out_of_range};
ghost use Rattle.records.specs.Buffer.{bytes_of, record_size};
ghost use Rattle.batches.specs.Steps.{full_run, all_words, last_number, records_in, count_in, returned_last};
ghost use Rattle.batches.specs.Private.Run.{step_run};

use maps::step::{part_rules, put_step};
use numbers::refusal::Reason;
use records::buffer::{RECORD_SIZE, put_record};
use records::words::refused_words;
use std::ops::ControlFlow;
use stepping::cursor::Rules;

// How many records were put, and the number of the last answer. Both are returned to C: the count is no flag.
#[derive(Clone, Copy)]
struct Steps {
    count: usize,
    number: u64,
}

// Puts the records of steps from `position` on, as many as there is room for. Not over `chunks_exact_mut`: the library does not say what a buffer holds once
// the parts that it lends were written.
fn put_steps(
    rules: Rules,
    map: &[u8],
    position: usize,
    end: usize,
    limit: usize,
    out: &mut [u8],
) -> Steps
    requires { (out_of_range limit ≡ false) × (position ≤ end) × (end ≤ length map.now) }
    ensures count_value { result.count ≡ length (step_run limit (length out.old / record_size) rules map.now position end) }
    ensures number_value { result.number ≡ last_number 0 (step_run limit (length out.old / record_size) rules map.now position end) }
    ensures out_after { out.new ≡ sets out.old 0 (bytes_of (all_words (step_run limit (length out.old / record_size) rules map.now position end))) }
{
    let room = out.len() / RECORD_SIZE;
    let mut at = position;
    for i in 0..room {
        let from = i * RECORD_SIZE;
        let to = from + RECORD_SIZE;
        match put_step(rules, map, at, end, limit, &mut out[from..to]) {
            ControlFlow::Continue(next) => {
                at = next;
            }
            ControlFlow::Break(number) => {
                return Steps {
                    count: i + 1,
                    number,
                };
            }
        }
    }
    Steps {
        count: room,
        number: 0,
    }
}

// As many steps as `out` has room for, one record after the other, up to an end or a refusal. `count` is how many records were put. Whether there is room for
// one is tested here first, since the count is 0 then.
#[tactic(auto, using(std::proofs::lemmas::Bool::Decides::nat_tests), unfolding(crate::specs::Steps::returned_last, crate::specs::Steps::records_in, crate::specs::Steps::count_in))]
pub fn ion_map_steps(
    map: &[u8],
    start: usize,
    end: usize,
    position: usize,
    kind: u64,
    limit: usize,
    out: &mut [u8],
    count: &mut u64,
) -> u64
    ensures value { result ≡ returned_last (full_run limit out.old map.now start end position kind) out.old }
    ensures out_after { out.new ≡ records_in (full_run limit out.old map.now start end position kind) out.old }
    ensures count_after { count.new ≡ count_in (full_run limit out.old map.now start end position kind) out.old }
{
    if out.len() < RECORD_SIZE {
        *count = 0;
        return Reason::RecordTooShort.number();
    }
    match part_rules(map, start, end, position, kind, limit) {
        Ok(rules) => {
            let steps = put_steps(rules, map, position, end, limit, out);
            // `as`: std has no `From` of a `usize` for a `u64`.
            *count = steps.count as u64;
            steps.number
        }
        Err(refusal) => {
            *count = 1;
            put_record(out, refused_words(refusal))
        }
    }
}
