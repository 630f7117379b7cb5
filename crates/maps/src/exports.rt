// The step as other languages call it, by the crate `maps_c`: a buffer is lent for the answer's record.
//
// `limit` is the most bytes that a value's annotations may have. This function, `ion_map_steps` of the crate `batches` and `ion_map_walked` of `walking` stand
// apart, so that each is compiled with all that it calls for each item put in its place. Its parameters, and the number that it returns, are C's.
ghost use Rattle.std.specs.Prelude.{◌≡◌};
ghost use Rattle.records.specs.Buffer.{record_in, returned};
ghost use Rattle.records.specs.Words.{words};
ghost use Rattle.maps.specs.Exported.{exported_step};

use crate::step::{part_rules, put_step};
use numbers::refusal::Reason;
use records::buffer::{RECORD_SIZE, put_record};
use records::words::refused_words;
use std::ops::ControlFlow;

// One step, by the part's kind: 0 a stream, 1 the body of a list or a sexp, 2 the body of a struct. Its record is put at the start of `out`; returned is 0 or
// the refusal's number. Whether the buffer has room is tested here first: a step that leaves its caller at a place tells no number.
#[tactic(auto, using(std::proofs::lemmas::Bool::Decides::nat_tests, crate::proofs::Within::by_rules, crate::proofs::Putting::returned_left), unfolding(records::specs::Buffer::answered, records::specs::Buffer::words_in))]
pub fn ion_map_step(
    map: &[u8],
    start: usize,
    end: usize,
    position: usize,
    kind: u64,
    limit: usize,
    out: &mut [u8],
) -> u64
    ensures value { result ≡ returned out.old (exported_step limit map.now start end position kind) }
    ensures out_after { out.new ≡ record_in (words (exported_step limit map.now start end position kind)) out.old }
{
    if out.len() < RECORD_SIZE {
        return Reason::RecordTooShort.number();
    }
    match part_rules(map, start, end, position, kind, limit) {
        Ok(rules) => match put_step(rules, map, position, end, limit, out) {
            ControlFlow::Continue(_) => 0,
            ControlFlow::Break(number) => number,
        },
        Err(refusal) => put_record(out, refused_words(refusal)),
    }
}
