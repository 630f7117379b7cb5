// The step, `ion_map_step`, as other languages call it: the function of the crate `maps`, under its clauses. The parameters are C's.
#![tactic(auto)]

ghost use Rattle.std.specs.Prelude.{◌≡◌};
ghost use Rattle.records.specs.Buffer.{record_in, returned};
ghost use Rattle.records.specs.Words.{words};
ghost use Rattle.maps.specs.Exported.{exported_step};

// One step, by the part's kind: 0 a stream, 1 the body of a list or a sexp, 2 the body of a struct. Its record is put at the start of `out`; returned is 0 or
// the refusal's number.
#[unsafe(no_mangle)]
pub extern "C" fn ion_map_step(
    map: &[u8],
    start: usize,
    end: usize,
    position: usize,
    kind: u64,
    limit: usize,
    out: &mut [u8],
) -> u64
    ensures value { result ≡ returned out.old (exported_step limit map.now start end position kind) }
    ensures out_after { out.new ≡ record_in (words (exported_step limit map.now start end position kind)) out.old }
{
    maps::exports::ion_map_step(map, start, end, position, kind, limit, out)
}
