// Many steps in a call, `ion_map_steps`, as other languages call them: the function of the crate `batches`, under its clauses. The parameters are C's.
#![tactic(auto)]

ghost use Rattle.std.specs.Prelude.{◌≡◌};
ghost use Rattle.batches.specs.Steps.{full_run, records_in, count_in, returned_last};

// As many steps as `out` has room for, one record after the other, up to an end or a refusal. `count` is how many records were put.
#[unsafe(no_mangle)]
pub extern "C" fn ion_map_steps(
    map: &[u8],
    start: usize,
    end: usize,
    position: usize,
    kind: u64,
    limit: usize,
    out: &mut [u8],
    count: &mut u64,
) -> u64
    ensures value { result ≡ returned_last (full_run limit out.old map.now start end position kind) out.old }
    ensures out_after { out.new ≡ records_in (full_run limit out.old map.now start end position kind) out.old }
    ensures count_after { count.new ≡ count_in (full_run limit out.old map.now start end position kind) out.old }
{
    batches::steps::ion_map_steps(map, start, end, position, kind, limit, out, count)
}
