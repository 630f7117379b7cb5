// The readings of what a step hands out, as other languages call them: the functions of the crate `readings`, each under its clauses. The parameters are C's.
#![tactic(auto)]

ghost use Rattle.std.specs.Prelude.{◌≡◌};
ghost use Rattle.values.specs.Scalars.{step_in, read_scalar, read_with_value};
ghost use Rattle.records.specs.Buffer.{record_in, returned};
ghost use Rattle.records.specs.Words.{annotation_words, body_words, reading_words, number_words};
ghost use Rattle.readings.specs.Exported.{exported_annotation, exported_body, exported_number};

#[unsafe(no_mangle)]
pub extern "C" fn ion_map_annotation(
    map: &[u8],
    start: usize,
    end: usize,
    position: usize,
    out: &mut [u8],
) -> u64
    ensures value { result ≡ returned out.old (exported_annotation map.now start end position) }
    ensures out_after { out.new ≡ record_in (annotation_words position (exported_annotation map.now start end position)) out.old }
{
    readings::exports::ion_map_annotation(map, start, end, position, out)
}

#[unsafe(no_mangle)]
pub extern "C" fn ion_map_step_in(
    map: &[u8],
    start: usize,
    end: usize,
    position: usize,
    limit: usize,
    out: &mut [u8],
) -> u64
    ensures value { result ≡ returned out.old (step_in limit map.now start end position) }
    ensures out_after { out.new ≡ record_in (body_words (exported_body limit map.now start end position)) out.old }
{
    readings::exports::ion_map_step_in(map, start, end, position, limit, out)
}

#[unsafe(no_mangle)]
pub extern "C" fn ion_map_scalar(
    map: &[u8],
    start: usize,
    end: usize,
    position: usize,
    limit: usize,
    out: &mut [u8],
) -> u64
    ensures value { result ≡ returned out.old (read_scalar limit map.now start end position) }
    ensures out_after { out.new ≡ record_in (reading_words (read_with_value limit map.now start end position)) out.old }
{
    readings::exports::ion_map_scalar(map, start, end, position, limit, out)
}

#[unsafe(no_mangle)]
pub extern "C" fn ion_map_number(
    map: &[u8],
    start: usize,
    end: usize,
    position: usize,
    form: u64,
    size: usize,
    out: &mut [u8],
) -> u64
    ensures value { result ≡ returned out.old (exported_number map.now start end position form size) }
    ensures out_after { out.new ≡ record_in (number_words position (exported_number map.now start end position form size)) out.old }
{
    readings::exports::ion_map_number(map, start, end, position, form, size, out)
}
