// The functions that the change requests added, as other languages call them: those of the crate `additions`, each under its clauses. The parameters are C's.
#![tactic(auto)]

ghost use Rattle.std.specs.Prelude.{◌≡◌, length};
ghost use Rattle.records.specs.Buffer.{record_in, returned_by, returned, check_in, check_returned};
ghost use Rattle.additions.specs.Exported.{exported_bounded, bounded_words, exported_ids};
ghost use Rattle.packing.specs.Answers.{size_of, pack_of};
ghost use Rattle.additions.specs.Packed.{size_words, pack_words, packed_in};
ghost use Rattle.bodies.specs.Decimal.{decimal};
ghost use Rattle.values.specs.Timestamps.{read_timestamp};
ghost use Rattle.checking.specs.Check.{whole_check};
ghost use Rattle.records.specs.Words.{decimal_words, timestamp_words, check_words};
ghost use Rattle.symbols.specs.Text.{symbols_at, text_of, list_text};
ghost use Rattle.records.specs.SymbolWords.{text_words, symbols_words};

// One step past `most` pads at most: the record of `ion_map_step`, or one of kind 4.
#[unsafe(no_mangle)]
pub extern "C" fn ion_map_step_bounded(
    map: &[u8],
    start: usize,
    end: usize,
    position: usize,
    kind: u64,
    most: usize,
    limit: usize,
    out: &mut [u8],
) -> u64
    ensures value { result ≡ returned_by (bounded_words (exported_bounded limit most map.now start end position kind)) out.old }
    ensures out_after { out.new ≡ record_in (bounded_words (exported_bounded limit most map.now start end position kind)) out.old }
{
    additions::bounded::ion_map_step_bounded(map, start, end, position, kind, most, limit, out)
}

// How many bytes a map has once it is packed.
#[unsafe(no_mangle)]
pub extern "C" fn ion_map_packed_size(
    map: &[u8],
    limit: usize,
    deepest: usize,
    out: &mut [u8],
) -> u64
    ensures value { result ≡ returned out.old (size_of limit deepest map.now) }
    ensures out_after { out.new ≡ record_in (size_words (size_of limit deepest map.now)) out.old }
{
    additions::packed::ion_map_packed_size(map, limit, deepest, out)
}

// Packs a map into the buffer `packed`.
#[unsafe(no_mangle)]
pub extern "C" fn ion_map_pack(
    map: &[u8],
    limit: usize,
    deepest: usize,
    packed: &mut [u8],
    out: &mut [u8],
) -> u64
    ensures value { result ≡ returned out.old (pack_of limit deepest map.now (length packed.old)) }
    ensures packed_after { packed.new ≡ packed_in limit deepest map.now packed.old out.old }
    ensures out_after { out.new ≡ record_in (pack_words (pack_of limit deepest map.now (length packed.old))) out.old }
{
    additions::packed::ion_map_pack(map, limit, deepest, packed, out)
}

// How many field IDs the struct step at `position` in the part start..end began to read; 0 where it is refused with 68 or 50.
#[unsafe(no_mangle)]
pub extern "C" fn ion_map_ids(
    map: &[u8],
    start: usize,
    end: usize,
    position: usize,
    limit: usize,
) -> u64
    ensures { result ≡ exported_ids limit map.now start end position }
{
    additions::readings::ion_map_ids(map, start, end, position, limit)
}

// Splits the decimal whose body is start..end.
#[unsafe(no_mangle)]
pub extern "C" fn ion_map_decimal(map: &[u8], start: usize, end: usize, out: &mut [u8]) -> u64
    ensures value { result ≡ returned out.old (decimal map.now start end) }
    ensures out_after { out.new ≡ record_in (decimal_words start (decimal map.now start end)) out.old }
{
    additions::readings::ion_map_decimal(map, start, end, out)
}

// Reads the value at `position` of the part start..end, and what it says where it is a timestamp.
#[unsafe(no_mangle)]
pub extern "C" fn ion_map_timestamp(
    map: &[u8],
    start: usize,
    end: usize,
    position: usize,
    limit: usize,
    out: &mut [u8],
) -> u64
    ensures value { result ≡ returned out.old (read_timestamp limit map.now start end position) }
    ensures out_after { out.new ≡ record_in (timestamp_words (read_timestamp limit map.now start end position)) out.old }
{
    additions::readings::ion_map_timestamp(map, start, end, position, limit, out)
}

// Checks the whole map: every value's places, annotations and scalar, at every depth. Its record of sixteen words has the counts of what the map holds.
#[unsafe(no_mangle)]
pub extern "C" fn ion_map_check(map: &[u8], limit: usize, deepest: usize, out: &mut [u8]) -> u64
    ensures value { result ≡ check_returned out.old (whole_check limit deepest map.now) }
    ensures out_after { out.new ≡ check_in (check_words (whole_check limit deepest map.now)) out.old }
{
    additions::readings::ion_map_check(map, limit, deepest, out)
}

// The text of an ID at a place.
#[unsafe(no_mangle)]
pub extern "C" fn ion_map_text(
    map: &[u8],
    system: &[u8],
    start: usize,
    end: usize,
    place: usize,
    id: usize,
    limit: usize,
    out: &mut [u8],
) -> u64
    ensures value { result ≡ returned out.old (text_of limit map.now system.now start end place id) }
    ensures out_after { out.new ≡ record_in (text_words id (text_of limit map.now system.now start end place id)) out.old }
{
    additions::symbol_texts::ion_map_text(map, system, start, end, place, id, limit, out)
}

// The list of the table that rules at a place.
#[unsafe(no_mangle)]
pub extern "C" fn ion_map_symbols(
    map: &[u8],
    system: &[u8],
    start: usize,
    end: usize,
    place: usize,
    limit: usize,
    out: &mut [u8],
) -> u64
    ensures value { result ≡ returned out.old (symbols_at limit map.now system.now start end place) }
    ensures out_after { out.new ≡ record_in (symbols_words (symbols_at limit map.now system.now start end place)) out.old }
{
    additions::symbol_texts::ion_map_symbols(map, system, start, end, place, limit, out)
}

// The text of an ID under the table whose list has the body start..end, which is empty where no list rules.
#[unsafe(no_mangle)]
pub extern "C" fn ion_map_symbol_text(
    map: &[u8],
    system: &[u8],
    start: usize,
    end: usize,
    id: usize,
    limit: usize,
    out: &mut [u8],
) -> u64
    ensures value { result ≡ returned out.old (list_text limit map.now system.now start end id) }
    ensures out_after { out.new ≡ record_in (text_words id (list_text limit map.now system.now start end id)) out.old }
{
    additions::symbol_texts::ion_map_symbol_text(map, system, start, end, id, limit, out)
}
