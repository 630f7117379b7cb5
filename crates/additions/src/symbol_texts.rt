// The exported functions on symbols: the text of an ID at a place, and in two stages the list of the table that rules there and an ID's text under it.
//
// A place is where an item of the stream start..end begins, or its end. `system` is the nine texts of the system, joined. `limit` is the most bytes that a
// value's annotations may have. Each function puts its record at the start of `out` and returns 0 or the refusal's number. The parameters are C's.
ghost use Rattle.std.specs.Prelude.{◌≡◌};
ghost use Rattle.symbols.specs.Text.{symbols_at, text_of, list_text};
ghost use Rattle.records.specs.Buffer.{record_in, returned};
ghost use Rattle.records.specs.SymbolWords.{text_words, symbols_words};

use records::buffer::put_record;
use records::symbol_words::{symbols_words, text_words};
use symbols::symbols::{symbol_text, symbols_at, text_of};

// The text of an ID at a place.
#[tactic(auto, using(crate::proofs::Returned::text_returned))]
pub fn ion_map_text(
    map: &[u8],
    system: &[u8],
    start: usize,
    end: usize,
    place: usize,
    id: usize,
    limit: usize,
    out: &mut [u8],
) -> u64
    ensures value { result ≡ returned out.old (text_of limit map.now system.now start end place id) }
    ensures out_after { out.new ≡ record_in (text_words id (text_of limit map.now system.now start end place id)) out.old }
{
    put_record(
        out,
        text_words(id, text_of(map, system, start, end, place, id, limit)),
    )
}

// The list of the table that rules at a place.
#[tactic(auto, using(crate::proofs::Returned::symbols_returned))]
pub fn ion_map_symbols(
    map: &[u8],
    system: &[u8],
    start: usize,
    end: usize,
    place: usize,
    limit: usize,
    out: &mut [u8],
) -> u64
    ensures value { result ≡ returned out.old (symbols_at limit map.now system.now start end place) }
    ensures out_after { out.new ≡ record_in (symbols_words (symbols_at limit map.now system.now start end place)) out.old }
{
    put_record(
        out,
        symbols_words(symbols_at(map, system, start, end, place, limit)),
    )
}

// The text of an ID under the table whose list has the body start..end, which is empty where no list rules.
#[tactic(auto, using(crate::proofs::Returned::text_returned))]
pub fn ion_map_symbol_text(
    map: &[u8],
    system: &[u8],
    start: usize,
    end: usize,
    id: usize,
    limit: usize,
    out: &mut [u8],
) -> u64
    ensures value { result ≡ returned out.old (list_text limit map.now system.now start end id) }
    ensures out_after { out.new ≡ record_in (text_words id (list_text limit map.now system.now start end id)) out.old }
{
    put_record(
        out,
        text_words(id, symbol_text(map, system, start, end, id, limit)),
    )
}
