// The entries on symbols: the text of an ID at a place of a stream.
//
// A place is where a top-level item begins, or the stream's end. `system` is the nine texts of the system, joined. `limit` is the most bytes that a value's
// annotations may have. They are parameters and no struct of them, since the exports to C hand them on as they came.
ghost use Rattle.std.specs.Prelude.{◌≡◌};
ghost use Rattle.numbers.specs.Outcome.{gives};
ghost use Rattle.numbers.specs.Read.{outcome};
ghost use Rattle.symbols.specs.Text.{lent_right, symbols_at, text_of, list_text, text_part};
ghost use Rattle.symbols.specs.Read.{symbols_read, text_read};

use crate::symbol_table::{own_list, ruling_at, text_in};
use crate::system_texts::is_system;
use framing::limits::out_of_range;
use numbers::binary_buffer::outside;
use numbers::refusal::{LIMIT_OUT_OF_RANGE, OUTSIDE, Reason, Refusal};
use values::value::Span;

// Where a symbol's text lies: nowhere, in the map, or in the system's texts. Each case tells something: no plainer as an Option.
#[derive(Clone, Copy, Debug, PartialEq, Eq)]
pub enum SymbolText {
    Unknown,
    Own(Span),
    System(Span),
}

// The tests before all else: the system's texts, and the limit.
fn lent_right(system: &[u8], limit: usize) -> Result<(), Refusal>
    ensures { outcome (λ x. x) result ≡ lent_right limit system.now (gives tt) }
{
    if !is_system(system) {
        return Err(Refusal {
            reason: Reason::NotTheSystemText,
            position: 0,
        });
    }
    if out_of_range(limit) {
        return Err(LIMIT_OUT_OF_RANGE);
    }
    Ok(())
}

// The list of the table that rules at a place of the stream start..end, by its body; none where no list gives texts. For many IDs it is found once.
#[tactic(auto, using(values::proofs::Tests::tests), unfolding(crate::specs::Text::symbols_at))]
pub fn symbols_at(
    map: &[u8],
    system: &[u8],
    start: usize,
    end: usize,
    place: usize,
    limit: usize,
) -> Result<Option<Span>, Refusal>
    ensures { symbols_read result ≡ symbols_at limit map.now system.now start end place }
{
    lent_right(system, limit)?;
    if outside(map, start, place) || outside(map, place, end) {
        return Err(OUTSIDE);
    }
    let table = ruling_at(map, start, end, place, limit)?;
    own_list(map, table, limit)
}

// The text of an ID under the table whose list has the body start..end, which is empty where no list rules.
#[tactic(auto, using(values::proofs::Tests::tests), unfolding(crate::specs::Text::list_text))]
pub fn symbol_text(
    map: &[u8],
    system: &[u8],
    start: usize,
    end: usize,
    id: usize,
    limit: usize,
) -> Result<SymbolText, Refusal>
    ensures { text_read result ≡ list_text limit map.now system.now start end id }
{
    lent_right(system, limit)?;
    if outside(map, start, end) {
        return Err(OUTSIDE);
    }
    text_in(map, id, Some(Span { start, end }), limit)
}

// The text of an ID at a place of the stream start..end.
#[tactic(auto, using(values::proofs::Tests::tests), unfolding(crate::specs::Text::text_of))]
pub fn text_of(
    map: &[u8],
    system: &[u8],
    start: usize,
    end: usize,
    place: usize,
    id: usize,
    limit: usize,
) -> Result<SymbolText, Refusal>
    ensures { text_read result ≡ text_of limit map.now system.now start end place id }
{
    let list = symbols_at(map, system, start, end, place, limit)?;
    text_in(map, id, list, limit)
}

// The bytes of that text, as a part of one of the two slices: none where it is unknown or refused.
#[tactic(auto, using(crate::proofs::Told::parts_told, numbers::proofs::Parts::part_taken), unfolding(crate::specs::Text::text_part))]
pub fn text_part<'a>(
    map: &'a [u8],
    system: &'a [u8],
    start: usize,
    end: usize,
    place: usize,
    id: usize,
    limit: usize,
) -> &'a [u8]
    ensures { result.now ≡ text_part limit map.now system.now start end place id }
{
    match text_of(map, system, start, end, place, id, limit) {
        Ok(SymbolText::Own(text)) => &map[text.start..text.end],
        Ok(SymbolText::System(text)) => &system[text.start..text.end],
        Ok(SymbolText::Unknown) | Err(_) => &map[0..0],
    }
}
