// Symbol tables: which one rules at a place of a stream, which list gives its own texts, and the entry of that list.
//
// A table and a list are each given by the body of the value: `None` where the system's texts rule alone, and where no list gives texts. The stream's places
// are parameters here as they are of the entries.
ghost use Rattle.std.specs.Prelude.{◌≡◌, ◌<◌};
ghost use Rattle.numbers.specs.Outcome.{gives};
ghost use Rattle.numbers.specs.Read.{outcome};
ghost use Rattle.framing.specs.Read.{spans_of};
ghost use Rattle.symbols.specs.Text.{is_table, ruling_at, list_of, own_list, system_text, entry_text, own_text, text_in, table, listed};
ghost use Rattle.symbols.specs.Read.{own_read, symbols_read, text_told, text_read};
ghost use Rattle.symbols.specs.Private.Turned.{table_read, ruling_read, ruled_read, at_place};

use crate::symbols::SymbolText;
use bodies::utf8::is_utf8;
use framing::annotations_iterator::read_annotation;
use framing::encoded_value::EncodedValue;
use numbers::refusal::{OUTSIDE, Reason, Refusal};
use stepping::cursor::{Item, Rules, item_at};
use values::value::{Span, is_typed};

// The type codes of a string, a list and a struct: the document's own numbers.
const STRING: u8 = 8;

const LIST: u8 = 11;

const STRUCT: u8 = 13;

// The ID of $ion_symbol_table, which is a symbol table's first annotation, and those of the fields imports and symbols.
const SYMBOL_TABLE: usize = 3;

const IMPORTS: usize = 6;

const SYMBOLS: usize = 7;

// The first ID of a table's own, and where each of the nine texts below it begins among the system's, and the last one's end.
const FIRST_OWN_ID: usize = 10;

// A place of the texts is looked up and not summed: this table and the joined texts (system_texts.rt) are proved to be those of one list of nine.
const STARTS: [usize; 10] = [0, 4, 12, 29, 33, 40, 47, 54, 60, 84];

// Whether a value is a symbol table.
#[tactic(auto, using(values::proofs::Tests::tests), unfolding(crate::specs::Text::is_table, crate::specs::Text::is_typed))]
fn is_table(s: &[u8], value: EncodedValue) -> Result<bool, Refusal>
    ensures { table_read result ≡ is_table s.now (spans_of value) }
{
    if !is_typed(value, STRUCT) {
        return Ok(false);
    }
    match read_annotation(s, value.annotations, value.descriptor)? {
        Some(annotation) => Ok(annotation.id == SYMBOL_TABLE),
        None => Ok(false),
    }
}

// Whether an item of the stream, start..end, is the one at a place: refused where the place is inside it.
#[tactic(auto, using(values::proofs::Tests::tests))]
fn is_at(place: usize, start: usize, end: usize) -> Result<bool, Refusal>
    ensures { outcome (λ t. t) result ≡ at_place place start end }
{
    if start == place {
        return Ok(true);
    }
    if place < end {
        return Err(OUTSIDE);
    }
    Ok(false)
}

// What rules at a place of the stream start..end.
#[tactic(auto, using(crate::proofs::Steps::on_the_stream), unfolding(crate::specs::Text::on_stream, crate::specs::Text::ruling_at))]
pub fn ruling_at(
    s: &[u8],
    start: usize,
    end: usize,
    place: usize,
    limit: usize,
) -> Result<Option<Span>, Refusal>
    ensures { ruled_read result ≡ ruling_at limit s.now start end place }
{
    let mut at = start;
    let mut table = None;
    loop {
        match item_at(Rules::Stream, s, at, end, limit)? {
            Item::End { position } if position == place => return Ok(table),
            Item::End { .. } | Item::Field { .. } => return Err(OUTSIDE),
            Item::Marker {
                start: from,
                end: behind,
                ..
            } => {
                if is_at(place, from, behind)? {
                    return Ok(table);
                }
                table = None;
                at = behind;
            }
            Item::Value(value) => {
                if is_at(place, value.start, value.end)? {
                    return Ok(table);
                }
                if is_table(s, value)? {
                    table = Some(Span::of_body(value));
                }
                at = value.end;
            }
        }
    }
}

// The list that a table's field 7 is.
#[tactic(auto, using(values::proofs::Tests::tests), unfolding(crate::specs::Text::list_of, crate::specs::Text::is_typed))]
fn list_of(value: EncodedValue) -> Option<Span>
    ensures { own_read result ≡ list_of (spans_of value) }
{
    if !is_typed(value, LIST) {
        return None;
    }
    Some(Span::of_body(value))
}

// The list of the table with this body.
#[tactic(auto, using(crate::proofs::Steps::in_a_table), unfolding(crate::specs::Text::on_field, crate::specs::Text::own_list))]
fn list_in(s: &[u8], body: Span, limit: usize) -> Result<Option<Span>, Refusal>
    ensures { symbols_read result ≡ own_list limit s.now (table body.start body.end) }
{
    let mut at = body.start;
    // No field 7 yet, or one and the list that it is.
    let mut list = None;
    loop {
        let Item::Field { id, start, value } = item_at(Rules::Fields, s, at, body.end, limit)?
        else {
            return Ok(list.flatten());
        };
        if id == IMPORTS {
            return Err(Refusal {
                reason: Reason::HasImports,
                position: start,
            });
        }
        if id == SYMBOLS {
            if list.is_some() {
                return Err(Refusal {
                    reason: Reason::SecondSymbols,
                    position: start,
                });
            }
            list = Some(list_of(value));
        }
        at = value.end;
    }
}

// The list of what rules.
#[tactic(auto, using(values::proofs::Tests::tests), unfolding(crate::specs::Text::own_list))]
pub fn own_list(s: &[u8], ruling: Option<Span>, limit: usize) -> Result<Option<Span>, Refusal>
    ensures { symbols_read result ≡ own_list limit s.now (ruling_read ruling) }
{
    match ruling {
        None => Ok(None),
        Some(body) => list_in(s, body, limit),
    }
}

// Where the text of an ID below 10 lies among the system's.
#[tactic(auto, using(values::proofs::Tests::tests), unfolding(crate::specs::Text::system_text))]
fn system_text(id: usize) -> SymbolText
    requires { id < 10 }
    ensures { text_told result ≡ system_text id }
{
    if id == 0 {
        return SymbolText::Unknown;
    }
    SymbolText::System(Span {
        start: STARTS[id - 1],
        end: STARTS[id],
    })
}

// The text that an entry of the list is.
#[tactic(auto, using(values::proofs::Tests::tests), unfolding(crate::specs::Text::entry_text, crate::specs::Text::is_typed))]
fn entry_text(s: &[u8], value: EncodedValue) -> Result<SymbolText, Refusal>
    ensures { text_read result ≡ entry_text s.now (spans_of value) }
{
    if !is_typed(value, STRING) {
        return Ok(SymbolText::Unknown);
    }
    if !is_utf8(s, value.body, value.end) {
        return Err(Refusal {
            reason: Reason::BadUtf8,
            position: value.descriptor,
        });
    }
    Ok(SymbolText::Own(Span::of_body(value)))
}

// The text of the entry behind `count` others in the list with this body.
#[tactic(auto, using(crate::proofs::Steps::in_a_list), unfolding(crate::specs::Text::on_entry, crate::specs::Text::own_text))]
fn entry_in(s: &[u8], list: Span, count: usize, limit: usize) -> Result<SymbolText, Refusal>
    ensures { text_read result ≡ own_text limit s.now count (listed list.start list.end) }
{
    let mut at = list.start;
    // A turn for each entry that is passed: they lie in no slice to go over.
    for _ in 0..count {
        let Item::Value(value) = item_at(Rules::Sequence, s, at, list.end, limit)? else {
            return Ok(SymbolText::Unknown);
        };
        at = value.end;
    }
    let Item::Value(value) = item_at(Rules::Sequence, s, at, list.end, limit)? else {
        return Ok(SymbolText::Unknown);
    };
    entry_text(s, value)
}

// The text of an ID under the table with this list.
#[tactic(auto, using(values::proofs::Tests::tests), unfolding(crate::specs::Text::text_in, crate::specs::Text::own_text))]
pub fn text_in(s: &[u8], id: usize, list: Option<Span>, limit: usize) -> Result<SymbolText, Refusal>
    ensures { text_read result ≡ text_in limit s.now id (own_read list) }
{
    if id < FIRST_OWN_ID {
        return Ok(system_text(id));
    }
    match list {
        None => Ok(SymbolText::Unknown),
        Some(body) => entry_in(s, body, id - FIRST_OWN_ID, limit),
    }
}
