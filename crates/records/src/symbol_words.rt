// The words of the records of symbols: a text, and the list of the table that rules.
//
// `as u64` of a `usize`: std has no `From` for it, and each is proved to lose nothing; of an enum it is the case's own number.
ghost use Rattle.std.specs.Prelude.{◌≡◌};
ghost use Rattle.symbols.specs.Read.{symbols_read, text_read};
ghost use Rattle.records.specs.Kinds.{kind_word};
ghost use Rattle.records.specs.SymbolWords.{span_words, text_words, symbols_words};

use crate::buffer::RECORD_WORDS;
use crate::kind::RecordKind;
use crate::words::{NO_PART, refused_words, size_of};
use numbers::refusal::Refusal;
use symbols::symbols::SymbolText;
use values::value::Span;

// Where a text lies: word 1 of its record.
#[derive(Clone, Copy)]
enum Lies {
    Nowhere = 0,
    InTheMap = 1,
    InTheSystem = 2,
}

// The words of a span.
fn span_words(kind: RecordKind, what: u64, span: Span, id: usize) -> [u64; RECORD_WORDS]
    ensures { result ≡ span_words (kind_word kind) what span.start span.end id }
{
    [
        kind as u64,
        what,
        0,
        0,
        0,
        span.start as u64,
        span.end as u64,
        id as u64,
        size_of(span.start, span.end),
    ]
}

// The words of an ID's text. The arm of a refusal stands here and below, as in `words.rt`.
pub fn text_words(id: usize, text: Result<SymbolText, Refusal>) -> [u64; RECORD_WORDS]
    ensures { result ≡ text_words id (text_read text) }
{
    match text {
        Ok(SymbolText::Unknown) => span_words(RecordKind::Text, Lies::Nowhere as u64, NO_PART, id),
        Ok(SymbolText::Own(span)) => span_words(RecordKind::Text, Lies::InTheMap as u64, span, id),
        Ok(SymbolText::System(span)) => {
            span_words(RecordKind::Text, Lies::InTheSystem as u64, span, id)
        }
        Err(refusal) => refused_words(refusal),
    }
}

// The words of the list of the table that rules. Word 1 is whether there is one.
pub fn symbols_words(list: Result<Option<Span>, Refusal>) -> [u64; RECORD_WORDS]
    ensures { result ≡ symbols_words (symbols_read list) }
{
    match list {
        Ok(None) => span_words(RecordKind::Symbols, u64::from(false), NO_PART, 0),
        Ok(Some(span)) => span_words(RecordKind::Symbols, u64::from(true), span, 0),
        Err(refusal) => refused_words(refusal),
    }
}
