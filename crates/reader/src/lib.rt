// A reader that holds the lent map beside its position, the part's end, the part's kind and the limit of annotation bytes: one thing to pass on.
//
// Its functions are thin: each takes it apart, and the work is done by `step_through`, which takes the map and numbers. They are functions and no methods, as callers
// have them; and the three entries of `stepping` are matched on, so that a reader answers by what the scope names.
#![tactic(auto)]

ghost use Rattle.std.specs.Prelude.{◌≡◌};
ghost use Rattle.stepping.specs.Read.{step_read};
ghost use Rattle.reader.specs.Reading.{step_through};

use framing::limits::out_of_range;
use numbers::refusal::{LIMIT_OUT_OF_RANGE, OUTSIDE};
use stepping::cursor::{Cursor, NoSuchKind, Rules, Step};

#[derive(Clone, Copy, Debug, PartialEq, Eq)]
pub struct Reader<'a> {
    pub map: &'a [u8],
    pub at: usize,
    pub end: usize,
    // A number as callers have it, also where no part has that kind: the step refuses it then.
    pub kind: u64,
    pub limit: usize,
}

// The step at `at` in a part that ends at `end`, by the part's kind: 0 a stream, 1 the body of a list or a sexp, 2 the body of a struct.
#[tactic(auto, unfolding(crate::specs::Reading::step_through))]
pub fn step_through(map: &[u8], at: usize, end: usize, kind: u64, limit: usize) -> Step
    ensures { step_read result ≡ step_through limit map.now at end kind }
{
    let cursor = Cursor { at, end };
    if out_of_range(limit) {
        return Step {
            item: Err(LIMIT_OUT_OF_RANGE),
            next: cursor,
        };
    }
    match Rules::try_from(kind) {
        Ok(Rules::Stream) => cursor.next_in_stream(map, limit),
        Ok(Rules::Sequence) => cursor.next_in_sequence(map, limit),
        Ok(Rules::Fields) => cursor.next_in_struct(map, limit),
        Err(NoSuchKind) => Step {
            item: Err(OUTSIDE),
            next: cursor,
        },
    }
}

// A reader of the part at..end.
pub fn open_part<'a>(map: &'a [u8], at: usize, end: usize, kind: u64, limit: usize) -> Reader<'a>
    ensures { (result.map ≡ map.entry) × (result.at ≡ at) × (result.end ≡ end) × (result.kind ≡ kind) × (result.limit ≡ limit) }
{
    Reader {
        map,
        at,
        end,
        kind,
        limit,
    }
}

// The next item, and the cursor behind it.
pub fn next<'a>(r: Reader<'a>) -> Step
    ensures { step_read result ≡ step_through r.entry.limit r.entry.map.now r.entry.at r.entry.end r.entry.kind }
{
    step_through(r.map, r.at, r.end, r.kind, r.limit)
}

// The reader at another position of its part.
pub fn moved<'a>(r: Reader<'a>, at: usize) -> Reader<'a>
    ensures { (result.map ≡ r.entry.map) × (result.at ≡ at) × (result.end ≡ r.entry.end) × (result.kind ≡ r.entry.kind) × (result.limit ≡ r.entry.limit) }
{
    Reader { at, ..r }
}

// The first item of a part, by a reader: plain parameters, so that its callers need no reader.
pub fn first(map: &[u8], at: usize, end: usize, kind: u64, limit: usize) -> Step
    ensures { step_read result ≡ step_through limit map.now at end kind }
{
    next(open_part(map, at, end, kind, limit))
}
