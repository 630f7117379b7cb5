// A cursor that is stepped through a stream, a list's or sexp's body, or a struct's body.
//
// `limit` is the most bytes that a value's annotations may have. A part's rules, its slice, its end and the limit are parameters of their own, as callers have them: a
// struct of them would be made at each call and taken apart in each contract. What is read for each item stands in its callers' place, as in `numbers`.
ghost use Rattle.std.specs.Prelude.{◌≡◌, false, ◌+◌, ◌≤◌, ◌<◌, length, OkIff};
ghost use Rattle.framing.specs.Limits.{out_of_range};
ghost use Rattle.framing.specs.Read.{spans_of, frame_of};
ghost use Rattle.numbers.specs.Outcome.{and_then};
ghost use Rattle.numbers.specs.ShortVarUInt.{short_var_uint_of};
ghost use Rattle.stepping.specs.Answers.{version_passes, marker_at, after, step_of};
ghost use Rattle.stepping.specs.Items.{item_end};
ghost use Rattle.stepping.specs.Kinds.{rules_of, part_kind};
ghost use Rattle.stepping.specs.Leaving.{left_of, is_last};
ghost use Rattle.stepping.specs.Names.{field_id, name_at, name_from, item_by, tile_by, is_marker, tile_from, answer_from};
ghost use Rattle.stepping.specs.Read.{places_of, item_read, name_of, named_read, short_name_read, step_read};
ghost use Rattle.stepping.specs.Private.Tiles.{handed, tile_of, tile_read};

use framing::binary_buffer::read_frame;
use framing::encoded_value::{EncodedValue, Frame, NopPad};
use framing::limits::out_of_range;
use numbers::binary_buffer::{outside, read_var_uint, short_var_uint};
use numbers::refusal::{LIMIT_OUT_OF_RANGE, OUTSIDE, Reason, Refusal};
use numbers::var_uint::VarUInt;

// The rules of a part: a stream, the body of a list or a sexp, the body of a struct. They are matched on where they differ, in a line or two each: as types of a
// trait, each step would be compiled three times.
#[derive(Clone, Copy, Debug, PartialEq, Eq)]
pub enum Rules {
    Stream,
    Sequence,
    Fields,
}

// A kind that no part has.
#[derive(Clone, Copy, Debug, PartialEq, Eq)]
pub struct NoSuchKind;

// The rules of a part of this kind: 0 a stream, 1 the body of a list or a sexp, 2 the body of a struct.
impl TryFrom<u64> for Rules {
    type Error = NoSuchKind;

    ghost try_from_gives = { λ kind r. OkIff r (kind ≤ 2) (rules_of kind) };

    fn try_from(kind: u64) -> Result<Rules, NoSuchKind> {
        if 2 < kind {
            return Err(NoSuchKind);
        }
        Ok(rules_of(kind))
    }
}

// The rules of a part of this kind, where the kind is not tested: those of a struct's body for each that no part has. Beside `try_from`, since it cannot fail:
// a caller that has tested the kind takes eight instructions less by it.
pub fn rules_of(kind: u64) -> Rules
    ensures { result ≡ rules_of kind }
{
    match kind {
        0 => Rules::Stream,
        1 => Rules::Sequence,
        _ => Rules::Fields,
    }
}

// The kind of a part with these rules.
impl From<Rules> for u64 {
    ghost from_gives = { λ rules kind. kind ≡ part_kind rules };

    fn from(rules: Rules) -> u64 {
        match rules {
            Rules::Stream => 0,
            Rules::Sequence => 1,
            Rules::Fields => 2,
        }
    }
}

// A position in a part, and the part's end.
#[derive(Clone, Copy, Debug, PartialEq, Eq)]
pub struct Cursor {
    pub at: usize,
    pub end: usize,
}

// What a step hands out. The end is a case of its own and no `None`: it has the part's end, as the scope's answer has.
#[derive(Clone, Copy, Debug, PartialEq, Eq)]
pub enum Item {
    // Nothing is left; the position is the part's end.
    End {
        position: usize,
    },
    // A version marker: its four bytes are start..end.
    Marker {
        start: usize,
        major: u8,
        minor: u8,
        end: usize,
    },
    // A value of a stream or a sequence.
    Value(EncodedValue),
    // A struct's field: its ID, where that starts, and its value.
    Field {
        id: usize,
        start: usize,
        value: EncodedValue,
    },
}

impl Item {
    // Where it ends.
    fn end(self) -> usize
        ensures { result ≡ item_end (places_of self) }
    {
        match self {
            Item::End { position } => position,
            Item::Marker { end, .. } => end,
            Item::Value(value) | Item::Field { value, .. } => value.end,
        }
    }
}

// Where an answer leaves its caller: behind an item at its end, or nowhere, behind the end and behind a refusal.
pub fn left_by(item: Result<Item, Refusal>) -> Option<usize>
    ensures { result ≡ left_of (item_read item) }
{
    match item {
        Ok(Item::End { .. }) | Err(_) => None,
        Ok(item) => Some(item.end()),
    }
}

// Whether nothing is to come behind an answer: it is the end or a refusal.
pub fn is_last(item: Result<Item, Refusal>) -> bool
    ensures { result ≡ is_last (item_read item) }
{
    left_by(item).is_none()
}

// An answer, and the cursor for the next step: the one given where the step is refused.
#[derive(Clone, Copy, Debug, PartialEq, Eq)]
pub struct Step {
    pub item: Result<Item, Refusal>,
    pub next: Cursor,
}

// What the rules of a part want before a pad or a value, its name: in a struct's body a field ID, elsewhere nothing, with 0 for the ID, as in the
// definition; and where it ends.
#[derive(Clone, Copy, Debug, PartialEq, Eq)]
pub struct Name {
    pub id: usize,
    pub next: usize,
}

// What stands at a position: a pad, or what the step hands out.
#[derive(Clone, Copy)]
enum Tile {
    Pad(NopPad),
    Item(Item),
}

// Whether a marker with these two numbers passes: that of version 1.0 alone.
fn version_passes(major: u8, minor: u8) -> bool
    ensures { result ≡ version_passes major minor }
{
    major == 1 && minor == 0
}

// The version marker that begins at `at` with E0.
#[tactic(auto, unfolding(crate::specs::Answers::marker_at))]
fn read_ivm(s: &[u8], at: usize, end: usize) -> Result<Item, Refusal>
    requires { (at < end) × (end ≤ length s.now) }
    ensures { and_then (item_read result) handed ≡ marker_at s.now at end }
{
    if end - at < 4 {
        return Err(Refusal {
            reason: Reason::MarkerCut,
            position: at,
        });
    }
    if s[at + 3] != 0xEA {
        return Err(Refusal {
            reason: Reason::BadMarker,
            position: at,
        });
    }
    let major = s[at + 1];
    let minor = s[at + 2];
    if !version_passes(major, minor) {
        return Err(Refusal {
            reason: Reason::NotVersion10,
            position: at,
        });
    }
    Ok(Item::Marker {
        start: at,
        major,
        minor,
        end: at + 4,
    })
}

// The field ID at `at`, where something follows it.
#[inline(always)]
#[tactic(auto, unfolding(crate::specs::Names::field_id, crate::specs::Names::followed))]
fn read_field_id(s: &[u8], at: usize, end: usize) -> Result<Name, Refusal>
    ensures { named_read result ≡ field_id s.now at end }
{
    let id = read_var_uint(s, at, end)?;
    if id.next == end {
        return Err(Refusal {
            reason: Reason::FieldCut,
            position: end,
        });
    }
    Ok(Name {
        id: id.value,
        next: id.next,
    })
}

// The name of what begins at `at`.
#[inline(always)]
pub fn read_name(rules: Rules, s: &[u8], at: usize, end: usize) -> Result<Name, Refusal>
    ensures { named_read result ≡ name_at rules s.now at end }
{
    match rules {
        Rules::Stream | Rules::Sequence => Ok(Name { id: 0, next: at }),
        Rules::Fields => read_field_id(s, at, end),
    }
}

// That name where it is short and something follows it, as most are: nothing is said of another.
pub fn short_name(rules: Rules, s: &[u8], at: usize, end: usize) -> Option<Name>
    ensures { short_name_read result ≡ short_var_uint_of at (name_at rules s.now at end) }
{
    match rules {
        Rules::Stream | Rules::Sequence => Some(Name { id: 0, next: at }),
        Rules::Fields => {
            let VarUInt { value, next } = short_var_uint(s, at, end)?;
            if next == end {
                return None;
            }
            Some(Name { id: value, next })
        }
    }
}

// The name of what begins at `at`, which is not read again where it was read before: then it is `name`, which ends behind `at`.
#[inline(always)]
#[tactic(auto, unfolding(crate::specs::Names::name_from))]
fn name_from(rules: Rules, s: &[u8], at: usize, name: Name, end: usize) -> Result<Name, Refusal>
    ensures { named_read result ≡ name_from rules s.now at end (name_of name) }
{
    if at < name.next {
        return Ok(name);
    }
    read_name(rules, s, at, end)
}

// The item that a value behind a name is, by the rules of the part.
pub fn item_of(rules: Rules, at: usize, id: usize, value: EncodedValue) -> Item
    ensures { places_of result ≡ item_by rules at id (spans_of value) }
{
    match rules {
        Rules::Stream | Rules::Sequence => Item::Value(value),
        Rules::Fields => Item::Field {
            id,
            start: at,
            value,
        },
    }
}

// The tile that a frame is, by the rules of the part.
fn tile_of(rules: Rules, at: usize, id: usize, frame: Frame) -> Tile
    ensures { tile_read (Ok result) ≡ tile_by rules at id (frame_of frame) }
{
    match frame {
        Frame::Pad(pad) => Tile::Pad(pad),
        Frame::Value(value) => Tile::Item(item_of(rules, at, id, value)),
    }
}

// Whether a byte begins a version marker: only in a stream.
fn is_marker(rules: Rules, byte: u8) -> bool
    ensures { result ≡ is_marker rules byte }
{
    match rules {
        Rules::Stream => byte == 0xE0,
        Rules::Sequence | Rules::Fields => false,
    }
}

// What begins at `at`, by the rules of the part; its name may be read, as `name_from` has it.
#[inline(always)]
#[tactic(auto, unfolding(crate::specs::Names::tile_from, crate::specs::Names::tile_behind))]
fn read_tile(
    rules: Rules,
    s: &[u8],
    at: usize,
    name: Name,
    end: usize,
    limit: usize,
) -> Result<Tile, Refusal>
    requires { (out_of_range limit ≡ false) × (at < end) × (end ≤ length s.now) }
    ensures { tile_read result ≡ tile_from limit rules s.now at end (name_of name) }
{
    if is_marker(rules, s[at]) {
        let marker = read_ivm(s, at, end)?;
        return Ok(Tile::Item(marker));
    }
    let name = name_from(rules, s, at, name, end)?;
    let frame = read_frame(s, name.next, end, limit)?;
    Ok(tile_of(rules, at, name.id, frame))
}

// The cursor that an answer leaves.
pub fn after_item(cursor: Cursor, item: Result<Item, Refusal>) -> Cursor
    ensures { result ≡ after cursor (item_read item) }
{
    match item {
        Ok(item) => Cursor {
            at: item.end(),
            end: cursor.end,
        },
        Err(_) => cursor,
    }
}

// What the step at `at` in the part that ends at `end` answers: past the pads to the next item, the end or a refusal. The name of what begins at `at` may be
// read: then it is `name`, which ends behind `at`.
#[inline(always)]
#[tactic(auto, using(crate::proofs::Naming::step_laws))]
pub fn item_from(
    rules: Rules,
    s: &[u8],
    at: usize,
    name: Name,
    end: usize,
    limit: usize,
) -> Result<Item, Refusal>
    ensures { item_read result ≡ answer_from limit rules s.now at end (name_of name) }
{
    if out_of_range(limit) {
        return Err(LIMIT_OUT_OF_RANGE);
    }
    if outside(s, at, end) {
        return Err(OUTSIDE);
    }
    let mut from = at;
    let mut name = name;
    // No index is counted: behind a pad it goes on where the pad ends.
    while from < end {
        match read_tile(rules, s, from, name, end, limit)? {
            Tile::Pad(pad) => {
                from = pad.end;
                name.next = pad.end;
            }
            Tile::Item(item) => return Ok(item),
        }
    }
    Ok(Item::End { position: end })
}

// What that step answers, of whose name nothing is read.
#[tactic(auto, using(crate::proofs::Naming::answer_unread))]
pub fn item_at(rules: Rules, s: &[u8], at: usize, end: usize, limit: usize) -> Result<Item, Refusal>
    ensures { item_read result ≡ (step_of limit rules s.now (record { at = at; end = end })).answer }
{
    item_from(rules, s, at, Name { id: 0, next: at }, end, limit)
}

// One step: its answer, and the cursor that it leaves.
#[tactic(auto, unfolding(crate::specs::Answers::step_of))]
fn next_item(rules: Rules, s: &[u8], cursor: Cursor, limit: usize) -> Step
    ensures { step_read result ≡ step_of limit rules s.now cursor }
{
    let item = item_at(rules, s, cursor.at, cursor.end, limit);
    let next = after_item(cursor, item);
    Step { item, next }
}

// Three entries, as the scope has them, and no parameter: each is one call to one function.
impl Cursor {
    // The next item of a stream.
    pub fn next_in_stream(self, s: &[u8], limit: usize) -> Step
        ensures { step_read result ≡ step_of limit Rules.Stream s.now self }
    {
        next_item(Rules::Stream, s, self, limit)
    }

    // The next value in the body of a list or a sexp.
    pub fn next_in_sequence(self, s: &[u8], limit: usize) -> Step
        ensures { step_read result ≡ step_of limit Rules.Sequence s.now self }
    {
        next_item(Rules::Sequence, s, self, limit)
    }

    // The next field in the body of a struct.
    pub fn next_in_struct(self, s: &[u8], limit: usize) -> Step
        ensures { step_read result ≡ step_of limit Rules.Fields s.now self }
    {
        next_item(Rules::Fields, s, self, limit)
    }
}
