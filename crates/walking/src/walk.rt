// The walk of a whole map: markers and values in order, a container before what is in it, one step a call.
//
// `limit` is the most bytes that a value's annotations may have, `deepest` the depth at which a container is handed out and not entered.
ghost use Rattle.std.specs.Prelude.{◌≡◌, ◌≤◌, length, take, true, false, MatchOption};
ghost use Rattle.numbers.specs.Outcome.{gives, refuses};
ghost use Rattle.numbers.specs.Refusals.{number_of};
ghost use Rattle.framing.specs.Read.{spans_of};
ghost use Rattle.stepping.specs.Read.{places_of};
ghost use Rattle.walking.specs.Walk.{most_depth, limits_out, visit, whole_walk};
ghost use Rattle.walking.specs.Calls.{start_of, seek, state_after_value, state_after_visit, visit_of, next_of, calls, items_in, walked_read};
ghost use Rattle.walking.specs.Private.State.{rules_by, seen_read, state_at};

use framing::binary_buffer::{bare_value, short_value};
use framing::encoded_value::EncodedValue;
use framing::limits::out_of_range;
use numbers::binary_buffer::outside;
use numbers::refusal::{LIMIT_OUT_OF_RANGE, Reason, Refusal};
use stepping::cursor::{Item, Rules, item_at, item_from, read_name};
use values::value::is_container;

// The range of the depth at which a container is too deep.
const LEAST_DEPTH: usize = 1;

const MOST_DEPTH: usize = 64;

// The parts that a walk can be in: the stream, and a body for each depth.
pub const PARTS: usize = MOST_DEPTH + 1;

// A part that a walk is in: where it ends, and whether it is the body of a struct. A flag, and no rules: at depth 0 a walk goes by the stream's, whatever
// stands here.
#[derive(Clone, Copy)]
pub struct Part {
    pub end: usize,
    pub fields: bool,
}

// Where a walk is: the parts that it is in, by depth; its depth and its position. `deep`: the container at the position was handed out and is too deep to
// enter, a flag by itself, beside no value that it speaks of. The parts are an array of a fixed length, here and where a walk starts: there is no heap.
#[derive(Clone, Copy)]
pub struct Walk {
    pub parts: [Part; PARTS],
    pub depth: usize,
    pub at: usize,
    pub deep: bool,
}

// An answer, the depth at which it was met, and the state for the next call: the one given where the call is refused.
#[derive(Clone, Copy)]
pub struct Walked {
    pub depth: usize,
    pub item: Result<Item, Refusal>,
    pub next: Walk,
}

// What of a walk is no part. The count holds it by itself, in registers: in a walk that is written to, it would be read from memory for each item, which takes
// a tenth more time. A walk has these fields and no place: a caller's state has them so, as the definition of an answer has.
#[derive(Clone, Copy)]
struct Place {
    depth: usize,
    at: usize,
    deep: bool,
}

// An answer and the depth at which it was met.
#[derive(Clone, Copy)]
struct Seen {
    depth: usize,
    item: Result<Item, Refusal>,
}

// The two limits of a call, each in its range.
#[derive(Clone, Copy)]
pub struct Limits {
    pub bytes: usize,
    pub depth: usize,
    pub ghost in_range: { limits_out bytes depth ≡ false },
}

// Whether one of a walk's two limits is none.
#[tactic(auto, using(std::proofs::lemmas::Bool::Decides::nat_tests), unfolding(crate::specs::Walk::limits_out))]
pub fn limits_out(limit: usize, deepest: usize) -> bool
    ensures { result ≡ limits_out limit deepest }
{
    if out_of_range(limit) {
        return true;
    }
    deepest < LEAST_DEPTH || MOST_DEPTH < deepest
}

impl Limits {
    // None where one of the two is none.
    pub fn new(limit: usize, deepest: usize) -> Option<Limits>
        ensures { MatchOption result (limits_out limit deepest ≡ true) (λ l. (l.bytes ≡ limit) × (l.depth ≡ deepest)) }
    {
        if limits_out(limit, deepest) {
            return None;
        }
        Some(Limits {
            bytes: limit,
            depth: deepest,
        })
    }
}

impl Place {
    // A place of this depth that is at no container too deep to enter.
    fn new(depth: usize, at: usize) -> Place
        ensures { result ≡ record { depth = depth; at = at; deep = false } }
    {
        Place {
            depth,
            at,
            deep: false,
        }
    }
}

// The rules of a part of this depth: the stream's, or those of a body.
fn rules_at(depth: usize, fields: bool) -> Rules
    ensures { result ≡ rules_by depth fields }
{
    if depth == 0 {
        Rules::Stream
    } else if fields {
        Rules::Fields
    } else {
        Rules::Sequence
    }
}

// Short for what many exits give; what numbers calls `OUTSIDE` too, since a depth stands beside it here.
fn refused(depth: usize, reason: Reason, position: usize) -> Seen
    ensures { seen_read result ≡ visit depth (refuses (number_of reason) position) }
{
    Seen {
        depth,
        item: Err(Refusal { reason, position }),
    }
}

// How many items at most `most` calls of a map's walk hand out from its start: 0 where a limit is none.
#[tactic(auto, using(crate::proofs::Exact::from_start))]
pub fn count_items(s: &[u8], most: u64, limit: usize, deepest: usize) -> u64
    ensures { result ≡ items_in (take most (whole_walk limit deepest s.now)) }
{
    match Limits::new(limit, deepest) {
        Some(limits) => Walk::start(s).count(s, most, limits),
        None => 0,
    }
}

impl Walk {
    // The walk of a map from its start.
    pub fn start(s: &[u8]) -> Self
        ensures { result ≡ start_of s.now }
    {
        let none = Part {
            end: 0,
            fields: false,
        };
        let mut parts = [none; PARTS];
        parts[0].end = s.len();
        Walk {
            parts,
            depth: 0,
            at: 0,
            deep: false,
        }
    }

    // The next answer of the walk.
    #[tactic(auto, using(crate::proofs::Seeking::visit_unranged, crate::proofs::Seeking::visit_depth))]
    pub fn next(self, s: &[u8], limit: usize, deepest: usize) -> Walked
        ensures { walked_read result ≡ next_of limit deepest s.now self }
    {
        let Some(limits) = Limits::new(limit, deepest) else {
            return Walked {
                depth: 0,
                item: Err(LIMIT_OUT_OF_RANGE),
                next: self,
            };
        };
        let Seen { depth, item } = self.look(s, limits);
        let mut next = self;
        if let Ok(item) = item {
            let place = next.pass_item(depth, item, limits);
            next.go_to(place);
        }
        Walked { depth, item, next }
    }

    // The answer at the walk's place.
    #[tactic(auto, using(std::proofs::lemmas::Bool::Decides::nat_tests, crate::proofs::Depths::depth_room), unfolding(crate::specs::Calls::visit_of, crate::specs::Calls::barred))]
    fn look(&self, s: &[u8], limits: Limits) -> Seen
        ensures { seen_read result ≡ visit_of limits.bytes limits.depth s.now self.now }
    {
        if limits.depth < self.depth {
            return refused(0, Reason::Outside, 0);
        }
        if self.deep {
            if outside(s, self.at, self.parts[self.depth].end) {
                return refused(0, Reason::Outside, 0);
            }
            return refused(self.depth, Reason::TooDeep, self.at);
        }
        self.find(s, limits.bytes)
    }

    // The next answer from the walk's place on, in the parts above where its part ends.
    #[tactic(auto, using(crate::proofs::Seeking::sought))]
    fn find(&self, s: &[u8], limit: usize) -> Seen
        requires { self.now.depth ≤ most_depth }
        ensures { seen_read result ≡ seek limit s.now self.now self.now.depth self.now.at }
    {
        let mut at = self.at;
        // By depths: what is answered tells the depth.
        for depth in (1..=self.depth).rev() {
            let part = self.parts[depth];
            let step = item_at(rules_at(depth, part.fields), s, at, part.end, limit);
            let Ok(Item::End { position }) = step else {
                return Seen { depth, item: step };
            };
            at = position;
        }
        let item = item_at(Rules::Stream, s, at, self.parts[0].end, limit);
        Seen { depth: 0, item }
    }

    // The place behind a value that was handed out at this depth: in its body, if it is a container.
    #[tactic(auto, using(crate::proofs::Depths::depth_room), unfolding(crate::specs::Calls::state_after_value))]
    fn pass_value(&mut self, depth: usize, value: EncodedValue, limits: Limits) -> Place
        requires { depth ≤ limits.depth }
        ensures { state_at self.new result ≡ state_after_value limits.depth self.old depth (spans_of value) }
    {
        if !is_container(value) {
            return Place::new(depth, value.end);
        }
        if depth == limits.depth {
            return Place {
                depth,
                at: value.descriptor,
                deep: true,
            };
        }
        let inner = depth + 1;
        // By the byte, as `values::open` has it: the count comes here for each container, and that would test again that it is one.
        self.parts[inner] = Part {
            end: value.end,
            fields: value.byte / 16 == 13,
        };
        Place::new(inner, value.body)
    }

    // The place behind an item.
    fn pass_item(&mut self, depth: usize, item: Item, limits: Limits) -> Place
        requires { depth ≤ limits.depth }
        ensures { state_at self.new result ≡ state_after_visit limits.depth self.old (visit depth (gives (places_of item))) }
    {
        match item {
            Item::End { position } => Place::new(depth, position),
            Item::Marker { end, .. } => Place::new(depth, end),
            Item::Value(value) | Item::Field { value, .. } => self.pass_value(depth, value, limits),
        }
    }

    // Its place.
    fn place(&self) -> Place
        ensures { state_at self.now result ≡ self.now }
    {
        Place {
            depth: self.depth,
            at: self.at,
            deep: self.deep,
        }
    }

    fn go_to(&mut self, place: Place)
        ensures { self.new ≡ state_at self.old place }
    {
        self.depth = place.depth;
        self.at = place.at;
        self.deep = place.deep;
    }

    // How many items at most `most` calls hand out from the walk's place on. In one piece: a turn ends the count, goes on without an item, or hands one out. A
    // function for a turn would answer one of the three, and the loop would test it again.
    #[tactic(auto, using(crate::proofs::Depths::depth_room, crate::proofs::Turns::turns))]
    fn count(&mut self, s: &[u8], most: u64, limits: Limits) -> u64
        ensures { result ≡ items_in (calls limits.bytes limits.depth most s.now self.old) }
    {
        let mut place = self.place();
        let mut count = 0;
        // No `for` over a range: where a body ends, a turn hands out nothing and is not counted.
        while count < most {
            let depth = place.depth;
            if limits.depth < depth {
                return count;
            }
            if place.deep {
                return count;
            }
            let at = place.at;
            let part = self.parts[depth];
            let end = part.end;
            if outside(s, at, end) {
                return count;
            }
            if at == end {
                if depth == 0 {
                    return count;
                }
                place = Place::new(depth - 1, end);
                continue;
            }
            let rules = rules_at(depth, part.fields);
            let Ok(name) = read_name(rules, s, at, end) else {
                return count;
            };
            match short_value(s, name.next, end) {
                Some(length) => {
                    let past = length.body + length.size;
                    let value = bare_value(s[name.next], name.next, length.body, past);
                    place = self.pass_value(depth, value, limits);
                }
                None => {
                    let Ok(item) = item_from(rules, s, at, name, end, limits.bytes) else {
                        return count;
                    };
                    match item {
                        Item::End { .. } if depth > 0 => {
                            place = Place::new(depth - 1, end);
                            continue;
                        }
                        Item::End { .. } => return count,
                        _ => place = self.pass_item(depth, item, limits),
                    }
                }
            }
            count += 1;
        }
        count
    }
}
