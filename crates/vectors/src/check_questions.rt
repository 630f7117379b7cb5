// The answers to questions on whole maps.
use crate::answering::{Answer, Part};
use checking::check::check_map;
use questions::words::{ANNOTATION_LIMIT, DEPTH_LIMIT, Words};

// Where the counts of a checked map have that of its markers, and from where on those of its types. Numbers of its own: checking
// keeps its names for them to itself.
const MARKERS: usize = 0;

const TYPES: usize = 2;

// `check BYTES`: the counts of an accepted map but that of its pads, which the Rust keeps to itself, or the first refusal: how many markers there are, and how
// many values of each type.
pub fn check(part: Part, words: &mut Words) -> Answer {
    let counts = check_map(part.s, ANNOTATION_LIMIT, DEPTH_LIMIT)?;
    let mut line = format!(in words.alloc; "{}", counts.places[MARKERS])?;
    for count in &counts.places[TYPES..] {
        write!(&mut line, " {count}")?;
    }
    Ok(line)
}
