// The answers to questions on the walk of a part that is taken as a stream.
use crate::answering::{Answer, Part, join};
use listing::Line;
use questions::words::{ANNOTATION_LIMIT, DEPTH_LIMIT, Words};
use stepping::cursor::is_last;
use walking::walk;
use walking::walk::{PARTS, Walk, Walked};

// `walk BYTES AT END LIMIT DEPTH`: what the walk of AT..END hands out, to its end or the first refusal. `listing` has such a loop from a map's start: a closure
// for what each does with a line would be no shorter than the loop.
pub fn walk(part: Part, words: &mut Words) -> Answer {
    let limit = words.number_or(ANNOTATION_LIMIT);
    let depth = words.number_or(DEPTH_LIMIT);
    let stream = walk::Part {
        end: part.end,
        fields: false,
    };
    let mut state = Walk {
        parts: [stream; PARTS],
        depth: 0,
        at: part.at,
        deep: false,
    };
    let mut line = String::new(words.alloc);
    for _ in 0..=part.s.len() {
        let Walked {
            depth: at,
            item,
            next,
        } = state.next(part.s, limit, depth);
        join(&mut line, &Line { depth: at, item })?;
        if is_last(item) {
            break;
        }
        state = next;
    }
    Ok(line)
}
