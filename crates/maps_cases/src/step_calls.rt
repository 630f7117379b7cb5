// Calls of the steps: of one, of many, of one that is bounded, and of those that count.
use crate::arguments::{Limits, Place, buffer};
use crate::left::{Left, UNTOUCHED};
use crate::lending::{Said, lend};
use additions::bounded::ion_map_step_bounded;
use additions::readings::ion_map_ids;
use batches::steps::ion_map_steps;
use maps::exports::ion_map_step;
use questions::words::{ANNOTATION_LIMIT, Words};
use walking::exports::ion_map_walked;

pub fn step(map: &[u8], words: &mut Words) -> Said {
    let at = Place::of(words);
    let kind = words.number() as u64;
    lend(words, |out, words| {
        let limit = words.number_or(ANNOTATION_LIMIT);
        Ok(ion_map_step(map, at.start, at.end, at.position, kind, limit, out))
    })
}

// Many steps return a count too.
pub fn steps(map: &[u8], words: &mut Words) -> Said {
    let at = Place::of(words);
    let kind = words.number() as u64;
    let mut out = buffer(words)?;
    let limit = words.number_or(ANNOTATION_LIMIT);
    let mut count = UNTOUCHED;
    let returned = ion_map_steps(
        map,
        at.start,
        at.end,
        at.position,
        kind,
        limit,
        &mut out,
        &mut count,
    );
    Ok(format!(in words.alloc; "{returned} {count}{}", Left(&out))?)
}

pub fn step_bounded(map: &[u8], words: &mut Words) -> Said {
    let at = Place::of(words);
    let kind = words.number() as u64;
    let most = words.number();
    lend(words, |out, words| {
        let limit = words.number_or(ANNOTATION_LIMIT);
        Ok(ion_map_step_bounded(map, at.start, at.end, at.position, kind, most, limit, out))
    })
}

pub fn walked(map: &[u8], words: &mut Words) -> Said {
    let most = words.number() as u64;
    let Limits { limit, depth } = Limits::of(words);
    let returned = ion_map_walked(map, most, limit, depth);
    Ok(format!(in words.alloc; "{returned}")?)
}

pub fn ids(map: &[u8], words: &mut Words) -> Said {
    let at = Place::of(words);
    let limit = words.number_or(ANNOTATION_LIMIT);
    let returned = ion_map_ids(map, at.start, at.end, at.position, limit);
    Ok(format!(in words.alloc; "{returned}")?)
}
