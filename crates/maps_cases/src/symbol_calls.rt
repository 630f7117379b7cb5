// Calls of the functions on symbols. They take the system text too, whose word stands behind the limit.
use crate::arguments::{Place, system_text};
use crate::lending::{Said, lend};
use additions::symbol_texts::{ion_map_symbol_text, ion_map_symbols, ion_map_text};
use questions::words::{ANNOTATION_LIMIT, Words};

pub fn text(map: &[u8], words: &mut Words) -> Said {
    let at = Place::of(words);
    let id = words.number();
    lend(words, |out, words| {
        let limit = words.number_or(ANNOTATION_LIMIT);
        let system = system_text(words)?;
        Ok(ion_map_text(map, &system, at.start, at.end, at.position, id, limit, out))
    })
}

pub fn symbols(map: &[u8], words: &mut Words) -> Said {
    let at = Place::of(words);
    lend(words, |out, words| {
        let limit = words.number_or(ANNOTATION_LIMIT);
        let system = system_text(words)?;
        Ok(ion_map_symbols(map, &system, at.start, at.end, at.position, limit, out))
    })
}

pub fn symbol_text(map: &[u8], words: &mut Words) -> Said {
    let start = words.number();
    let end = words.number();
    let id = words.number();
    lend(words, |out, words| {
        let limit = words.number_or(ANNOTATION_LIMIT);
        let system = system_text(words)?;
        Ok(ion_map_symbol_text(map, &system, start, end, id, limit, out))
    })
}
