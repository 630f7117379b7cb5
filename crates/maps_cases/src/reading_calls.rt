// Calls of the readings: of what a step hands out, and of a whole map.
use crate::arguments::{Limits, Place, buffer};
use crate::lending::{Said, left, lend};
use additions::readings::ion_map_decimal;
use questions::words::{ANNOTATION_LIMIT, Words};
use readings::exports::{ion_map_annotation, ion_map_number};

pub fn annotation(map: &[u8], words: &mut Words) -> Said {
    let at = Place::of(words);
    lend(words, |out, _| {
        Ok(ion_map_annotation(map, at.start, at.end, at.position, out))
    })
}

// Of the value at a position. What is called is handed on as it is: `lend` would take a closure around it.
pub fn of_value<F>(map: &[u8], words: &mut Words, read: F) -> Said
where
    F: FnOnce(&[u8], usize, usize, usize, usize, &mut [u8]) -> u64 + Drop,
    requires { F.IsAlwaysCallable read }
{
    let at = Place::of(words);
    let mut out = buffer(words)?;
    let limit = words.number_or(ANNOTATION_LIMIT);
    let returned = read(map, at.start, at.end, at.position, limit, &mut out);
    left(words, &returned, &out)
}

pub fn number(map: &[u8], words: &mut Words) -> Said {
    let at = Place::of(words);
    let form = words.number() as u64;
    let size = words.number();
    lend(words, |out, _| {
        Ok(ion_map_number(map, at.start, at.end, at.position, form, size, out))
    })
}

pub fn decimal(map: &[u8], words: &mut Words) -> Said {
    let start = words.number();
    let end = words.number();
    lend(words, |out, _| Ok(ion_map_decimal(map, start, end, out)))
}

// Of a whole map; as above.
pub fn of_map<F>(map: &[u8], words: &mut Words, read: F) -> Said
where
    F: FnOnce(&[u8], usize, usize, &mut [u8]) -> u64 + Drop,
    requires { F.IsAlwaysCallable read }
{
    let mut out = buffer(words)?;
    let Limits { limit, depth } = Limits::of(words);
    let returned = read(map, limit, depth, &mut out);
    left(words, &returned, &out)
}
