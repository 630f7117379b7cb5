// Calls of the functions that write: a packed map, and values.
use crate::arguments;
use crate::arguments::Limits;
use crate::lending::{Said, lend_both};
use additions::packed::ion_map_pack;
use questions::words::Words;
use writes::exports::{
    ion_map_write_bool, ion_map_write_container, ion_map_write_float, ion_map_write_int,
    ion_map_write_null, ion_map_write_pad, ion_map_write_scalar, ion_map_write_symbol,
    ion_map_write_wrapper,
};

pub fn pack(map: &[u8], words: &mut Words) -> Said {
    lend_both(words, |to, out, words| {
        let Limits { limit, depth } = Limits::of(words);
        Ok(ion_map_pack(map, limit, depth, to, out))
    })
}

pub fn null(words: &mut Words) -> Said {
    lend_both(words, |to, out, words| {
        Ok(ion_map_write_null(words.number(), to, out))
    })
}

pub fn bool(words: &mut Words) -> Said {
    lend_both(words, |to, out, words| {
        Ok(ion_map_write_bool(words.number() as u64, to, out))
    })
}

pub fn float(words: &mut Words) -> Said {
    lend_both(words, |to, out, words| {
        Ok(ion_map_write_float(words.number() as u64, to, out))
    })
}

pub fn symbol(words: &mut Words) -> Said {
    lend_both(words, |to, out, words| {
        Ok(ion_map_write_symbol(words.number() as u64, to, out))
    })
}

pub fn pad(words: &mut Words) -> Said {
    lend_both(words, |to, out, words| {
        Ok(ion_map_write_pad(words.number(), to, out))
    })
}

pub fn int(magnitude: &[u8], words: &mut Words) -> Said {
    lend_both(words, |to, out, words| {
        Ok(ion_map_write_int(magnitude, words.number() as u64, to, out))
    })
}

pub fn scalar(body: &[u8], words: &mut Words) -> Said {
    lend_both(words, |to, out, words| {
        Ok(ion_map_write_scalar(words.number(), body, to, out))
    })
}

pub fn container(body: &[u8], words: &mut Words) -> Said {
    lend_both(words, |to, out, words| {
        let type_code = words.number();
        let Limits { limit, depth } = Limits::of(words);
        Ok(ion_map_write_container(type_code, body, limit, depth, to, out))
    })
}

// What is written around a value takes its bytes too, whose word stands before the limits.
pub fn wrapper(annotations: &[u8], words: &mut Words) -> Said {
    lend_both(words, |to, out, words| {
        let value = arguments::value(words)?;
        let Limits { limit, depth } = Limits::of(words);
        Ok(ion_map_write_wrapper(annotations, &value, limit, depth, to, out))
    })
}
