// The records that exported functions fill: their words, the bytes of these, and putting them into a lent buffer.
#![tactic(auto)]

pub mod buffer;
pub mod check_record;
pub mod kind;
pub mod number;
pub mod symbol_words;
pub mod words;
