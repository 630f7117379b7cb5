// The functions that other languages call and that the change requests added.
#![tactic(auto)]

pub mod bounded;
pub mod packed;
pub mod readings;
pub mod symbol_texts;
