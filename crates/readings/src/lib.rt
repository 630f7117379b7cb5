// The functions that other languages call to read what a step hands out.
#![tactic(auto)]

pub mod exports;
pub mod form;
