// The functions that other languages call to write values.
#![tactic(auto)]

pub mod exports;
