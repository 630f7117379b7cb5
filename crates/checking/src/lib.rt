// Checks whole maps of the Ion 1.0 binary encoding, and counts what they hold.
#![tactic(auto)]

pub mod check;
pub mod counts;
pub mod item;
