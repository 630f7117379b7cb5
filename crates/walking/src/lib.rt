// Walks whole maps of the Ion 1.0 binary encoding.
#![tactic(auto)]

pub mod exports;
pub mod walk;
