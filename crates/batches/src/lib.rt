// The function that other languages call for many steps at once.
#![tactic(auto)]

pub mod steps;
