// Steps that count what they pass on the way to their answer.
#![tactic(auto)]

pub mod counted;
