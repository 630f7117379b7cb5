// The entries on a value of the Ion 1.0 binary encoding: stepping into a container, and reading a scalar.
#![tactic(auto)]

pub mod value;
