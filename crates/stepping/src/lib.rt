// Steps through streams, sequences and structs of the Ion 1.0 binary encoding.
#![tactic(auto)]

pub mod cursor;
