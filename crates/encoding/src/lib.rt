// Fields of the Ion 1.0 binary encoding as they are written, in the fewest bytes: what packing a map and writing a value share.
#![tactic(auto)]

pub mod put;
