// Framing of the Ion 1.0 binary encoding: which bytes are the value, the pad or the wrapper that stands at a position.
#![tactic(auto)]

pub mod annotations_iterator;
mod annotations_wrapper;
pub mod binary_buffer;
mod described;
pub mod encoded_value;
pub mod limits;
