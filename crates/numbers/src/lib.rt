// Numbers and descriptors of the Ion 1.0 binary encoding: the lowest layer of the map reader.
#![tactic(auto)]

pub mod binary_buffer;
pub mod int;
pub mod refusal;
pub mod type_descriptor;
pub mod var_int;
pub mod var_uint;
