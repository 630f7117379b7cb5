// Writes values of the Ion 1.0 binary encoding into a lent buffer: each thing as it is read back, or a refusal that leaves the buffer as it was.
// There is no heap, and C lends the buffer.
#![tactic(auto)]

pub mod container;
pub mod pad;
pub mod scalar;
pub mod wrapper;
pub mod written;
