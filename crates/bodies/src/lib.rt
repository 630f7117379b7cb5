// What is read from a scalar's body by itself: UTF-8, floats, big-endian numbers, magnitudes, decimals.
//
// Each takes the slice and a part of it, at..end, and not the part alone: a part that is none has its answer too, and positions are those of the slice.
#![tactic(auto)]

pub mod decimal;
pub mod float;
pub mod magnitude;
pub mod uint;
pub mod utf8;
