// The exported step, which other languages call, and the walk of whole maps.
#![tactic(auto)]

pub mod exports;
pub mod step;

pub use walking::walk;
