#![tactic(auto)]

// What is claimed of the reader, in one place: specs/Claims.antt states the theorems of the three demands.
// No function: each is proved in the crate that it speaks of, and cited here.
