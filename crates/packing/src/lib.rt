// Packs maps of the Ion 1.0 binary encoding: without pads, and with each length in its shortest form.
#![tactic(auto)]

mod header;
mod output;
pub mod pack;
mod part;
pub mod size;
