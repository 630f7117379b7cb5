// The texts of symbols: which symbol table rules at a place of a stream, and where the text of an ID lies.
#![tactic(auto)]

mod symbol_table;
pub mod symbols;
mod system_texts;
