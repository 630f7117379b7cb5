// Calls the exported functions as the files that its arguments name say, and compares what each returned and left in its buffer
// with what is written there: for each file it writes how many agree and how many differ, and each one that differs.
#![tactic(auto)]

mod arguments;
mod calls;
mod function;
mod left;
mod lending;
mod reading_calls;
mod step_calls;
mod symbol_calls;
mod write_calls;

use questions::comparing;
use std::io;

fn main(rt: HostRuntime) -> io::Result<()> {
    let alloc = rt.alloc();
    comparing::compare_files(&rt, |line| calls::answer(alloc, line))
}
