// Answers the questions of the files that its arguments name on the layers below the exports, and compares each answer with
// the one written there: for each file it writes how many agree and how many differ, and each one that differs.
#![tactic(auto)]

mod answering;
mod asked;
mod check_questions;
mod decimal_questions;
mod frame_questions;
mod number_questions;
mod scalar_questions;
mod step_questions;
mod timestamp_questions;
mod walk_questions;

use questions::comparing;
use std::io;

fn main(rt: HostRuntime) -> io::Result<()> {
    let alloc = rt.alloc();
    comparing::compare_files(&rt, |line| answering::answer(alloc, line))
}
