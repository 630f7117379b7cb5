// What is read from the body of a timestamp by itself, and the Gregorian calendar.
#![tactic(auto)]

mod calendar;
pub mod timestamp;
