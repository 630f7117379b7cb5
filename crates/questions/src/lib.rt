// Stored questions: a file has lines `QUESTION = ANSWER`, a program answers each question, and the answers are compared.
// Nothing here knows what is asked, but for the limits that a question may leave out.
#![tactic(auto)]

pub mod comparing;
pub mod hexadecimal;
pub mod words;
