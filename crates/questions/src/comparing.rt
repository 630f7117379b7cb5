// Files of questions: reading them, comparing the answers that they have with a program's, and counting. A file is bytes: a line that is no text is asked
// and repeated like any other.
use std::alloc::AllocError;
use std::io::{Read, Write};
use std::rt::{Env, Files};
use std::{env, fs, io};

// The most bytes of a file that are read.
const MOST_OF_FILE: u64 = 262144;

// The most bytes of an answer that are compared and written.
pub const MOST_OF_ANSWER: usize = 4096;

#[derive(Clone, Copy, Debug, Default)]
struct Tally {
    agree: u64,
    differ: u64,
}

impl Tally {
    fn count(self, agrees: bool) -> Self {
        if agrees {
            Tally {
                agree: self.agree.saturating_add(1),
                ..self
            }
        } else {
            Tally {
                differ: self.differ.saturating_add(1),
                ..self
            }
        }
    }
}

// The answer that a line has: what stands behind its first `=` and a byte more.
fn expected_answer(line: &[u8]) -> &[u8] {
    line.iter()
        .position(|byte| *byte == b'=')
        .and_then(|at| line.get(at..))
        .and_then(|marked| marked.get(2..))
        .unwrap_or(&[])
}

// Whether a line has nothing to compare with: it is empty or a comment, or its answer is `unsupported`.
fn is_passed_over(line: &[u8], expected: &[u8]) -> bool {
    line.is_empty() || line.starts_with(b"#") || matches!(expected, b"unsupported")
}

// Whether a word is the one expected. A `?` stands for any word.
fn is_expected(expected: &[u8], word: &[u8]) -> bool {
    if matches!(expected, b"?") {
        !word.is_empty()
    } else {
        expected == word
    }
}

// An expected answer without the mark `!` and the byte before it, which are no part of it.
fn unmarked(expected: &[u8]) -> &[u8] {
    match expected {
        [answer @ .., _, b'!'] => answer,
        _ => expected,
    }
}

// Whether an answer has the words that are wanted, and no other. Where the last word wanted is empty, nothing agrees.
// The second one's words by hand: `zip` would stop at the shorter, and not say whether words are left.
fn has_words(answer: &[u8], wanted: &[u8]) -> bool {
    if wanted.is_empty() || wanted.ends_with(b" ") {
        return false;
    }
    let mut words = answer.split(|byte| *byte == b' ');
    for wanted in wanted.split(|byte| *byte == b' ') {
        let Some(word) = words.next() else {
            return false;
        };
        if !is_expected(wanted, word) {
            return false;
        }
    }
    words.next().is_none()
}

// Our answer to compare with the one expected. The oracle says a refusal of the part itself once, whatever the count of
// steps is; of ours the first item is compared with it.
fn said_once<'a>(expected: &[u8], ours: &'a [u8]) -> &'a [u8] {
    if matches!(expected, b"refused 50 0 !") {
        return first_item(ours);
    }
    ours
}

// The first of the items that ` ; ` joins.
fn first_item(answer: &[u8]) -> &[u8] {
    match answer.iter().position(|byte| *byte == b';') {
        Some(at) if 0 < at => &answer[..at - 1],
        _ => answer,
    }
}

// As much of an answer as is compared.
fn cut(answer: &[u8]) -> &[u8] {
    &answer[..answer.len().min(MOST_OF_ANSWER)]
}

// What is read of the file of that name: nothing where it does not open, which the standard error then has.
fn read_file<R: Files + Eprint + AllocGlobal>(rt: &R, name: &str) -> io::Result<Vec<u8>> {
    let mut bytes = Vec::new(rt.alloc());
    match fs::open(rt, name) {
        Ok(file) => {
            file.take(MOST_OF_FILE).read_to_end(&mut bytes)?;
        }
        Err(error) => eprintln!(rt; "{name}: {error}")?,
    }
    Ok(bytes)
}

// By bytes, and not by a format: a line may be no text.
fn write_difference(rt: &impl Print, line: &[u8], ours: &[u8]) -> io::Result<()> {
    let mut out = io::writer(rt);
    out.write_all(line)?;
    out.write_all(b"\n  but we answer ")?;
    out.write_all(ours)?;
    out.write_all(b"\n")
}

// Whether the answer that a line has is ours. Where they differ, both are written.
fn compare(rt: &impl Print, line: &[u8], expected: &[u8], made: &str) -> io::Result<bool> {
    let ours = said_once(expected, cut(made.as_bytes()));
    let agrees = has_words(ours, unmarked(expected));
    if !agrees {
        write_difference(rt, line, ours)?;
    }
    Ok(agrees)
}

// Asks the questions of the file of that name, and writes each one whose answer differs, how many agree and how many differ.
fn compare_file<R, F>(rt: &R, name: &str, answer: &F) -> io::Result<()>
where
    R: Files + Print + Eprint + AllocGlobal,
    F: Fn(&[u8]) -> Result<String, AllocError>,
    requires { F.IsAlwaysCallable answer.now }
{
    let bytes = read_file(rt, name)?;
    let mut tally = Tally::default();
    for line in bytes.split(|byte| *byte == b'\n') {
        let expected = expected_answer(line);
        if is_passed_over(line, expected) {
            continue;
        }
        let made = answer(line)?;
        tally = tally.count(compare(rt, line, expected, made.as_str())?);
    }
    let agree = tally.agree;
    let differ = tally.differ;
    println!(rt; "{name}: {agree} agree, {differ} differ")
}

// Does so for each file that the program's arguments name. A question is answered by its whole line.
pub fn compare_files<R, F>(rt: &R, answer: F) -> io::Result<()>
where
    R: Env + Files + Print + Eprint + AllocGlobal,
    F: Fn(&[u8]) -> Result<String, AllocError> + Drop,
    requires { F.IsAlwaysCallable answer }
{
    for name in env::args(rt)?.skip(1) {
        compare_file(rt, name.as_str(), &answer)?;
    }
    Ok(())
}
