// Writes the walk of a map as text, a line for each answer.
#![tactic(auto)]

ghost use Rattle.std.specs.Prelude.{◌≡◌, ◌≤◌, length, IfOk};

use framing::encoded_value::EncodedValue;
use numbers::refusal::{Reason, Refusal};
use std::fmt::Write as _;
use std::io::{Print, Read, Write};
use std::{fmt, io};
use stepping::cursor::{Item, is_last};
use walking::walk::{Walk, Walked};

// The most bytes of a map that are listed.
const MOST: usize = 65536;

// The limits of the walk: the most bytes that a value's annotations may have, and the depth at which a container is not entered.
const ANNOTATION_LIMIT: usize = 255;

const DEPTH_LIMIT: usize = 32;

// The bytes of a page, and those that are left of it when it is written out: a line takes fewer.
const PAGE: usize = 8192;

const LINE: usize = 256;

// The name of a type, by its code. A type code is the document's own number.
pub fn type_name(code: u8) -> &'static str {
    match code {
        0 => "null",
        1 => "bool",
        2 | 3 => "int",
        4 => "float",
        5 => "decimal",
        6 => "timestamp",
        7 => "symbol",
        8 => "string",
        9 => "clob",
        10 => "blob",
        11 => "list",
        12 => "sexp",
        _ => "struct",
    }
}

// An answer of the walk, as a line without its end.
#[derive(Clone, Copy)]
pub struct Line {
    pub depth: usize,
    pub item: Result<Item, Refusal>,
}

// A number, behind a space. By `itoa` and not by `write!`, by which a map's listing takes 1.7 times as long.
fn put_number<W: fmt::Write>(out: &mut W, n: usize) -> fmt::Result {
    let mut digits = itoa::Buffer::new();
    out.write_char(' ')?;
    out.write_str(digits.format(n))
}

impl Line {
    // What begins the line of an item: its depth, and behind it the word for what it is.
    fn put_word<W: fmt::Write>(self, out: &mut W, word: &str) -> fmt::Result {
        let mut digits = itoa::Buffer::new();
        out.write_str(digits.format(self.depth))?;
        out.write_char(' ')?;
        out.write_str(word)
    }

    // A value: its depth and its type, where it starts, its descriptor's position, its body's start and its end.
    fn put_value<W: fmt::Write>(
        self,
        out: &mut W,
        start: usize,
        value: EncodedValue,
    ) -> fmt::Result {
        // By the byte's halves, as in `values`: a descriptor would be made with its kind for each test.
        self.put_word(out, type_name(value.byte / 16))?;
        put_number(out, start)?;
        put_number(out, value.descriptor)?;
        put_number(out, value.body)?;
        put_number(out, value.end)
    }

    // Puts it into a text, or onto a page.
    fn put<W: fmt::Write>(self, out: &mut W) -> fmt::Result {
        match self.item {
            Ok(Item::End { position }) => {
                out.write_str("end")?;
                put_number(out, position)
            }
            Ok(Item::Marker { start, end, .. }) => {
                self.put_word(out, "marker")?;
                put_number(out, start)?;
                put_number(out, start)?;
                put_number(out, end)?;
                put_number(out, end)
            }
            Ok(Item::Value(value)) => self.put_value(out, value.start, value),
            Ok(Item::Field { start, value, .. }) => self.put_value(out, start, value),
            Err(refusal) => {
                write!(out, "refused {}", refusal.reason.number())?;
                put_number(out, refusal.position)
            }
        }
    }
}

impl fmt::Display for Line {
    fn fmt<W: fmt::Write>(&self, f: &mut fmt::Formatter<W>) -> fmt::Result {
        self.put(f)
    }
}

// A page of text, of which some bytes are taken. It and the map lie on the stack: a listing takes nothing from the heap, and so ends in no lack of memory.
#[derive(Drop)]
struct Page {
    bytes: [u8; PAGE],
    taken: usize,
}

impl Page {
    fn new() -> Self {
        Page {
            bytes: [0; PAGE],
            taken: 0,
        }
    }

    // Writes out what is taken.
    fn flush(&mut self, rt: &impl Print) -> io::Result<()> {
        let taken = self.taken.min(PAGE);
        self.taken = 0;
        io::writer(rt).write_all(&self.bytes[..taken])
    }

    // Puts a line, and writes the page out where it has no room for another.
    fn put_line(&mut self, rt: &impl Print, line: Line) -> io::Result<()> {
        line.put(self)?;
        self.write_char('\n')?;
        if PAGE - LINE < self.taken {
            self.flush(rt)?;
        }
        Ok(())
    }
}

// What finds no room is left out: the page is written out in time.
impl fmt::Write for Page {
    fn write_str(&mut self, text: &str) -> fmt::Result {
        for byte in text.as_bytes() {
            let taken = self.taken;
            if taken < PAGE {
                self.bytes[taken] = *byte;
                self.taken = taken + 1;
            }
        }
        Ok(())
    }
}

// Writes the walk of a map, by a page. It has an answer for each byte at most, and the last.
fn list_map(rt: &impl Print, map: &[u8]) -> io::Result<()> {
    let mut page = Page::new();
    let mut walk = Walk::start(map);
    for _ in 0..=map.len() {
        let Walked { depth, item, next } = walk.next(map, ANNOTATION_LIMIT, DEPTH_LIMIT);
        page.put_line(rt, Line { depth, item })?;
        if is_last(item) {
            break;
        }
        walk = next;
    }
    page.flush(rt)
}

// Reads until `space` is full or the input ends, and answers how many bytes there are.
fn read_full(file: &mut impl Read, space: &mut [u8]) -> io::Result<usize>
    ensures { IfOk result (λ n. n ≤ length space.new) }
{
    let mut done = 0;
    while done < space.len() {
        let n = file.read(&mut space[done..])?;
        if n == 0 {
            break;
        }
        done += n;
    }
    Ok(done)
}

// Room for a map, and for one byte more.
fn room() -> [u8; 65537]
    ensures { 65537 ≡ length result }
{
    [0; 65537]
}

// Writes the walk of the map that is read from a file; of one that is too long, only that.
pub fn list_file(rt: &impl Print, file: &mut impl Read) -> io::Result<()> {
    let mut space = room();
    let length = read_full(file, &mut space)?;
    if MOST < length {
        let refusal = Refusal {
            reason: Reason::InputTooLong,
            position: MOST,
        };
        let mut page = Page::new();
        page.put_line(
            rt,
            Line {
                depth: 0,
                item: Err(refusal),
            },
        )?;
        return page.flush(rt);
    }
    list_map(rt, &space[..length])
}
