// Reads a map, from the file that its argument names or else from standard input, and writes its walk.
#![tactic(auto)]

use std::io::{Eprint, ErrorKind};
use std::{env, fs, io};

fn main(rt: HostRuntime) -> io::Result<()> {
    let mut names = env::args(&rt)?.skip(1);
    match names.next() {
        None => listing::list_file(&rt, &mut rt.reader()),
        Some(name) => {
            if names.next().is_some() {
                eprintln!(rt; "usage: mapspans [MAP]")?;
                return Err(ErrorKind::InvalidInput.into());
            }
            listing::list_file(&rt, &mut fs::open(&rt, name.as_str())?)
        }
    }
}
