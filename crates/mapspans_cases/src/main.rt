// Writes what `mapspans` writes for each of the files that its arguments name, under the file's name.
#![tactic(auto)]

use std::io::{Eprint, Print};
use std::rt::Files;
use std::{env, fs, io};

fn list(rt: &(impl Files + Print + Eprint), name: &str) -> io::Result<()> {
    match fs::open(rt, name) {
        Ok(mut file) => {
            println!(rt; "{name}:")?;
            listing::list_file(rt, &mut file)
        }
        Err(error) => eprintln!(rt; "{name}: {error}"),
    }
}

fn main(rt: HostRuntime) -> io::Result<()> {
    for name in env::args(&rt)?.skip(1) {
        list(&rt, name.as_str())?;
    }
    Ok(())
}
