// Every stored job through the engine and the line writer: behind a line with its name what the listing prints, and for the jobs of some
// folders what the run leaves in the lent storage.
#![tactic(auto)]

mod listed;
mod storage;

use std::fs::File;
use std::{env, io};

// Whether the storage is printed too.
fn stored(name: &str) -> bool {
    name.starts_with("paper/") || name.starts_with("largest/")
}

// The job of that name; whether to go on: its name was written, and its storage where that is asked for.
fn run(rt: &HostRuntime, name: &str) -> io::Result<bool> {
    let mut file = File::open(rt, name)?;
    let mut job = [0u8; 65536];
    let k = input::read_full(&mut file, &mut job)?;
    let named = print!(rt; "{name}");
    let ended = print!(rt; "\n");
    Ok(named.is_ok() && ended.is_ok() && listed::list(rt, &job[..k], stored(name)).is_ok())
}

// A name or a storage that can't be written ends the program quietly; a listing that can't is passed over.
fn main(rt: HostRuntime) -> io::Result<()> {
    for name in env::args(&rt)?.skip(1) {
        if !run(&rt, name.as_str())? {
            break;
        }
    }
    Ok(())
}
