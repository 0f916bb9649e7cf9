//! `bookcheck` reads a roll book on standard input and tells what it holds, or the first thing that is wrong with it.
#![tactic(auto)]

use std::io;
use std::io::Read;
use std::process::ExitCode;
use summary::check;

// One byte more than a book may have is enough to tell that it is too long.
const MOST: u64 = 65537;

// Prints the verdict: an accepted book ends with status 0, a refused one with 1.
fn run(rt: &HostRuntime) -> io::Result<ExitCode> {
    let mut bytes = Vec::new(rt.alloc());
    rt.stdin().take(MOST).read_to_end(&mut bytes)?;
    match check(bytes.as_slice()) {
        Ok(summary) => {
            rt.println(summary)?;
            Ok(ExitCode::SUCCESS)
        }
        Err(refusal) => {
            rt.println(refusal)?;
            Ok(ExitCode::FAILURE)
        }
    }
}

fn main(rt: HostRuntime) -> anyhow::Result<ExitCode> {
    Ok(run(&rt)?)
}
