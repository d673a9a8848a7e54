//! The server program: hands its words to the commands, and says on standard error why one failed.

#![tactic(auto)]

use bench_commands::Failure;
use std::process::ExitCode;
use std::{env, io};

fn start(rt: &HostRuntime) -> Result<(), Failure> {
    let all: Vec<String> = env::args(rt)?.skip(1).collect(rt.alloc())?;
    let words: Vec<&str> = all.iter().map(|word| word.as_str()).collect(rt.alloc())?;
    bench_commands::run(rt, words.as_slice())
}

/// A failure ends the program with status 1.
fn main(rt: HostRuntime) -> io::Result<ExitCode> {
    match start(&rt) {
        Ok(()) => Ok(ExitCode::SUCCESS),
        Err(failure) => {
            eprintln!(rt; "{failure}")?;
            Ok(ExitCode::FAILURE)
        }
    }
}
