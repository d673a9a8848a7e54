//! Runs a command on a list of words and prints what came of it, so that it can be compared.

#![tactic(auto)]

use std::{fmt, io};

/// Prints the words, what the command prints, and then how it ended.
/// What a failure says goes to standard output here, so that it is compared too.
pub fn case<E: fmt::Display + Drop, F: FnOnce(&HostRuntime, &[&str]) -> Result<(), E>>(
    rt: &HostRuntime,
    command: F,
    words: &[&str],
) -> io::Result<()>
    requires { F.IsAlwaysCallable command }
{
    rt.print("pathbench")?;
    for word in words {
        print!(rt; " {word}")?;
    }
    rt.println("")?;
    match command(rt, words) {
        Ok(()) => rt.println("done"),
        Err(failure) => rt.println(failure),
    }
}
