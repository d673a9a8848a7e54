//! The command `run`, which drives a path through a macro, over a list of words. The program does not offer it yet.

#![tactic(auto)]

ghost use Rattle.failures.specs.Failures.{OfDriving};
ghost use Rattle.std.specs.Prelude.{IfErr};

mod drive;

use command_words::command::{Command, parse};
use command_words::misuse::{Mistake, Misuse, Program};
pub use failures::Failure;

/// Does what the words ask for, where they name the command `run`. What it prints goes to standard output; a failure is
/// for the caller to print.
pub fn run(rt: &HostRuntime, words: &[&str]) -> Result<(), Failure>
    ensures { IfErr result OfDriving }
{
    let program = Program::Driving;
    match parse(program, words)? {
        Command::Run { file, options } => drive::run(rt, file, options),
        Command::Demo | Command::Show { .. } => Err(Misuse {
            program,
            mistake: Mistake::NoSuchCommand,
        }
        .into()),
    }
}
