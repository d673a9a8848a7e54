//! The commands of the server program, over a list of words.

#![tactic(auto)]

ghost use Rattle.failures.specs.Failures.{OfShowing};
ghost use Rattle.std.specs.Prelude.{IfErr};

mod demo;
mod show;

use command_words::command::{Command, parse};
use command_words::misuse::Program;
pub use failures::Failure;

/// Does what the words ask for. What it prints goes to standard output; a failure is for the caller to print.
pub fn run(rt: &HostRuntime, words: &[&str]) -> Result<(), Failure>
    ensures { IfErr result OfShowing }
{
    match parse(Program::Showing, words)? {
        Command::Demo => demo::demo(rt),
        Command::Show { file } => show::show(rt, file),
        Command::Run { .. } => unreachable!(),
    }
}
