//! What the words of the command line ask for.
ghost use Rattle.command_words.specs.Commands.{Named, Offered, RunOf};

use crate::misuse::{Mistake, Misuse, Program};

/// A command with the files that it works on.
#[derive(Clone, Copy, Debug)]
pub enum Command<'a> {
    Demo,
    Show {
        file: &'a str,
    },
    Run {
        file: &'a str,
        options: RunOptions<'a>,
    },
}

/// The lists of numbers that a path is driven with, as words.
#[derive(Clone, Copy, Debug)]
pub struct RunOptions<'a> {
    pub start: &'a str,
    pub readings: &'a str,
    pub path: &'a str,
}

/// The command of the program that the words name: first its name, then its files, then its options.
pub fn parse<'a>(program: Program, words: &[&'a str]) -> Result<Command<'a>, Misuse>
    ensures named { Named result words.now }
    ensures offered { Offered program result }
{
    let named = match (program, words) {
        (_, ["demo"]) => Ok(Command::Demo),
        (_, ["show", file]) => Ok(Command::Show { file: *file }),
        (Program::Driving, ["run", file, options @ ..]) => {
            run_command(*file, options).ok_or(Mistake::WrongOptions)
        }
        (_, []) => Err(Mistake::NoCommand),
        (_, ["demo" | "show", ..]) | (Program::Driving, ["run", ..]) => Err(Mistake::WrongCount),
        _ => Err(Mistake::NoSuchCommand),
    };
    named.map_err(|mistake| Misuse { program, mistake })
}

/// The options of `run`, in any order and each at most once; only the readings may be left out.
fn run_command<'a>(file: &'a str, words: &[&'a str]) -> Option<Command<'a>>
    ensures { RunOf result file.now }
{
    let mut start = None;
    let mut readings = None;
    let mut path = None;
    for pair in words.chunks(2) {
        match pair {
            ["--start", value] if start.is_none() => start = Some(*value),
            ["--readings", value] if readings.is_none() => readings = Some(*value),
            ["--path", value] if path.is_none() => path = Some(*value),
            _ => return None,
        }
    }
    Some(Command::Run {
        file,
        options: RunOptions {
            start: start?,
            readings: readings.unwrap_or(""),
            path: path?,
        },
    })
}
