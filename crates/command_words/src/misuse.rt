//! Words that name no command, and how that is told.
ghost use Rattle.command_words.specs.Misuses.{mistake_text, misuse_text, usage_text};
ghost use Rattle.std.specs.Prelude.{◌≡◌, Some};

use std::fmt;

/// The programs, each by what it offers.
#[derive(Clone, Copy, Debug, PartialEq, Eq)]
pub enum Program {
    /// The commands `demo` and `show`.
    Showing,
    /// The command `run` too.
    Driving,
}

/// How the program is used.
impl fmt::Display for Program {
    ghost output = { λ p. Some (usage_text p) };

    fn fmt<W: fmt::Write>(&self, f: &mut fmt::Formatter<W>) -> fmt::Result {
        match self {
            Program::Showing => write!(f, "usage: pathbench demo | pathbench show MACRO"),
            Program::Driving => write!(
                f,
                "usage: pathbench demo | pathbench show MACRO | pathbench run MACRO --start NUMBERS [--readings NUMBERS] --path EDGES"
            ),
        }
    }
}

/// What is wrong with the words.
#[derive(Clone, Copy, Debug, PartialEq, Eq)]
pub enum Mistake {
    NoCommand,
    NoSuchCommand,
    WrongCount,
    WrongOptions,
    StartNumbers,
    ReadingNumbers,
    PathNumbers,
}

impl fmt::Display for Mistake {
    ghost output = { λ m. Some (mistake_text m) };

    fn fmt<W: fmt::Write>(&self, f: &mut fmt::Formatter<W>) -> fmt::Result {
        match self {
            Mistake::NoCommand => write!(f, "no command"),
            Mistake::NoSuchCommand => write!(f, "no such command"),
            Mistake::WrongCount => write!(f, "wrong number of files"),
            Mistake::WrongOptions => write!(
                f,
                "options must be --start and --path, and --readings if any, each once with a value"
            ),
            Mistake::StartNumbers => write!(
                f,
                "--start takes numbers from -2147483648 to 2147483647, with commas between"
            ),
            Mistake::ReadingNumbers => write!(
                f,
                "--readings takes numbers from -2147483648 to 2147483647, with commas between"
            ),
            Mistake::PathNumbers => write!(
                f,
                "--path takes edge numbers from 0 to 65535, with commas between"
            ),
        }
    }
}

/// Words that name no command of the program.
#[derive(Clone, Copy, Debug, PartialEq, Eq)]
pub struct Misuse {
    pub program: Program,
    pub mistake: Mistake,
}

impl fmt::Display for Misuse {
    ghost output = { λ m. Some (misuse_text m) };

    fn fmt<W: fmt::Write>(&self, f: &mut fmt::Formatter<W>) -> fmt::Result {
        write!(f, "{}\n{}", self.mistake, self.program)
    }
}
