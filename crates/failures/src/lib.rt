//! Why a command did not do its work, and how that is told on standard error.

#![tactic(auto)]

ghost use Rattle.failures.specs.Failures.{OfFile, OfSystem, failure_text};
ghost use Rattle.failures.specs.declared.Failure.TheVariants.{Drive as not_driven, Pack as not_packed, Read as not_read, Usage as misused};
ghost use Rattle.std.specs.Prelude.{◌≡◌, IfErr};

use command_words::misuse::Misuse;
use drive_texts::halts::HaltLine;
use packing::PackRefusal;
use reading::ReadRefusal;
use runs::halts::DriveHalt;
use std::alloc::{AllocError, AllocFailed};
use std::{fmt, fs, io};
use texts::faults::RefusalLine;

/// What a command answers where it fails. A refusal is kept whole, so that nothing of it is lost on the way to its line.
#[derive(Debug, Drop)]
pub enum Failure {
    Usage(Misuse),
    File { name: String, error: io::Error },
    Read(ReadRefusal),
    Pack(PackRefusal),
    Drive(DriveHalt),
    System(io::Error),
}

impl fmt::Display for Failure {
    ghost output = { failure_text };

    fn fmt<W: fmt::Write>(&self, f: &mut fmt::Formatter<W>) -> fmt::Result {
        match self {
            Failure::Usage(misuse) => write!(f, "{misuse}"),
            Failure::File { name, error } => write!(f, "cannot read {name}: {error}"),
            Failure::Read(refusal) => write!(f, "{}", RefusalLine::from(*refusal)),
            Failure::Pack(refusal) => write!(f, "{}", RefusalLine::from(*refusal)),
            Failure::Drive(halt) => write!(f, "{}", HaltLine(*halt)),
            Failure::System(error) => write!(f, "{error}"),
        }
    }
}

impl From<Misuse> for Failure {
    ghost from_gives = { λ m r. r ≡ misused m };

    fn from(misuse: Misuse) -> Failure {
        Failure::Usage(misuse)
    }
}

impl From<ReadRefusal> for Failure {
    ghost from_gives = { λ f r. r ≡ not_read f };

    fn from(refusal: ReadRefusal) -> Failure {
        Failure::Read(refusal)
    }
}

impl From<PackRefusal> for Failure {
    ghost from_gives = { λ f r. r ≡ not_packed f };

    fn from(refusal: PackRefusal) -> Failure {
        Failure::Pack(refusal)
    }
}

impl From<DriveHalt> for Failure {
    ghost from_gives = { λ h r. r ≡ not_driven h };

    fn from(halt: DriveHalt) -> Failure {
        Failure::Drive(halt)
    }
}

impl From<io::Error> for Failure {
    ghost from_gives = { λ _ r. OfSystem r };

    fn from(error: io::Error) -> Failure {
        Failure::System(error)
    }
}

impl From<AllocError> for Failure {
    ghost from_gives = { λ _ r. OfSystem r };

    fn from(error: AllocError) -> Failure {
        Failure::System(error.into())
    }
}

impl<T: Drop> From<AllocFailed<T>> for Failure {
    ghost from_gives = { λ _ r. OfSystem r };

    fn from(error: AllocFailed<T>) -> Failure {
        Failure::System(error.into())
    }
}

impl From<fmt::Error> for Failure {
    ghost from_gives = { λ _ r. OfSystem r };

    fn from(error: fmt::Error) -> Failure {
        Failure::System(error.into())
    }
}

/// The bytes of a file, or a failure that names the file.
pub fn file_bytes(rt: &HostRuntime, name: &str) -> Result<Vec<u8>, Failure>
    ensures { IfErr result OfFile }
{
    fs::read(rt, name).or_else(|error| -> Result<Vec<u8>, Failure> {
        let name = String::from_str(rt.alloc(), name)?;
        Err(Failure::File { name, error })
    })
}
