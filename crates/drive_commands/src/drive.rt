//! Drives a path through the macro in a file.
ghost use Rattle.reading.specs.Reading.{edges_in};
ghost use Rattle.failures.specs.Failures.{OfDriving};
ghost use Rattle.std.specs.Prelude.{◌≡◌, IfErr, IfOk};

use command_words::command::RunOptions;
use command_words::misuse::{Mistake, Misuse, Program};
use drive_texts::lines::drive_lines;
use failures::{Failure, file_bytes};
use macros::parts::Edge;
use reading::file::MacroFile;
use runs::drives::{Driver, drive};
use runs::halts::DriveHalt;
use std::alloc::{AllocError, Global};
use std::fmt;
use std::str::FromStr;

/// The numbers in a word, with commas between them; an empty word has none.
fn list<T: FromStr + Drop>(heap: Global, word: &str, mistake: Mistake) -> Result<Vec<T>, Failure>
where
    <T as FromStr>::Err: Drop,
    ensures { IfErr result OfDriving }
{
    if word.is_empty() {
        return Ok(Vec::new(heap));
    }
    let misuse = Misuse {
        program: Program::Driving,
        mistake,
    };
    word.split(',')
        .map(|part| -> Result<T, Failure> { part.parse::<T>().map_err(|_| misuse.into()) })
        .try_collect(heap)
}

/// The edges in the order of the file.
fn edges_of(heap: Global, file: MacroFile) -> Result<Vec<Edge>, AllocError>
    ensures { IfOk result (λ v. v.items ≡ edges_in file.entry.bytes.now) }
{
    file.edges().collect(heap)
}

/// Prints the steps of the path, and then the place where it ends, and whether that is the guarded place.
pub fn run(rt: &HostRuntime, file: &str, options: RunOptions) -> Result<(), Failure>
    ensures { IfErr result OfDriving }
{
    let heap = rt.alloc();
    let start: Vec<i32> = list(heap, options.start, Mistake::StartNumbers)?;
    let readings: Vec<i32> = list(heap, options.readings, Mistake::ReadingNumbers)?;
    let path: Vec<u16> = list(heap, options.path, Mistake::PathNumbers)?;
    let bytes = file_bytes(rt, file)?;
    let source = MacroFile::open(bytes.as_slice())?;
    let edges = edges_of(heap, source)?;
    let mut numbers = start.clone()?;
    let answer = drive(
        source.header.with_edges(edges.as_slice()),
        path.as_slice(),
        numbers.as_mut_slice(),
        readings.as_slice(),
    );
    if let Err(DriveHalt::Start { .. }) = answer {
        // No run starts with these numbers, so there is no step to print.
        answer?;
    }
    let driver = Driver {
        edges: edges.as_slice(),
        readings: readings.as_slice(),
    };
    // Where memory for a text runs out, what people read is that the text could not be written.
    let lines = drive_lines(heap, driver, path.as_slice(), start.as_slice()).map_err(
        |_| fmt::Error,
    )?;
    rt.print(lines)?;
    let place = answer?;
    println!(rt; "end place {place}")?;
    let guarded = if place == source.header.guarded {
        "yes"
    } else {
        "no"
    };
    println!(rt; "guarded {guarded}")?;
    Ok(())
}
