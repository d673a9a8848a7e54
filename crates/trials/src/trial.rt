//! What reading and packing make of a macro, compared with what a line's answer tells of it.
use crate::lines::Answer;
use macros::faults::{Call, Told};
use macros::parts::Edge;
use packing::{Macro, PackRefusal, pack};
use reading::file::MacroFile;
use reading::{ReadRefusal, read};
use std::alloc::{AllocError, Global};
use std::fmt;

/// What memory holds before it is packed into.
const FILLER: u8 = 0xaa;

/// What lies beyond the packed bytes, and is to stay.
const BEYOND: [u8; 3] = [FILLER; 3];

/// What an answer tells of the macro.
#[derive(Clone, Copy)]
pub enum Expected {
    /// Reading refuses it so.
    Refused(Told),
    /// It is read, and packs into the same bytes.
    Read,
    /// Nothing, since the call was refused before the macro was looked at.
    Nothing,
}

/// What was found in place of what was expected.
#[derive(Clone, Copy)]
pub enum Deviation {
    /// Reading took it.
    Read,
    /// Reading or packing refused it so.
    Refused(Told),
    /// Packing counted so many bytes.
    Packed {
        count: usize,
    },
    /// Packing left another byte at this number, in its file or beyond.
    Byte {
        number: usize,
        found: u8,
        expected: u8,
    },
}

/// How a macro came out as expected.
#[derive(Clone, Copy)]
pub enum Agreement {
    Read,
    Refused,
    Skipped,
}

/// Why there is no agreement: something else was found, or there was no memory for the trial.
#[derive(Clone, Copy)]
pub enum Failure {
    Deviates(Deviation),
    Memory(AllocError),
}

/// Writes a refusal with the call that declined.
fn show<W: fmt::Write>(told: &Told, f: &mut fmt::Formatter<W>) -> fmt::Result {
    let call = match told.call {
        Call::Read => "read",
        Call::Pack => "pack",
    };
    write!(f, "{call} refused {}", told.number)?;
    if let Some(bit) = told.bit {
        write!(f, " bit {bit}")?;
    }
    if let Some(edge) = told.edge {
        write!(f, " edge {edge}")?;
    }
    Ok(())
}

impl fmt::Display for Expected {
    fn fmt<W: fmt::Write>(&self, f: &mut fmt::Formatter<W>) -> fmt::Result {
        match self {
            Expected::Refused(told) => show(told, f),
            Expected::Read => write!(f, "a macro that packs into the same bytes"),
            Expected::Nothing => write!(f, "nothing"),
        }
    }
}

impl fmt::Display for Deviation {
    fn fmt<W: fmt::Write>(&self, f: &mut fmt::Formatter<W>) -> fmt::Result {
        match self {
            Deviation::Read => write!(f, "a macro"),
            Deviation::Refused(told) => show(told, f),
            Deviation::Packed { count } => write!(f, "a macro that packs into {count} bytes"),
            Deviation::Byte {
                number,
                found,
                expected,
            } => write!(
                f,
                "byte {number} packed as {found:02x} and not {expected:02x}"
            ),
        }
    }
}

impl From<Answer> for Expected {
    /// Refusals 1 to 3 are the macro's own, and 4 and 5 come before it is looked at.
    fn from(answer: Answer) -> Expected {
        let Err(refusal) = answer else {
            return Expected::Read;
        };
        match refusal.number {
            1..=3 => Expected::Refused(Told {
                number: refusal.number,
                call: Call::Read,
                bit: refusal.bit,
                edge: refusal.edge,
            }),
            4 | 5 => Expected::Nothing,
            _ => Expected::Read,
        }
    }
}

impl From<Deviation> for Failure {
    fn from(deviation: Deviation) -> Failure {
        Failure::Deviates(deviation)
    }
}

impl From<Told> for Failure {
    /// A refusal where none was expected.
    fn from(told: Told) -> Failure {
        Failure::Deviates(Deviation::Refused(told))
    }
}

impl From<AllocError> for Failure {
    fn from(error: AllocError) -> Failure {
        Failure::Memory(error)
    }
}

/// Whether packing left the bytes of the macro's file, and beyond them what was there; the first other byte if not.
fn test_bytes(packed: &[u8], file: &[u8]) -> Result<(), Deviation> {
    let other = packed
        .iter()
        .zip(file.iter().chain(&BEYOND))
        .enumerate()
        .find(|(_, (found, expected))| found != expected);
    other.map_or(Ok(()), |(number, (found, expected))| {
        Err(Deviation::Byte {
            number,
            found: *found,
            expected: *expected,
        })
    })
}

/// Packs the macro into memory that is a little longer than its file, and compares all of it.
fn run_pack(heap: Global, source: Macro, bytes: &[u8]) -> Result<Agreement, Failure> {
    let mut out = vec![in heap; FILLER; bytes.len() + BEYOND.len()]?;
    let count = pack(source, out.as_mut_slice()).map_err(PackRefusal::told)?;
    if count != bytes.len() {
        return Err(Deviation::Packed { count }.into());
    }
    test_bytes(out.as_slice(), bytes)?;
    Ok(Agreement::Read)
}

/// Reads the macro and packs it again.
fn run_read(heap: Global, bytes: &[u8]) -> Result<Agreement, Failure> {
    let file = MacroFile::open(bytes).map_err(ReadRefusal::told)?;
    let edges: Vec<Edge> = file.edges().collect(heap)?;
    run_pack(heap, file.header.with_edges(edges.as_slice()), bytes)
}

/// Reads what is to be refused, and compares the number, the call and the spot.
fn run_refused(bytes: &[u8], expected: Told) -> Result<Agreement, Deviation> {
    let found = read(bytes).err().ok_or(Deviation::Read)?.told();
    if found == expected {
        Ok(Agreement::Refused)
    } else {
        Err(Deviation::Refused(found))
    }
}

/// Runs the calls on the bytes of a macro's file, and compares them with what is expected.
pub fn run(heap: Global, bytes: &[u8], expected: Expected) -> Result<Agreement, Failure> {
    match expected {
        Expected::Refused(told) => Ok(run_refused(bytes, told)?),
        Expected::Read => run_read(heap, bytes),
        Expected::Nothing => Ok(Agreement::Skipped),
    }
}
