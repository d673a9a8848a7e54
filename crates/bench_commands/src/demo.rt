//! Packs two small macros in memory, and shows what their bytes read as. In macro A a run to the guarded place is left
//! open: any start below 0. In macro B there is none, since the variable is set to 0 before it is tested.
ghost use Rattle.macros.specs.Lent.{given};
ghost use Rattle.reading.specs.Reading.{read_macro};
ghost use Rattle.failures.specs.Failures.{OfShowing};
ghost use Rattle.std.specs.Prelude.{◌≡◌, IfErr, IfOk, Ok};

use crate::show::show_lines;
use failures::Failure;
use macros::parts::{Comparison, Edge, Operand, Operation};
use packing::{Macro, pack};
use std::alloc::Global;
use std::fmt;

/// The length of a file with the most edges: 4 + 12 * 511 bytes.
const LONGEST: usize = 6136;

/// The bytes of a macro, which read back as that macro.
fn packed(heap: Global, source: Macro) -> Result<Vec<u8>, Failure>
    ensures reads_back { IfOk result (λ v. read_macro v.items ≡ Ok (given source.entry)) }
    ensures failure { IfErr result OfShowing }
{
    let mut bytes = vec![in heap; 0; LONGEST]?;
    let count = pack(source, bytes.as_mut_slice())?;
    bytes.truncate(count);
    Ok(bytes)
}

fn show_packed(rt: &HostRuntime, name: &str, source: Macro) -> Result<(), Failure>
    ensures { IfErr result OfShowing }
{
    let bytes = packed(rt.alloc(), source)?;
    // Where memory for a text runs out, what people read is that the text could not be written.
    let digits = hex::encode(rt.alloc(), bytes.as_slice()).map_err(|_| fmt::Error)?;
    let lines = show_lines(rt.alloc(), bytes.as_slice())?;
    println!(rt; "macro {name}")?;
    println!(rt; "packed {digits}")?;
    rt.print(lines)?;
    Ok(())
}

/// An edge that is passed if variable 0 compares so to 0.
fn test_edge(from: u8, to: u8, comparison: Comparison) -> Edge {
    let operation = Operation::Test {
        comparison,
        left: Operand::Variable(0),
        right: Operand::Constant(0),
    };
    Edge {
        from,
        to,
        operation,
    }
}

fn show_a(rt: &HostRuntime) -> Result<(), Failure>
    ensures { IfErr result OfShowing }
{
    let edges = [test_edge(0, 1, Comparison::Less)];
    let source = Macro {
        variables: 1,
        places: 2,
        guarded: 1,
        edges: &edges,
    };
    show_packed(rt, "A", source)
}

fn show_b(rt: &HostRuntime) -> Result<(), Failure>
    ensures { IfErr result OfShowing }
{
    let set = Operation::Set {
        target: 0,
        value: Operand::Constant(0),
    };
    let first = Edge {
        from: 0,
        to: 1,
        operation: set,
    };
    let edges = [first, test_edge(1, 2, Comparison::Greater)];
    let source = Macro {
        variables: 1,
        places: 3,
        guarded: 2,
        edges: &edges,
    };
    show_packed(rt, "B", source)
}

/// Prints for each macro its bytes, and the lines that they are shown by.
pub fn demo(rt: &HostRuntime) -> Result<(), Failure>
    ensures { IfErr result OfShowing }
{
    show_a(rt)?;
    show_b(rt)
}
