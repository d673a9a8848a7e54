//! Why a drive halts, in one line.
ghost use Rattle.drive_texts.specs.Halts.{edge_halt_text, halt_line, no_step_text};
ghost use Rattle.std.specs.Prelude.{◌≡◌, Some};

use runs::halts::{DriveHalt, EdgeHalt, NoStep};
use std::fmt;

fn no_step_text(reason: NoStep) -> &'static str
    ensures { result.now ≡ no_step_text reason }
{
    match reason {
        NoStep::ZeroDivisor => "divisor is 0",
        NoStep::NotPassed => "comparison does not hold",
        NoStep::NoReading => "no reading is left",
    }
}

/// Why an edge is not taken.
#[derive(Clone, Copy, Debug)]
pub struct EdgeHaltText(pub EdgeHalt);

impl fmt::Display for EdgeHaltText {
    ghost output = { λ t. Some (edge_halt_text t.0) };

    fn fmt<W: fmt::Write>(&self, f: &mut fmt::Formatter<W>) -> fmt::Result {
        match self.0 {
            EdgeHalt::NoSuchEdge { edges } => { write!(f, "no such edge, the macro has {edges}") }
            EdgeHalt::OtherPlace { from, present } => {
                write!(f, "leaves place {from}, the run is at place {present}")
            }
            EdgeHalt::Operation(reason) => f.write_str(no_step_text(reason)),
        }
    }
}

/// Why a path is not driven, as `stopped step 2 edge 4: comparison does not hold`.
#[derive(Clone, Copy, Debug)]
pub struct HaltLine(pub DriveHalt);

impl fmt::Display for HaltLine {
    ghost output = { λ t. Some (halt_line t.0) };

    fn fmt<W: fmt::Write>(&self, f: &mut fmt::Formatter<W>) -> fmt::Result {
        match self.0 {
            DriveHalt::Start { found, expected } => {
                write!(f, "stopped: start numbers are {found}, must be {expected}")
            }
            DriveHalt::Edge { step, edge, halt } => {
                write!(f, "stopped step {step} edge {edge}: {}", EdgeHaltText(halt))
            }
            DriveHalt::ReadingsLeft { taken, given } => {
                write!(f, "stopped: readings are {given}, the path takes {taken}")
            }
        }
    }
}
