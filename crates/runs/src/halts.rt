//! Why a run does not go on: an operation that makes no step lies in the halt of its edge, and that in the halt of the
//! drive.
ghost use Rattle.runs.specs.declared.halts.EdgeHalt.TheVariants.{Operation as at_operation};
ghost use Rattle.std.specs.Prelude.{◌≡◌};

/// Why an operation makes no step from the present numbers.
#[derive(Clone, Copy, Debug, PartialEq, Eq)]
pub enum NoStep {
    /// The divisor of a remainder is 0.
    ZeroDivisor,
    /// The comparison does not hold.
    NotPassed,
    /// It reads, and every reading is used up.
    NoReading,
}

/// Why an edge is not taken.
#[derive(Clone, Copy, Debug, PartialEq, Eq)]
pub enum EdgeHalt {
    /// The macro has only so many edges.
    NoSuchEdge { edges: usize },
    /// The edge leaves another place than the present one.
    OtherPlace { from: u8, present: u8 },
    /// The edge leaves the present place, but makes no step.
    Operation(NoStep),
}

/// Why a path is not driven.
#[derive(Clone, Copy, Debug, PartialEq, Eq)]
pub enum DriveHalt {
    /// There must be a start number for each variable.
    Start {
        found: usize,
        expected: u8,
    },
    /// An edge is not taken; steps count from 0.
    Edge {
        step: usize,
        edge: u16,
        halt: EdgeHalt,
    },
    /// The path ends before all readings are taken.
    ReadingsLeft {
        taken: usize,
        given: usize,
    },
}

impl From<NoStep> for EdgeHalt {
    ghost from_gives = { λ f r. r ≡ at_operation f };

    fn from(reason: NoStep) -> EdgeHalt {
        EdgeHalt::Operation(reason)
    }
}
