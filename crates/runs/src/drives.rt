//! Driving a path through a macro.
ghost use Rattle.macros.specs.Lent.{given};
ghost use Rattle.macros.specs.Number.{Number};
ghost use Rattle.runs.specs.Promises.{DriveComplete, DriveSound, DrivenRuns, NumbersKept, RunsDriven, StartReached};
ghost use Rattle.runs.specs.Steps.{advance, begin, drive_answer, drive_numbers, follow, numbers_taken, position_taken, taken};
ghost use Rattle.std.specs.List.{All};
ghost use Rattle.std.specs.Prelude.{◌≡◌};

use crate::halts::{DriveHalt, EdgeHalt};
use crate::steps::{readings_of, step};
use macros::parts::{Edge, Macro};

/// Where a drive stands: the present place, and how many readings were taken.
#[derive(Clone, Copy, Debug, PartialEq, Eq)]
pub struct Position {
    pub place: u8,
    pub taken: usize,
}

/// What a drive goes by, which stays the same throughout: the edges of the macro, and the readings.
#[derive(Clone, Copy, Debug)]
pub struct Driver<'a> {
    pub edges: &'a [Edge],
    pub readings: &'a [i32],
}

impl Driver<'_> {
    /// Takes the edge of this number, with the next reading if it reads. An edge that is not taken changes no number.
    #[tactic(auto, using(crate::proofs::Takes::item_got))]
    pub fn take_edge(
        self,
        number: u16,
        position: Position,
        numbers: &mut [i32],
    ) -> Result<Position, EdgeHalt>
        ensures answer { result ≡ position_taken (taken self.entry.edges.now self.entry.readings.now number (advance position numbers.old)) }
        ensures numbers { numbers.new ≡ numbers_taken numbers.old (taken self.entry.edges.now self.entry.readings.now number (advance position numbers.old)) }
    {
        let edge = self
            .edges
            .get(usize::from(number))
            .copied()
            .ok_or(EdgeHalt::NoSuchEdge {
                edges: self.edges.len(),
            })?;
        if edge.from != position.place {
            return Err(EdgeHalt::OtherPlace {
                from: edge.from,
                present: position.place,
            });
        }
        let reading = self.readings.get(position.taken).copied();
        step(edge.operation, numbers, reading)?;
        Ok(Position {
            place: edge.to,
            taken: position.taken + readings_of(edge.operation),
        })
    }

    /// Takes the edges of the path in turn from place 0 on, and answers the position at the end.
    #[tactic(auto, using(crate::proofs::Takes::path_more, crate::proofs::Takes::path_halts, crate::proofs::Takes::path_ends))]
    fn follow(self, path: &[u16], numbers: &mut [i32]) -> Result<Position, DriveHalt>
        ensures answer { result ≡ (follow self.entry.edges.now self.entry.readings.now 0 path.now (begin numbers.old)).answer }
        ensures numbers { numbers.new ≡ (follow self.entry.edges.now self.entry.readings.now 0 path.now (begin numbers.old)).numbers }
    {
        let mut position = Position { place: 0, taken: 0 };
        for (step, &edge) in path.iter().enumerate() {
            let taken = self.take_edge(edge, position, numbers);
            position = taken.map_err(|halt| DriveHalt::Edge { step, edge, halt })?;
        }
        Ok(position)
    }
}

/// Has no work to do: states what the type says of a number.
fn number_fits(number: i32)
    ensures { Number number }
{}

/// Has no work to do: states what the type says of each number. A proof can cite it of unsigned numbers in a slice, but
/// not of signed ones.
fn numbers_fit(numbers: &[i32])
    ensures { All Number numbers.now }
{
    for number in numbers.iter() {
        number_fits(*number);
    }
}

/// Drives the path through the macro from place 0, with the numbers as start numbers. Answers the place where it ends,
/// and leaves there the numbers of that state; a drive that halts leaves the numbers of the state in which it does.
#[tactic(auto, using(crate::proofs::Driving::drive_complete))]
pub fn drive(
    source: Macro,
    path: &[u16],
    numbers: &mut [i32],
    readings: &[i32],
) -> Result<u8, DriveHalt>
    ensures answer { result ≡ drive_answer (given source.entry) path.now numbers.old readings.now }
    ensures numbers { numbers.new ≡ drive_numbers (given source.entry) path.now numbers.old readings.now }
    ensures sound { DriveSound (given source.entry) path.now numbers.old readings.now }
    ensures complete { DriveComplete (given source.entry) path.now numbers.old readings.now }
{
    numbers_fit(numbers);
    numbers_fit(readings);
    if numbers.len() != usize::from(source.variables) {
        return Err(DriveHalt::Start {
            found: numbers.len(),
            expected: source.variables,
        });
    }
    let driver = Driver {
        edges: source.edges,
        readings,
    };
    let end = driver.follow(path, numbers)?;
    if end.taken < readings.len() {
        return Err(DriveHalt::ReadingsLeft {
            taken: end.taken,
            given: readings.len(),
        });
    }
    Ok(end.place)
}

/// Has no work to do: its contract states what holds of runs and of what drives them.
pub fn run_laws()
    ensures driven_runs { DrivenRuns }
    ensures runs_driven { RunsDriven }
    ensures start_reached { StartReached }
    ensures numbers_kept { NumbersKept }
{}
