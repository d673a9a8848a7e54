//! One step of an operation on the numbers of a run.
ghost use Rattle.macros.specs.Faults.{tested};
ghost use Rattle.runs.specs.Promises.{StepComplete, StepSound};
ghost use Rattle.runs.specs.Runs.{operand_number};
ghost use Rattle.runs.specs.Steps.{numbers_after, readings_of, stepped};
ghost use Rattle.std.specs.Prelude.{◌≡◌, slice_set};

use crate::halts::NoStep;
use macros::parts::{Operand, Operation};
use numbers::{compare, compute};

/// The operand's number. A variable beyond the numbers counts as 0; a macro that was read has none.
fn operand_number(numbers: &[i32], operand: Operand) -> i32
    ensures { result ≡ operand_number numbers.now operand }
{
    match operand {
        Operand::Constant(constant) => constant,
        Operand::Variable(variable) => numbers.get(usize::from(variable)).copied().unwrap_or(0),
    }
}

/// Gives the variable a number.
#[tactic(auto, using(std::proofs::lemmas::List::set_past))]
fn put(numbers: &mut [i32], variable: u8, number: i32)
    ensures { numbers.new ≡ slice_set numbers.old variable number }
{
    // The length of a slice is all that is known of it after `get_mut`, so it is written by its index.
    let variable = usize::from(variable);
    if variable < numbers.len() {
        numbers[variable] = number;
    }
}

/// Does what the operation does, with the next reading, if there is one. Without a step the numbers stay as they are.
#[tactic(auto, using(crate::proofs::Effects::step_sound, crate::proofs::Effects::step_complete))]
pub fn step(operation: Operation, numbers: &mut [i32], reading: Option<i32>) -> Result<(), NoStep>
    ensures answer { result ≡ tested (stepped operation numbers.old reading) }
    ensures numbers { numbers.new ≡ numbers_after numbers.old (stepped operation numbers.old reading) }
    ensures sound { StepSound numbers.old operation reading }
    ensures complete { StepComplete numbers.old operation }
{
    match operation {
        Operation::Set { target, value } => {
            let number = operand_number(numbers, value);
            put(numbers, target, number);
        }
        Operation::Compute {
            arithmetic,
            target,
            left,
            right,
        } => {
            let left = operand_number(numbers, left);
            let right = operand_number(numbers, right);
            let number = compute(arithmetic, left, right).ok_or(NoStep::ZeroDivisor)?;
            put(numbers, target, number);
        }
        Operation::Read { target } => {
            let number = reading.ok_or(NoStep::NoReading)?;
            put(numbers, target, number);
        }
        Operation::Test {
            comparison,
            left,
            right,
        } => {
            let left = operand_number(numbers, left);
            let right = operand_number(numbers, right);
            if !compare(comparison, left, right) {
                return Err(NoStep::NotPassed);
            }
        }
    }
    Ok(())
}

/// How many readings the operation takes.
pub fn readings_of(operation: Operation) -> usize
    ensures { result ≡ readings_of operation }
{
    match operation {
        Operation::Read { .. } => 1,
        _ => 0,
    }
}
