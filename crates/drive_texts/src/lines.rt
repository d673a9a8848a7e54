//! The steps of a drive in lines.
ghost use Rattle.drive_texts.specs.Lines.{drive_lines, state_text};
ghost use Rattle.std.specs.Prelude.{◌≡◌, IfOk, string_bytes};

use runs::drives::{Driver, Position};
use std::alloc::{AllocError, Global};

/// A place and the numbers there, as `place 3 numbers 5 -3`.
fn state_text(heap: Global, place: u8, numbers: &[i32]) -> Result<String, AllocError>
    ensures { IfOk result (λ s. string_bytes s ≡ state_text place numbers.now) }
{
    let mut text = String::new(heap);
    write!(text, "place {place} numbers")?;
    for number in numbers.iter() {
        write!(text, " {number}")?;
    }
    Ok(text)
}

/// The state at the start, and then a line for each step of the path, up to one that is not made.
pub fn drive_lines(
    heap: Global,
    driver: Driver,
    path: &[u16],
    start: &[i32],
) -> Result<String, AllocError>
    ensures { IfOk result (λ s. string_bytes s ≡ drive_lines driver.entry.edges.now path.now start.now driver.entry.readings.now) }
{
    // The steps change the numbers, so they are made on a copy, and the caller's stay as they are.
    let mut numbers = Vec::from_slice(heap, start)?;
    lines_of(heap, driver, path, numbers.as_mut_slice())
}

/// Writes the lines, and makes the steps on the numbers.
fn lines_of(
    heap: Global,
    driver: Driver,
    path: &[u16],
    numbers: &mut [i32],
) -> Result<String, AllocError>
    ensures { IfOk result (λ s. string_bytes s ≡ drive_lines driver.entry.edges.now path.now numbers.old driver.entry.readings.now) }
{
    let mut lines = String::new(heap);
    let start = state_text(heap, 0, numbers)?;
    writeln!(lines, "start {start}")?;
    let mut position = Position { place: 0, taken: 0 };
    for (step, &edge) in path.iter().enumerate() {
        let Ok(next) = driver.take_edge(edge, position, numbers) else {
            return Ok(lines);
        };
        position = next;
        let state = state_text(heap, position.place, numbers)?;
        writeln!(lines, "step {step} edge {edge} {state}")?;
    }
    Ok(lines)
}
