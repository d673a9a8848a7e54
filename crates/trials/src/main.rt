//! Runs macros with expected answers from an independent reference, and prints what differs and the counts of each file.

#![tactic(auto)]

use anyhow::anyhow;
use lines::DataFile;
use std::fs;
use tally::Tally;
use trial::{Expected, Failure};

mod lines;
mod tally;
mod trial;

/// Runs the line's macro, if it has one, and counts what came of it.
fn run_line(
    rt: &HostRuntime,
    file: DataFile,
    number: u64,
    text: &str,
    tally: &mut Tally,
) -> anyhow::Result<()> {
    let heap = rt.alloc();
    let Some(line) = lines::parse_line(heap, file, text)? else {
        return Ok(());
    };
    let expected = Expected::from(line.answer);
    let outcome = match trial::run(heap, line.bytes.as_slice(), expected) {
        Ok(agreement) => Ok(agreement),
        Err(Failure::Deviates(deviation)) => {
            let name = file.name();
            println!(rt; "{name} line {number}: expected {expected}, found {deviation}")?;
            Err(deviation)
        }
        Err(Failure::Memory(error)) => return Err(error.into()),
    };
    tally.count(outcome);
    Ok(())
}

/// Runs the macros of a file, and prints how many came out in which way.
fn run_file(rt: &HostRuntime, file: DataFile) -> anyhow::Result<()> {
    let name = file.name();
    let text = fs::read_to_string(rt, name).map_err(|error| anyhow!("{name}: {error}"))?;
    let mut tally = Tally::default();
    for (number, line) in (1u64..).zip(text.lines()) {
        run_line(rt, file, number, line, &mut tally).map_err(|error| anyhow!(
            "{name} line {number}: {error}"
        ))?;
    }
    println!(rt; "{name} {tally}")?;
    Ok(())
}

fn main(rt: HostRuntime) -> anyhow::Result<()> {
    run_file(&rt, DataFile::Bench)?;
    run_file(&rt, DataFile::MachineEnd)?;
    run_file(&rt, DataFile::Sequences)
}
