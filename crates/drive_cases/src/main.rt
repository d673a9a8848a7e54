//! Shows a macro, and then runs the command `run` on many lists of words, in one run.

#![tactic(auto)]

use cases::case;
use std::io;

/// Paths that are driven to their end.
const DRIVEN: [&str; 4] = [
    "run a.bin --start -1 --path 0",
    "run b.bin --start 7 --path 0",
    "run loop.bin --start 9,3 --readings -7 --path 0,1,2,3,4",
    "run loop.bin --start 9,3 --path 0,1,2,3,5,0,1,2,3,4 --readings -7,-8",
];

/// Drives that halt: at an edge, at the start, and at the end.
const HALTED: [&str; 8] = [
    "run a.bin --start 0 --path 0",
    "run b.bin --start 7 --path 0,1",
    "run a.bin --start -1 --path 0,0",
    "run a.bin --start -1 --path 1",
    "run loop.bin --start 9,3 --path 0",
    "run loop.bin --start 9,0 --readings 5 --path 0,1",
    "run a.bin --start -1,0 --path 0",
    "run a.bin --start -1 --path 0 --readings 3,4",
];

/// Options that are misused, and files that cannot be run.
const MISUSED: [&str; 12] = [
    "run",
    "run a.bin",
    "run a.bin --start 1",
    "run a.bin --start 1 --path",
    "run a.bin --start 1 --start 1 --path 0",
    "run a.bin --begin 1 --path 0",
    "run a.bin --start one --path 0",
    "run a.bin --start 2147483648 --path 0",
    "run a.bin --start 1 --readings 1,,2 --path 0",
    "run a.bin --start 1 --path -1",
    "run none.bin --start 1 --path 0",
    "run variables.bin --start 1 --path 0",
];

/// Each line is a list of words, with spaces between them.
fn run_all(rt: &HostRuntime, lines: &[&str]) -> io::Result<()> {
    for line in lines {
        let words: Vec<&str> = line.split_whitespace().collect(rt.alloc())?;
        case(rt, drive_commands::run, words.as_slice())?;
    }
    Ok(())
}

fn cases(rt: &HostRuntime) -> io::Result<()> {
    // The macro that most paths are driven through.
    case(rt, bench_commands::run, &["show", "loop.bin"])?;
    run_all(rt, &DRIVEN)?;
    case(
        rt,
        drive_commands::run,
        &["run", "a.bin", "--path", "", "--start", "7"],
    )?;
    run_all(rt, &HALTED)?;
    case(
        rt,
        drive_commands::run,
        &["run", "a.bin", "--start", "", "--path", ""],
    )?;
    run_all(rt, &MISUSED)?;
    case(rt, drive_commands::run, &[])?;
    case(rt, drive_commands::run, &["zap"])?;
    case(rt, drive_commands::run, &["Show", "a.bin"])?;
    case(rt, drive_commands::run, &["show"])?;
    case(rt, drive_commands::run, &["show", "a.bin", "b.bin"])?;
    case(rt, drive_commands::run, &["demo", "a.bin"])
}

fn main(rt: HostRuntime) -> io::Result<()> {
    cases(&rt)
}
