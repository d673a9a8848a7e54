//! Runs the commands of the server program on many lists of words, in one run.

#![tactic(auto)]

use bench_commands::run;
use cases::case;
use std::io;

/// Files that hold a macro.
const SHOWN: [&str; 4] = ["a.bin", "b.bin", "forms.bin", "no_edge.bin"];

/// Files with one fault each, named by what is wrong; their edge is that of `a.bin`, but for the last.
const REFUSED: [&str; 24] = [
    "empty.bin",
    "three_bytes.bin",
    "fifteen_bytes.bin",
    "seventeen_bytes.bin",
    "two_edges.bin",
    "variables.bin",
    "places.bin",
    "guarded.bin",
    "header_filling.bin",
    "from.bin",
    "to.bin",
    "form.bin",
    "target_of_test.bin",
    "target_of_set.bin",
    "left_mark.bin",
    "left_of_read.bin",
    "left_variable.bin",
    "right_mark.bin",
    "right_of_set.bin",
    "right_mark_of_read.bin",
    "right_of_read.bin",
    "right_variable.bin",
    "edge_filling.bin",
    "second_edge.bin",
];

fn show_all(rt: &HostRuntime, files: &[&str]) -> io::Result<()> {
    for file in files {
        case(rt, run, &["show", *file])?;
    }
    Ok(())
}

fn cases(rt: &HostRuntime) -> io::Result<()> {
    show_all(rt, &SHOWN)?;
    show_all(rt, &REFUSED)?;
    case(rt, run, &["show", "none.bin"])?;
    case(rt, run, &[])?;
    case(rt, run, &["zap"])?;
    case(rt, run, &["Show", "a.bin"])?;
    case(rt, run, &["show"])?;
    case(rt, run, &["show", "a.bin", "b.bin"])?;
    case(rt, run, &["demo", "a.bin"])?;
    case(rt, run, &["demo"])
}

fn main(rt: HostRuntime) -> io::Result<()> {
    cases(&rt)
}
