//! Works out every call of the data files, and prints which answers differ from the expected ones and how many agree.

#![tactic(auto)]

use answer::{Answer, Shown};
use anyhow::{Context, anyhow, bail};
use exact::value::Exact;
use span::value::Span;
use std::alloc::Global;
use std::fs;

mod answer;
mod kind;
mod number;
mod operator;
mod spelled;

/// Whether the answer to the line's call is the expected one; prints the line and the answer if not.
fn run_line<T: Shown + Drop, F: Fn(Global, &[&str]) -> anyhow::Result<Answer<T>>>(
    rt: &HostRuntime,
    table: &str,
    answer: &F,
    text: &str,
) -> anyhow::Result<bool>
    requires { F.IsAlwaysCallable answer.now }
{
    let heap = rt.alloc();
    let (call, expected) = text.split_once(" | ").context("no bar before the answer")?;
    let words: Vec<&str> = call.split_whitespace().collect(heap)?;
    let found = match words.as_slice() {
        [name, call @ ..] if *name == table => answer(heap, call)?.to_string(heap)?,
        _ => bail!("the line does not begin with the table's name"),
    };
    let agrees = found.as_str() == expected;
    if !agrees {
        println!(rt; "{text}, found {found}")?;
    }
    Ok(agrees)
}

/// Runs the table of this name from its file, by what answers its calls, and prints how many lines agree.
fn run_table<T: Shown + Drop, F: Fn(Global, &[&str]) -> anyhow::Result<Answer<T>>>(
    rt: &HostRuntime,
    table: &str,
    answer: F,
) -> anyhow::Result<()>
    requires { F.IsAlwaysCallable answer }
{
    let file = format!(in rt.alloc(); "{table}.txt")?;
    let text = fs::read_to_string(rt, file.as_str())?;
    // Each line prints and may fail, so they are counted one by one.
    let mut agreed = 0u64;
    for line in text.lines() {
        if run_line(rt, table, &answer, line).map_err(|error| anyhow!("{line}: {error}"))? {
            agreed = agreed.saturating_add(1);
        }
    }
    println!(rt; "{table} {agreed} agree")?;
    Ok(())
}

fn main(rt: HostRuntime) -> anyhow::Result<()> {
    run_table(
        &rt,
        "number",
        |_: Global, call: &[&str]| number::answer(call),
    )?;
    run_table(&rt, "exact", kind::answer::<Exact>)?;
    run_table(&rt, "span", kind::answer::<Span>)
}
