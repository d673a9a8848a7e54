//! What a line of a data file says: the macro that a call is given, and the answer that is expected of the call.
use anyhow::{Context, anyhow, bail, ensure};
use std::alloc::Global;

/// The data files, each with lines of its own form.
#[derive(Clone, Copy)]
pub enum DataFile {
    /// `KIND N T UNITS TRIES MACRO | ANSWER`
    Bench,
    /// `KIND MACRO SHEET | ANSWER`
    MachineEnd,
    /// Calls on one bench, with a blank line before the next bench: `load MACRO TRIES T | ANSWER`,
    /// and other calls, which take no macro.
    Sequences,
}

/// A refusal by its number, with the spot as far as one is told.
#[derive(Clone, Copy, Default)]
pub struct Refusal {
    pub number: u8,
    pub bit: Option<usize>,
    pub entry: Option<usize>,
    pub edge: Option<usize>,
}

/// What a call is expected to answer: that it did what it was asked for, or a refusal.
pub type Answer = Result<(), Refusal>;

/// A call that is given a macro: the bytes of the macro's file, and the answer.
#[derive(Drop)]
pub struct Line {
    pub bytes: Vec<u8>,
    pub answer: Answer,
}

impl DataFile {
    pub fn name(self) -> &'static str {
        match self {
            DataFile::Bench => "bench.txt",
            DataFile::MachineEnd => "machine_end.txt",
            DataFile::Sequences => "sequences.txt",
        }
    }

    /// The macro among the words of a call, if the call takes one.
    fn macro_word<'a>(self, call: &[&'a str]) -> anyhow::Result<Option<&'a str>> {
        match (self, call) {
            (DataFile::Bench, [_, _, _, _, _, word]) => Ok(Some(*word)),
            (DataFile::MachineEnd, [_, word, _]) => Ok(Some(*word)),
            (DataFile::Sequences, ["load", word, _, _]) => Ok(Some(*word)),
            (DataFile::Sequences, ["make" | "work" | "sheet" | "path", ..]) => Ok(None),
            _ => Err(anyhow!("the words before the bar are no call of this file")),
        }
    }
}

/// The bytes that a word spells, two small hexadecimal digits for each; `-` stands for none.
fn parse_bytes(heap: Global, word: &str) -> anyhow::Result<Vec<u8>> {
    let digits = if word == "-" { "" } else { word };
    for pair in digits.as_bytes().chunks(2) {
        ensure!(pair.len() == 2, "the macro has an odd number of digits");
        let spelled = pair
            .iter()
            .all(|digit| matches!(digit, b'0'..=b'9' | b'a'..=b'f'));
        ensure!(spelled, "a digit of the macro is not hexadecimal");
    }
    Ok(hex::decode(heap, digits)?)
}

/// A refusal, from the words after `refused`: its number, and then each part of the spot by its name and its number.
fn parse_refusal(number: &str, spot: &[&str]) -> anyhow::Result<Refusal> {
    let mut refusal = Refusal {
        number: number.parse::<u8>()?,
        ..Refusal::default()
    };
    for pair in spot.chunks(2) {
        match pair {
            ["bit", value] => refusal.bit = Some(value.parse::<usize>()?),
            ["entry", value] => refusal.entry = Some(value.parse::<usize>()?),
            ["edge", value] => refusal.edge = Some(value.parse::<usize>()?),
            _ => bail!("the refusal's spot is not made of a bit, an entry and an edge"),
        }
    }
    Ok(refusal)
}

/// The answer, from the words after the bar.
fn parse_answer(words: &[&str]) -> anyhow::Result<Answer> {
    match words {
        ["refused", number, spot @ ..] => Ok(Err(parse_refusal(*number, spot)?)),
        ["accepted"] | ["loaded"] => Ok(Ok(())),
        ["cleared" | "reached" | "open" | "full" | "working", ..] => Ok(Ok(())),
        _ => Err(anyhow!("the answer is none that a call with a macro gives")),
    }
}

/// What the line says, or nothing where it is blank or its call takes no macro.
pub fn parse_line(heap: Global, file: DataFile, text: &str) -> anyhow::Result<Option<Line>> {
    if text.trim().is_empty() {
        return Ok(None);
    }
    let (left, right) = text.split_once('|').context("no bar before the answer")?;
    let call: Vec<&str> = left.split_whitespace().collect(heap)?;
    let Some(word) = file.macro_word(call.as_slice())? else {
        return Ok(None);
    };
    let answered: Vec<&str> = right.split_whitespace().collect(heap)?;
    Ok(Some(Line {
        bytes: parse_bytes(heap, word)?,
        answer: parse_answer(answered.as_slice())?,
    }))
}
