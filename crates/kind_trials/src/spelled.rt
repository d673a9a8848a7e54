//! How the data files spell the values of each kind.
use crate::answer::Shown;
use anyhow::{Context, bail};
use exact::value::{Exact, ExactRecord};
use kinds::Kind;
use span::value::{Span, SpanRecord};
use std::fmt;

/// A kind whose values and plain records have a spelling.
pub trait Spelled: Kind + Shown {
    /// The record of the value that a word spells, if it is not `unknown`.
    fn parse_value(word: &str) -> anyhow::Result<Self::Plain>;

    /// The record that two words spell; it need not keep a value.
    fn parse_record(first: &str, second: &str) -> anyhow::Result<Self::Plain>;
}

/// A value is `NUMBER`, and a record `known NUMBER` or `unknown NUMBER`.
impl Spelled for Exact {
    fn parse_value(word: &str) -> anyhow::Result<ExactRecord> {
        Exact::parse_record("known", word)
    }

    fn parse_record(first: &str, second: &str) -> anyhow::Result<ExactRecord> {
        let known = match first {
            "known" => true,
            "unknown" => false,
            _ => bail!("the record is neither known nor unknown"),
        };
        Ok(ExactRecord {
            number: second.parse::<i32>()?,
            known,
        })
    }
}

impl Shown for Exact {
    fn show<W: fmt::Write>(&self, f: &mut fmt::Formatter<W>) -> fmt::Result {
        let ExactRecord { number, known } = self.keep();
        if known {
            write!(f, "{number}")
        } else {
            f.write_str("unknown")
        }
    }
}

/// A value is `LOW..HIGH`, and a record `LOW HIGH`.
impl Spelled for Span {
    fn parse_value(word: &str) -> anyhow::Result<SpanRecord> {
        let (low, high) = word
            .split_once("..")
            .context("no dots between the ends of a span")?;
        Span::parse_record(low, high)
    }

    fn parse_record(first: &str, second: &str) -> anyhow::Result<SpanRecord> {
        Ok(SpanRecord {
            low: first.parse::<i32>()?,
            high: second.parse::<i32>()?,
        })
    }
}

impl Shown for Span {
    fn show<W: fmt::Write>(&self, f: &mut fmt::Formatter<W>) -> fmt::Result {
        let SpanRecord { low, high } = self.keep();
        write!(f, "{low}..{high}")
    }
}
