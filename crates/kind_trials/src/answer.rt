//! What calls answer, as the data files write it.
use std::fmt;

/// A value that has a spelling in the data files. No `Display`: kinds of value are types of other crates.
pub trait Shown {
    /// Writes the word for the value.
    fn show<W: fmt::Write>(&self, f: &mut fmt::Formatter<W>) -> fmt::Result;
}

impl Shown for i32 {
    fn show<W: fmt::Write>(&self, f: &mut fmt::Formatter<W>) -> fmt::Result {
        write!(f, "{self}")
    }
}

/// The answer to a call of a table of such values.
#[derive(Drop)]
pub enum Answer<T> {
    /// A value, or none.
    Value(Option<T>),
    /// Whether it is so.
    Truth(bool),
    /// The hexadecimal digits of bytes.
    Digits(String),
}

impl<T: Shown> fmt::Display for Answer<T> {
    fn fmt<W: fmt::Write>(&self, f: &mut fmt::Formatter<W>) -> fmt::Result {
        match self {
            Answer::Value(Some(value)) => value.show(f),
            Answer::Value(None) => f.write_str("none"),
            Answer::Truth(true) => f.write_str("yes"),
            Answer::Truth(false) => f.write_str("no"),
            Answer::Digits(digits) => f.write_str(digits.as_str()),
        }
    }
}
