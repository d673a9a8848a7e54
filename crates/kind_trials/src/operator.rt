//! The operators of calls.
use anyhow::anyhow;
use macros::parts::{Arithmetic, Comparison};
use std::str::FromStr;

#[derive(Clone, Copy)]
pub enum Operator {
    Compute(Arithmetic),
    Compare(Comparison),
}

impl FromStr for Operator {
    type Err = anyhow::Error;

    fn from_str(word: &str) -> anyhow::Result<Operator> {
        match word {
            "+" => Ok(Operator::Compute(Arithmetic::Add)),
            "-" => Ok(Operator::Compute(Arithmetic::Subtract)),
            "*" => Ok(Operator::Compute(Arithmetic::Multiply)),
            "rem" => Ok(Operator::Compute(Arithmetic::Remainder)),
            "=" => Ok(Operator::Compare(Comparison::Equal)),
            "!=" => Ok(Operator::Compare(Comparison::NotEqual)),
            "<" => Ok(Operator::Compare(Comparison::Less)),
            "<=" => Ok(Operator::Compare(Comparison::AtMost)),
            ">" => Ok(Operator::Compare(Comparison::Greater)),
            ">=" => Ok(Operator::Compare(Comparison::AtLeast)),
            _ => Err(anyhow!("the call has no operator")),
        }
    }
}
