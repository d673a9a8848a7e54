//! Calls on numbers.
use crate::answer::Answer;
use crate::operator::Operator;
use anyhow::bail;
use numbers::{compare, compute};

/// The answer to `OPERATOR LEFT RIGHT`.
pub fn answer(call: &[&str]) -> anyhow::Result<Answer<i32>> {
    let [operator, left, right] = call else {
        bail!("a call on numbers has an operator and two numbers");
    };
    let operator = operator.parse::<Operator>()?;
    let left = left.parse::<i32>()?;
    let right = right.parse::<i32>()?;
    Ok(match operator {
        Operator::Compute(arithmetic) => Answer::Value(compute(arithmetic, left, right)),
        Operator::Compare(comparison) => Answer::Truth(compare(comparison, left, right)),
    })
}
