//! Calls on the values of a kind.
ghost use Rattle.std.specs.Prelude.{◌+◌, ◌*◌, ◌≤◌, IfOk, OnOk};

use crate::answer::Answer;
use crate::operator::Operator;
use crate::spelled::Spelled;
use anyhow::{Context, bail, ensure};
use kinds::Kind;
use std::alloc::Global;

/// The place of a code in its bytes, so that it does not begin with a byte.
const AT: usize = 3;

/// How many bytes a code at `AT` needs; an error if the codes are too wide to be read and written.
fn code_bytes<K: Kind>() -> anyhow::Result<usize>
    ensures narrow { OnOk result (K.Kind.ops.width ≤ 4096) }
    ensures inside { IfOk result (λ n. 3 + K.Kind.ops.width ≤ 8 * n) }
{
    let width = K::width();
    ensure!(width <= 4096, "the codes are too wide");
    Ok((AT + width).div_ceil(8))
}

/// The value that a word spells; `unknown` is a word of every kind.
fn parse<K: Spelled>(word: &str) -> anyhow::Result<K> {
    if word == "unknown" {
        return Ok(K::unknown());
    }
    K::recall(K::parse_value(word)?).context("the word spells no value")
}

/// The bytes once the value is written among bytes that all are `filler`.
fn write<K: Spelled>(heap: Global, value: K, filler: u8) -> anyhow::Result<String> {
    let mut bytes = vec![in heap; filler; code_bytes::<K>()?]?;
    value.write(bytes.as_mut_slice(), AT);
    Ok(hex::encode(heap, bytes)?)
}

/// The bytes that a word spells, two small hexadecimal digits for each.
fn parse_bytes(heap: Global, word: &str) -> anyhow::Result<Vec<u8>> {
    let digits = word.as_bytes();
    let spelled = digits
        .iter()
        .all(|digit| matches!(digit, b'0'..=b'9' | b'a'..=b'f'));
    ensure!(
        spelled && digits.len() % 2 == 0,
        "the word is not made of bytes in hexadecimal"
    );
    Ok(hex::decode(heap, word)?)
}

/// The value that is read among the bytes.
fn read<K: Spelled>(heap: Global, word: &str) -> anyhow::Result<Option<K>> {
    let bytes = parse_bytes(heap, word)?;
    ensure!(
        bytes.len() == code_bytes::<K>()?,
        "the bytes are not as many as a code needs"
    );
    Ok(K::read(bytes.as_slice(), AT))
}

/// What the operator makes of two values.
fn operate<K: Spelled>(operator: Operator, left: K, right: K) -> Option<K> {
    match operator {
        Operator::Compute(arithmetic) => K::combine(arithmetic, left, right),
        Operator::Compare(comparison) => K::narrow(comparison, left, right),
    }
}

/// The answer to a call on the kind.
pub fn answer<K: Spelled>(heap: Global, call: &[&str]) -> anyhow::Result<Answer<K>> {
    Ok(match call {
        ["write", word] => Answer::Digits(write(heap, parse::<K>(*word)?, 0x00)?),
        ["write1", word] => Answer::Digits(write(heap, parse::<K>(*word)?, 0xff)?),
        ["read", word] => Answer::Value(read(heap, *word)?),
        ["only", number] => Answer::Value(Some(K::only(number.parse::<i32>()?))),
        [_, _] => bail!("no call of this name has one argument"),
        ["recall", first, second] => Answer::Value(K::recall(K::parse_record(*first, *second)?)),
        ["covered", left, right] => Answer::Truth(parse::<K>(*left)?.covered(parse(*right)?)),
        [operator, left, right] => {
            let (left, right) = (parse(*left)?, parse(*right)?);
            Answer::Value(operate(operator.parse::<Operator>()?, left, right))
        }
        _ => bail!("a call on a kind has one argument or two"),
    })
}
