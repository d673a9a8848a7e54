//! What is left of a span where a comparison holds.
ghost use Rattle.span.specs.Span.{narrowed, without};
ghost use Rattle.std.specs.Prelude.{◌≡◌};

use super::value::Span;
use macros::parts::Comparison;

/// The ends are worked out in 64 bits, so one less than the least number and one more than the greatest do not wrap.
pub(crate) fn narrow(comparison: Comparison, first: Span, second: Span) -> Option<Span>
    ensures { result ≡ narrowed comparison first second }
{
    let (a, b) = first.ends();
    let (c, d) = second.ends();
    match comparison {
        Comparison::Equal => Span::between(a.max(c), b.min(d)),
        Comparison::NotEqual => apart(first, second),
        Comparison::Less => Span::between(a, b.min(d - 1)),
        Comparison::AtMost => Span::between(a, b.min(d)),
        Comparison::Greater => Span::between(a.max(c + 1), b),
        Comparison::AtLeast => Span::between(a.max(c), b),
    }
}

/// Only a second span of a single number can exclude a number.
fn apart(first: Span, second: Span) -> Option<Span>
    ensures { result ≡ narrowed Comparison.NotEqual first second }
{
    if second.is_single() {
        cut(first, second.low)
    } else {
        Some(first)
    }
}

/// The span without the number, if that is one of its ends. A span has no gaps, so a number in the middle stays.
fn cut(span: Span, number: i32) -> Option<Span>
    ensures { result ≡ without span number }
{
    let (a, b) = span.ends();
    let k = i64::from(number);
    if a == k {
        Span::between(k + 1, b)
    } else if b == k {
        Span::between(a, k - 1)
    } else {
        Some(span)
    }
}
