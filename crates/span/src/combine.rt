//! What the run's arithmetic makes of two spans, a..b on the left and c..d on the right.
//! The run wraps a result that does not fit 32 bits, so a span that does not fit them becomes the span of every number.
ghost use Rattle.span.specs.Span.{difference_of, greatest_of_4, least_of_4, product_of, span_remainder, sum_of};
ghost use Rattle.std.specs.Prelude.{◌≡◌};

use super::value::Span;
use macros::parts::Arithmetic;
use numbers::compute;

pub(crate) fn sum(left: Span, right: Span) -> Span
    ensures { result ≡ sum_of left right }
{
    let (a, b) = left.ends();
    let (c, d) = right.ends();
    Span::between_or_whole(a + c, b + d)
}

pub(crate) fn difference(left: Span, right: Span) -> Span
    ensures { result ≡ difference_of left right }
{
    let (a, b) = left.ends();
    let (c, d) = right.ends();
    Span::between_or_whole(a - d, b - c)
}

#[tactic(auto, using(crate::proofs::Wide::wide))]
pub(crate) fn product(left: Span, right: Span) -> Span
    ensures { result ≡ product_of left right }
{
    let (a, b) = left.ends();
    let (c, d) = right.ends();
    let (p, q, r, s) = (a * c, a * d, b * c, b * d);
    Span::between_or_whole(least(p, q, r, s), greatest(p, q, r, s))
}

fn least(a: i64, b: i64, c: i64, d: i64) -> i64
    ensures { result ≡ least_of_4 a b c d }
{
    a.min(b).min(c.min(d))
}

fn greatest(a: i64, b: i64, c: i64, d: i64) -> i64
    ensures { result ≡ greatest_of_4 a b c d }
{
    a.max(b).max(c.max(d))
}

/// A remainder by 0 has no result, so 0..0 on the right leaves no number. Of other spans only two single numbers are worked out.
pub(crate) fn remainder(left: Span, right: Span) -> Option<Span>
    ensures { result ≡ span_remainder left right }
{
    if right.low == 0 && right.high == 0 {
        return None;
    }
    if left.is_single() && right.is_single() {
        compute(Arithmetic::Remainder, left.low, right.low).map(Span::single)
    } else {
        Some(Span::whole())
    }
}
