//! How a span is made from its ends, and what these are.
ghost use Rattle.span.specs.Span.{is_single, or_whole, single_span, span_of, whole_range};
ghost use Rattle.std.specs.Prelude.{◌≡◌};

use super::value::Span;

impl Span {
    /// The span of every number.
    pub(crate) fn whole() -> Span
        ensures { result ≡ whole_range }
    {
        Span {
            low: i32::MIN,
            high: i32::MAX,
        }
    }

    /// The span of one number.
    pub(crate) fn single(number: i32) -> Span
        ensures { result ≡ single_span number }
    {
        Span {
            low: number,
            high: number,
        }
    }

    /// The span with these ends; none if the first is above the second, or one of them is out of range.
    /// It is no `TryFrom`: no caller asks why there is none.
    pub(crate) fn between(from: i64, to: i64) -> Option<Span>
        ensures { result ≡ span_of from to }
    {
        // The order is tested first, since a narrowing fails by it far more often than by the range.
        if from > to {
            return None;
        }
        let low = i32::try_from(from).ok()?;
        let high = i32::try_from(to).ok()?;
        Some(Span { low, high })
    }

    /// The span with these ends, and the span of every number where there is none.
    pub(crate) fn between_or_whole(from: i64, to: i64) -> Span
        ensures { result ≡ or_whole (span_of from to) }
    {
        Span::between(from, to).unwrap_or(Span::whole())
    }

    /// Both ends, in a type that holds what the tables make of two ends.
    pub(crate) fn ends(self) -> (i64, i64)
        ensures low { result.0 ≡ self.low }
        ensures high { result.1 ≡ self.high }
    {
        (i64::from(self.low), i64::from(self.high))
    }

    pub(crate) fn is_single(self) -> bool
        ensures { result ≡ is_single self }
    {
        self.low == self.high
    }
}
