//! The spans as a kind of value.
ghost use Rattle.kinds.specs.Kind.{Simple};
ghost use Rattle.span.specs.Span.{span_ops};
ghost use Rattle.span.specs.Laws.{span_laws, span_named};

use super::combine::{difference, product, remainder, sum};
use super::narrow::narrow;
use super::value::{Span, SpanRecord};
use bits::{read_field, write_field};
use kinds::Kind;
use macros::parts::{Arithmetic, Comparison};

impl Kind for Span {
    type Plain = SpanRecord;

    ghost ops = { span_ops };

    ghost laws = { span_laws };

    ghost named = { span_named };

    fn unknown() -> Span {
        Span::whole()
    }

    fn only(number: i32) -> Span {
        Span::single(number)
    }

    fn combine(arithmetic: Arithmetic, left: Span, right: Span) -> Option<Span> {
        match arithmetic {
            Arithmetic::Add => Some(sum(left, right)),
            Arithmetic::Subtract => Some(difference(left, right)),
            Arithmetic::Multiply => Some(product(left, right)),
            Arithmetic::Remainder => remainder(left, right),
        }
    }

    fn narrow(comparison: Comparison, first: Span, second: Span) -> Option<Span> {
        narrow(comparison, first, second)
    }

    fn covered(self, other: Span) -> bool {
        other.low <= self.low && self.high <= other.high
    }

    fn keep(self) -> SpanRecord {
        SpanRecord {
            low: self.low,
            high: self.high,
        }
    }

    fn recall(plain: SpanRecord) -> Option<Span> {
        Span::between(i64::from(plain.low), i64::from(plain.high))
    }

    fn width() -> usize {
        64
    }

    fn write(self, bytes: &mut [u8], at: usize) {
        // The code is the plain record: low, and then high.
        write_field(bytes, at, 32, self.low.cast_unsigned());
        write_field(bytes, at + 32, 32, self.high.cast_unsigned());
    }

    fn read(bytes: &[u8], at: usize) -> Option<Span> {
        Span::recall(SpanRecord {
            low: read_field(bytes, at, 32).cast_signed(),
            high: read_field(bytes, at + 32, 32).cast_signed(),
        })
    }

    fn name_length() -> usize {
        1
    }

    fn name(i: usize) -> Option<u8> {
        (i == 0).then_some(2)
    }
}

/// Has no work to do: its contract states that the name is a single code number, and that W is at least 2.
pub fn span_is_simple()
    ensures { Simple span_ops }
{}
