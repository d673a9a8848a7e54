//! The operations of the kind exact.
ghost use Rattle.exact.specs.Exact.{exact_ops};
ghost use Rattle.exact.specs.ExactLaws.{exact_laws, exact_named};

use super::value::{Exact, ExactRecord, Number};
use bits::{read_field, write_field};
use kinds::Kind;
use macros::parts::{Arithmetic, Comparison};
use numbers::{compare, compute};

impl Kind for Exact {
    type Plain = ExactRecord;

    ghost ops = { exact_ops };

    ghost laws = { exact_laws };

    ghost named = { exact_named };

    fn unknown() -> Exact {
        Exact::Unknown
    }

    fn only(number: i32) -> Exact {
        Exact::Only(Number { value: number })
    }

    fn combine(arithmetic: Arithmetic, left: Exact, right: Exact) -> Option<Exact> {
        match (arithmetic, left, right) {
            (_, Exact::Only(left), Exact::Only(right)) => {
                Some(Exact::only(compute(arithmetic, left.value, right.value)?))
            }
            (Arithmetic::Remainder, Exact::Unknown, Exact::Only(right)) if right.value == 0 => None,
            // A product with 0 stays unknown too.
            _ => Some(Exact::Unknown),
        }
    }

    fn narrow(comparison: Comparison, first: Exact, second: Exact) -> Option<Exact> {
        // The second value is asked for before the others, which makes fewer tests than a match on all three.
        let Exact::Only(other) = second else {
            // A comparison with unknown never fails.
            return Some(first);
        };
        match (first, comparison) {
            (Exact::Only(number), _) => {
                compare(comparison, number.value, other.value).then_some(first)
            }
            (Exact::Unknown, Comparison::Equal) => Some(second),
            (Exact::Unknown, _) => Some(first),
        }
    }

    fn covered(self, other: Exact) -> bool {
        match other {
            Exact::Only(_) => self == other,
            Exact::Unknown => true,
        }
    }

    fn keep(self) -> ExactRecord {
        match self {
            Exact::Only(number) => ExactRecord {
                number: number.value,
                known: true,
            },
            Exact::Unknown => ExactRecord {
                number: 0,
                known: false,
            },
        }
    }

    fn recall(plain: ExactRecord) -> Option<Exact> {
        if plain.known {
            Some(Exact::only(plain.number))
        } else if plain.number == 0 {
            Some(Exact::Unknown)
        } else {
            None
        }
    }

    fn width() -> usize {
        33
    }

    fn write(self, bytes: &mut [u8], at: usize) {
        // The code is the plain record: a bit for whether the number is known, and then the number.
        let plain = self.keep();
        write_field(bytes, at, 1, u32::from(plain.known));
        write_field(bytes, at + 1, 32, plain.number.cast_unsigned());
    }

    fn read(bytes: &[u8], at: usize) -> Option<Exact> {
        Exact::recall(ExactRecord {
            known: read_field(bytes, at, 1) == 1,
            number: read_field(bytes, at + 1, 32).cast_signed(),
        })
    }

    fn name_length() -> usize {
        1
    }

    fn name(i: usize) -> Option<u8> {
        (i == 0).then_some(1)
    }
}
