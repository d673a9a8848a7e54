//! The arithmetic of a macro's run, and its comparisons, on signed numbers of 32 bits.

#![tactic(auto)]

ghost use Rattle.numbers.specs.Arithmetic.{computed, holds};
ghost use Rattle.numbers.specs.Rules.{ComparesHeld, ComputedGiven, GivenComputed, HeldCompares};
ghost use Rattle.std.specs.Prelude.{◌≡◌};

use macros::parts::{Arithmetic, Comparison};

/// What the run works out from two numbers. A remainder by 0 has no result.
/// What `computed` works out is, for any two numbers, the one result that the rules give.
#[tactic(auto, using(crate::proofs::Told::computed_given, crate::proofs::Told::given_computed, std::proofs::lemmas::Int::wraps))]
pub fn compute(arithmetic: Arithmetic, left: i32, right: i32) -> Option<i32>
    ensures answer { result ≡ computed arithmetic left right }
    ensures by_the_rules { ComputedGiven }
    ensures no_other { GivenComputed }
{
    match arithmetic {
        Arithmetic::Add => Some(left.wrapping_add(right)),
        Arithmetic::Subtract => Some(left.wrapping_sub(right)),
        Arithmetic::Multiply => Some(left.wrapping_mul(right)),
        Arithmetic::Remainder => remainder(left, right),
    }
}

/// What remains of a division cut toward zero. `checked_rem` has no result for the least number by -1; the rules have 0.
fn remainder(left: i32, right: i32) -> Option<i32>
    ensures { result ≡ computed Arithmetic.Remainder left right }
{
    (right != 0).then(|| left.wrapping_rem(right))
}

/// Whether the comparison holds of the two numbers.
/// What `holds` tests is, for any two numbers, what the rules say of them.
pub fn compare(comparison: Comparison, left: i32, right: i32) -> bool
    ensures answer { result ≡ holds comparison left right }
    ensures by_the_rules { HeldCompares }
    ensures none_missed { ComparesHeld }
{
    match comparison {
        Comparison::Equal => left == right,
        Comparison::NotEqual => left != right,
        Comparison::Less => left < right,
        Comparison::AtMost => left <= right,
        Comparison::Greater => left > right,
        Comparison::AtLeast => left >= right,
    }
}
