//! The one interface for a kind of value: sets of numbers, and how the bench and the machine end work with them.

#![tactic(auto)]

ghost use Rattle.std.specs.Prelude.{◌≡◌, ◌+◌, ◌*◌, ◌^◌, ◌<◌, ◌≤◌, length, slice_get};
ghost use Rattle.bits.specs.Field.{field, put};
ghost use Rattle.kinds.specs.Codes.{ReadWrites, WrittenReads};
ghost use Rattle.kinds.specs.Kind.{Laws, Named, Operations};

use macros::parts::{Arithmetic, Comparison};

/// A kind of value. Every answer is that of the operations' record, so it depends on the arguments alone; the laws are
/// all that the code above a kind may rest on. A W above 4096 is no misuse of the trait: whoever uses codes or names
/// refuses such a kind, so that these methods alone ask for less.
pub trait Kind: Copy {
    /// The form in which lent memory keeps a value.
    type Plain: Copy;

    ghost ops: { Operations Self Self.Plain };

    /// The value for any number.
    fn unknown() -> Self
        ensures { result ≡ ops.unknown };

    /// The value for one number.
    fn only(number: i32) -> Self
        ensures { result ≡ ops.only number };

    /// What the run's arithmetic makes of two values; none if no number is possible.
    fn combine(arithmetic: Arithmetic, left: Self, right: Self) -> Option<Self>
        ensures { result ≡ ops.combine arithmetic left right };

    /// What is left of the first value where the comparison with the second holds; none if no number is.
    fn narrow(comparison: Comparison, first: Self, second: Self) -> Option<Self>
        ensures { result ≡ ops.narrow comparison first second };

    /// Whether `self` is covered by `other`.
    fn covered(self, other: Self) -> bool
        ensures { result ≡ ops.covered self other };

    fn keep(self) -> Self::Plain
        ensures { result ≡ ops.keep self };

    /// The value that the record keeps; none if it keeps no value.
    fn recall(plain: Self::Plain) -> Option<Self>
        ensures { result ≡ ops.recall plain };

    /// W, the width of a code in bits.
    fn width() -> usize
        ensures { result ≡ ops.width };

    /// Makes the W bits from place `at` on the value's code, and leaves every other bit as it is.
    fn write(self, bytes: &mut [u8], at: usize)
        requires limited { ops.width ≤ 4096 }
        requires inside { at + ops.width ≤ 8 * length bytes.old }
        requires end_fits { at + ops.width < 2 ^ 64 }
        ensures { bytes.new ≡ put bytes.old at ops.width (ops.write self) };

    /// The value whose code the W bits from place `at` on are; none if they are no code.
    fn read(bytes: &[u8], at: usize) -> Option<Self>
        requires limited { ops.width ≤ 4096 }
        requires inside { at + ops.width ≤ 8 * length bytes.now }
        requires end_fits { at + ops.width < 2 ^ 64 }
        ensures { result ≡ ops.read (field bytes.now at ops.width) };

    /// How many numbers of 4 bits the kind's name in a sheet has. The name is told number by number, and is no
    /// `&'static [u8]`: a kind that is made of two kinds joins their names, for which it has no memory.
    fn name_length() -> usize
        requires { ops.width ≤ 4096 }
        ensures { result ≡ length ops.name };

    /// Number `i` of the name, the code number first; none beyond its end.
    fn name(i: usize) -> Option<u8>
        requires { ops.width ≤ 4096 }
        ensures { result ≡ slice_get ops.name i };

    ghost laws: { Laws ops };

    ghost named: { Named ops };
}

/// Has no work to do: its contract states for every kind what the laws say of codes in bytes.
pub fn code_laws<K: Kind>()
    ensures written_reads { WrittenReads K.Kind.ops }
    ensures read_writes { ReadWrites K.Kind.ops }
{}
