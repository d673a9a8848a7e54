//! The values of the kind exact, and the plain records in which memory keeps them.
ghost use Rattle.std.specs.Prelude.{◌<◌};
ghost use Rattle.std.specs.Int.Signed.{mag};

/// A number whose type carries its range: the laws speak of every value, and in proofs an `i32` is an integer without bounds.
#[derive(Clone, Copy, Debug, PartialEq, Eq)]
pub struct Number {
    pub value: i32,
    ghost fits: { mag value < 2147483648 },
}

/// What is known of a number: that it is this one, or nothing.
/// It is no `Option`, which `combine` and `narrow` answer for no number: unknown is every number, as the rule book names it.
#[derive(Clone, Copy, Debug, PartialEq, Eq)]
pub enum Exact {
    Only(Number),
    Unknown,
}

/// A value in memory. Where it is not known, `number` is 0; a record with another number keeps no value then.
/// It is no `Option`: each value has one record, and a record that the bench never wrote is noticed.
#[derive(Clone, Copy, Debug, PartialEq, Eq)]
pub struct ExactRecord {
    pub number: i32,
    pub known: bool,
}
