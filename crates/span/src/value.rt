//! The span, and the record in which memory keeps one.
ghost use Rattle.std.specs.Prelude.{◌<◌, ◌≤ℤ◌};
ghost use Rattle.std.specs.Int.Signed.{mag};

/// The numbers from `low` to `high`, both included. The type itself says that low is not above high.
#[derive(Clone, Copy, Debug, PartialEq, Eq)]
pub struct Span {
    pub low: i32,
    pub high: i32,
    ghost order: { low ≤ℤ high },
    ghost low_fits: { mag low < 2147483648 },
    ghost high_fits: { mag high < 2147483648 },
}

/// Two numbers, as memory keeps a span. Any two may stand there, so a record is checked when it is recalled.
#[derive(Clone, Copy, Debug, PartialEq, Eq)]
pub struct SpanRecord {
    pub low: i32,
    pub high: i32,
}
