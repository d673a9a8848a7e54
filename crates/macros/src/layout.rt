//! Where the fields of a packed macro lie.
ghost use Rattle.macros.specs.Layout.{edge_bit, offset, width};
ghost use Rattle.std.specs.Prelude.{◌≡◌, ◌+◌, ◌^◌, ◌<◌};

/// A field of the file: five of the header, and nine of each edge.
#[derive(Clone, Copy, Debug, PartialEq, Eq)]
pub enum Field {
    Variables,
    Places,
    Guarded,
    Edges,
    HeaderFilling,
    From,
    To,
    Form,
    Target,
    LeftMark,
    Left,
    RightMark,
    Right,
    EdgeFilling,
}

impl Field {
    /// How many bits the field has.
    pub fn width(self) -> u32
        ensures { result ≡ width self }
    {
        match self {
            Field::LeftMark | Field::RightMark => 1,
            Field::HeaderFilling => 3,
            Field::Variables | Field::Form | Field::Target => 4,
            Field::EdgeFilling => 6,
            Field::Places | Field::Guarded | Field::From | Field::To => 8,
            Field::Edges => 9,
            Field::Left | Field::Right => 32,
        }
    }

    /// Where the field begins, counted from the first bit of the header or of its edge.
    pub fn offset(self) -> usize
        ensures { result ≡ offset self }
    {
        match self {
            Field::Variables | Field::From => 0,
            Field::Places => 4,
            Field::To => 8,
            Field::Guarded => 12,
            Field::Form => 16,
            Field::Edges | Field::Target => 20,
            Field::LeftMark => 24,
            Field::Left => 25,
            Field::HeaderFilling => 29,
            Field::RightMark => 57,
            Field::Right => 58,
            Field::EdgeFilling => 90,
        }
    }
}

/// Where the header or an edge begins: its first bit in the file. Every field of either can be counted from there.
#[derive(Clone, Copy, Debug, PartialEq, Eq)]
pub struct Start {
    pub bit: usize,
    ghost countable: { bit + 96 < 2 ^ 64 },
}

impl Start {
    /// The header begins the file.
    pub fn of_header() -> Start
        ensures { result.bit ≡ 0 }
    {
        Start { bit: 0 }
    }

    /// The edges lie one after the other behind the header.
    pub fn of_edge(number: usize) -> Start
        requires { edge_bit number + 96 < 2 ^ 64 }
        ensures { result.bit ≡ edge_bit number }
    {
        Start {
            bit: 32 + 96 * number,
        }
    }

    /// The first bit of a field of the header or edge that begins here.
    pub fn bit_of(self, field: Field) -> usize
        ensures { result ≡ self.bit + offset field }
    {
        self.bit + field.offset()
    }
}
