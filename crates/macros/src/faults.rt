//! What a call refuses: a fault of a field lies whole in that of its edge, that in the macro's, and that in the call's.
//! Each layer adds what it knows, and `From` turns one into the next along `?`.
ghost use Rattle.macros.specs.Faults.{in_edge, in_edges, in_header, told_macro};
ghost use Rattle.std.specs.Prelude.{◌≡◌};

use crate::layout::Field;

/// A field whose number is not one that the layout allows there: which field, its first bit, and the number.
#[derive(Clone, Copy, Debug, PartialEq, Eq)]
pub struct FieldFault {
    pub field: Field,
    pub bit: usize,
    pub found: u32,
}

/// A field's fault and the edge that it is in.
#[derive(Clone, Copy, Debug, PartialEq, Eq)]
pub struct EdgeFault {
    pub field: FieldFault,
    pub edge: usize,
}

/// A file with a wrong number of bytes. It stands at bit 0, since no field is at fault.
#[derive(Clone, Copy, Debug, PartialEq, Eq)]
pub struct LengthFault {
    pub bit: usize,
    pub found: usize,
    pub expected: usize,
}

/// What is wrong with a macro: refusals 1, 2 and 3.
#[derive(Clone, Copy, Debug, PartialEq, Eq)]
pub enum MacroFault {
    Length(LengthFault),
    Header(FieldFault),
    Edge(EdgeFault),
}

/// The calls that may decline.
#[derive(Clone, Copy, Debug, PartialEq, Eq)]
pub enum Call {
    Read,
    Pack,
}

/// A refusal by its number, with the call that declined and the spot, as far as the fault holds one.
#[derive(Clone, Copy, Debug, PartialEq, Eq)]
pub struct Told {
    pub number: u8,
    pub call: Call,
    pub bit: Option<usize>,
    pub edge: Option<usize>,
}

impl From<FieldFault> for EdgeFault {
    ghost from_gives = { λ f r. r ≡ in_edge f };

    fn from(field: FieldFault) -> EdgeFault {
        EdgeFault {
            field,
            edge: field.bit.saturating_sub(32) / 96,
        }
    }
}

impl From<FieldFault> for MacroFault {
    ghost from_gives = { λ f r. r ≡ in_header f };

    fn from(field: FieldFault) -> MacroFault {
        MacroFault::Header(field)
    }
}

impl From<EdgeFault> for MacroFault {
    ghost from_gives = { λ f r. r ≡ in_edges f };

    fn from(edge: EdgeFault) -> MacroFault {
        MacroFault::Edge(edge)
    }
}

impl MacroFault {
    /// The fault's number and spot, for the call that declined.
    pub fn told(self, call: Call) -> Told
        ensures { result ≡ told_macro call self }
    {
        match self {
            MacroFault::Length(length) => Told {
                number: 1,
                call,
                bit: Some(length.bit),
                edge: None,
            },
            MacroFault::Header(field) => Told {
                number: 2,
                call,
                bit: Some(field.bit),
                edge: None,
            },
            MacroFault::Edge(edge) => Told {
                number: 3,
                call,
                bit: Some(edge.field.bit),
                edge: Some(edge.edge),
            },
        }
    }
}
