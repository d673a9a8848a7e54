//! From a macro's parts to the numbers in the fields of its file.
ghost use Rattle.packing.specs.Encode.{fields_of, header_fields, mark_of, number_of, numbers};
ghost use Rattle.macros.specs.Forms.{form_number};
ghost use Rattle.macros.specs.Lent.{given};
ghost use Rattle.macros.specs.Range.{SizedEdge, SizedOperand};
ghost use Rattle.std.specs.Prelude.{◌≡◌};

use decoding::fields::{EdgeFields, HeaderFields};
use macros::form::Form;
use macros::parts::{Edge, Macro, Operand, Operation};

pub(crate) fn header_fields(source: Macro) -> HeaderFields
    ensures { result ≡ header_fields (given source.entry) }
{
    HeaderFields {
        variables: u32::from(source.variables),
        places: u32::from(source.places),
        guarded: u32::from(source.guarded),
        // Only a number above 511 can be cut short here, and it stays above.
        edges: u32::try_from(source.edges.len()).unwrap_or(u32::MAX),
        filling: 0,
    }
}

fn mark_of(operand: Operand) -> u32
    ensures { result ≡ mark_of operand }
{
    match operand {
        Operand::Constant(_) => 0,
        Operand::Variable(_) => 1,
    }
}

fn number_of(operand: Operand) -> u32
    ensures number { result ≡ number_of operand }
    ensures sized { SizedOperand operand }
{
    match operand {
        Operand::Constant(constant) => constant.cast_unsigned(),
        Operand::Variable(variable) => u32::from(variable),
    }
}

/// An operand that a form does not have is written as the constant 0.
pub(crate) fn edge_fields(edge: Edge) -> EdgeFields
    ensures fields { result ≡ fields_of edge }
    ensures sized { SizedEdge edge }
{
    let none = Operand::Constant(0);
    let (target, left, right) = match edge.operation {
        Operation::Set { target, value } => (target, value, none),
        Operation::Compute {
            target,
            left,
            right,
            ..
        } => (target, left, right),
        Operation::Read { target } => (target, none, none),
        Operation::Test { left, right, .. } => (0, left, right),
    };
    EdgeFields {
        from: u32::from(edge.from),
        to: u32::from(edge.to),
        form: u32::from(edge.operation.form()),
        target: u32::from(target),
        left_mark: mark_of(left),
        left: number_of(left),
        right_mark: mark_of(right),
        right: number_of(right),
        filling: 0,
    }
}
