//! How the parts of a macro are written: one line for an edge, and one for each number of the header.
ghost use Rattle.std.specs.Prelude.{◌≡◌, Some};
ghost use Rattle.texts.specs.Parts.{comparison_symbol, edge_line, header_lines, operand_text, operation_text, arithmetic_symbol};

use macros::parts::{Arithmetic, Comparison, Edge, Header, Operand, Operation};
use std::fmt;

/// An operand: a constant as it is, a variable by its number, as `v0`.
#[derive(Clone, Copy, Debug)]
pub struct OperandText(pub Operand);

impl fmt::Display for OperandText {
    ghost output = { λ t. Some (operand_text t.0) };

    fn fmt<W: fmt::Write>(&self, f: &mut fmt::Formatter<W>) -> fmt::Result {
        match self.0 {
            Operand::Constant(number) => write!(f, "{number}"),
            Operand::Variable(number) => write!(f, "v{number}"),
        }
    }
}

fn arithmetic_symbol(arithmetic: Arithmetic) -> &'static str
    ensures { result.now ≡ arithmetic_symbol arithmetic }
{
    match arithmetic {
        Arithmetic::Add => "+",
        Arithmetic::Subtract => "-",
        Arithmetic::Multiply => "*",
        Arithmetic::Remainder => "rem",
    }
}

fn comparison_symbol(comparison: Comparison) -> &'static str
    ensures { result.now ≡ comparison_symbol comparison }
{
    match comparison {
        Comparison::Equal => "=",
        Comparison::NotEqual => "!=",
        Comparison::Less => "<",
        Comparison::AtMost => "<=",
        Comparison::Greater => ">",
        Comparison::AtLeast => ">=",
    }
}

/// What an edge does, as `v1 := v0 + 3`.
#[derive(Clone, Copy, Debug)]
pub struct OperationText(pub Operation);

impl fmt::Display for OperationText {
    ghost output = { λ t. Some (operation_text t.0) };

    fn fmt<W: fmt::Write>(&self, f: &mut fmt::Formatter<W>) -> fmt::Result {
        match self.0 {
            Operation::Set { target, value } => write!(f, "v{target} := {}", OperandText(value)),
            Operation::Compute {
                arithmetic,
                target,
                left,
                right,
            } => {
                let symbol = arithmetic_symbol(arithmetic);
                write!(
                    f,
                    "v{target} := {} {symbol} {}",
                    OperandText(left),
                    OperandText(right)
                )
            }
            Operation::Read { target } => write!(f, "read v{target}"),
            Operation::Test {
                comparison,
                left,
                right,
            } => {
                let symbol = comparison_symbol(comparison);
                write!(
                    f,
                    "pass if {} {symbol} {}",
                    OperandText(left),
                    OperandText(right)
                )
            }
        }
    }
}

/// An edge with its number in the macro, as `edge 3: 1 -> 2  pass if v0 > 10`.
#[derive(Clone, Copy, Debug)]
pub struct EdgeLine {
    pub number: usize,
    pub edge: Edge,
}

impl fmt::Display for EdgeLine {
    ghost output = { λ t. Some (edge_line t.number t.edge) };

    fn fmt<W: fmt::Write>(&self, f: &mut fmt::Formatter<W>) -> fmt::Result {
        let number = self.number;
        let Edge {
            from,
            to,
            operation,
        } = self.edge;
        write!(
            f,
            "edge {number}: {from} -> {to}  {}",
            OperationText(operation)
        )
    }
}

/// The numbers of a header, one to a line, with no end of line after the last.
#[derive(Clone, Copy, Debug)]
pub struct HeaderLines(pub Header);

impl fmt::Display for HeaderLines {
    ghost output = { λ t. Some (header_lines t.0) };

    fn fmt<W: fmt::Write>(&self, f: &mut fmt::Formatter<W>) -> fmt::Result {
        let Header {
            variables,
            places,
            guarded,
            edges,
        } = self.0;
        write!(
            f,
            "variables {variables}\nplaces {places}\nguarded {guarded}\nedges {edges}"
        )
    }
}
