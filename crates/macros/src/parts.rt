//! What a macro is made of.
ghost use Rattle.macros.specs.Forms.{form_of_operation};
ghost use Rattle.macros.specs.Lent.{given};
ghost use Rattle.macros.specs.Macro.{macro_of};
ghost use Rattle.std.specs.Prelude.{◌≡◌};

use crate::form::Form;

/// One side of an edge's operator: a number of its own, or a variable by its number.
#[derive(Clone, Copy, Debug, PartialEq, Eq)]
pub enum Operand {
    Constant(i32),
    Variable(u8),
}

#[derive(Clone, Copy, Debug, PartialEq, Eq)]
pub enum Arithmetic {
    Add,
    Subtract,
    Multiply,
    Remainder,
}

#[derive(Clone, Copy, Debug, PartialEq, Eq)]
pub enum Comparison {
    Equal,
    NotEqual,
    Less,
    AtMost,
    Greater,
    AtLeast,
}

/// What an edge does. `Set` and `Compute` give a variable a value, `Read` gives it what the panel shows,
/// and `Test` changes nothing but is passed only if the comparison holds.
#[derive(Clone, Copy, Debug, PartialEq, Eq)]
pub enum Operation {
    Set {
        target: u8,
        value: Operand,
    },
    Compute {
        arithmetic: Arithmetic,
        target: u8,
        left: Operand,
        right: Operand,
    },
    Read {
        target: u8,
    },
    Test {
        comparison: Comparison,
        left: Operand,
        right: Operand,
    },
}

/// A way from one place to another.
#[derive(Clone, Copy, Debug, PartialEq, Eq)]
pub struct Edge {
    pub from: u8,
    pub to: u8,
    pub operation: Operation,
}

/// The numbers that a file begins with: how many variables, places and edges there are, and which place is guarded.
#[derive(Clone, Copy, Debug, PartialEq, Eq)]
pub struct Header {
    pub variables: u8,
    pub places: u8,
    pub guarded: u8,
    pub edges: u16,
}

/// A macro that is not packed: how many variables and places it has, which place is guarded, and its edges.
#[derive(Clone, Copy, Debug, PartialEq, Eq)]
pub struct Macro<'a> {
    pub variables: u8,
    pub places: u8,
    pub guarded: u8,
    pub edges: &'a [Edge],
}

impl Header {
    /// The macro that has these numbers and these edges.
    pub fn with_edges(self, edges: &[Edge]) -> Macro<'_>
        ensures { given result ≡ macro_of self edges.now }
    {
        Macro {
            variables: self.variables,
            places: self.places,
            guarded: self.guarded,
            edges,
        }
    }
}

impl Operation {
    pub fn form(self) -> Form
        ensures { result ≡ form_of_operation self }
    {
        match self {
            Operation::Set { .. } => Form::Set,
            Operation::Compute { arithmetic, .. } => Form::Compute(arithmetic),
            Operation::Read { .. } => Form::Read,
            Operation::Test { comparison, .. } => Form::Test(comparison),
        }
    }
}
