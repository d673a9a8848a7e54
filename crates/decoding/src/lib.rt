//! From the numbers in the fields to what they mean. Reading and packing share these tests,
//! so that both refuse the same numbers at the same spot.

#![tactic(auto)]

pub mod fields;

ghost use Rattle.std.specs.Prelude.{◌≡◌};
ghost use Rattle.decoding.specs.Decode.{below as is_below, decode_compute, decode_edge, decode_header, decode_operand, decode_operation, decode_read, decode_set, decode_test, form_at, within as is_within, wrong, zeroed as is_zeroed};

use fields::{EdgeFields, HeaderFields};
use macros::faults::FieldFault;
use macros::form::Form;
use macros::layout::{Field, Start};
use macros::parts::{Arithmetic, Comparison, Edge, Header, Operand, Operation};

/// The number that was found in a field of the header or edge that begins at `start`.
#[derive(Clone, Copy)]
struct Found {
    start: Start,
    field: Field,
    number: u32,
}

impl Found {
    fn fault(self) -> FieldFault
        ensures { result ≡ wrong self.start.bit self.field self.number }
    {
        FieldFault {
            field: self.field,
            bit: self.start.bit_of(self.field),
            found: self.number,
        }
    }

    fn below(self, limit: u32) -> Result<u32, FieldFault>
        ensures { result ≡ is_below self.start.bit self.field self.number limit }
    {
        if self.number < limit {
            Ok(self.number)
        } else {
            Err(self.fault())
        }
    }

    fn within(self, least: u32, most: u32) -> Result<u32, FieldFault>
        ensures { result ≡ is_within self.start.bit self.field self.number least most }
    {
        if least <= self.number && self.number <= most {
            Ok(self.number)
        } else {
            Err(self.fault())
        }
    }

    fn zeroed(self) -> Result<(), FieldFault>
        ensures { result ≡ is_zeroed self.start.bit self.field self.number }
    {
        if self.number == 0 {
            Ok(())
        } else {
            Err(self.fault())
        }
    }

    /// The operand that the number means under this mark.
    fn operand(self, mark: u32, variables: u8) -> Result<Operand, FieldFault>
        ensures { result ≡ decode_operand variables self.start.bit self.field mark self.number }
    {
        if mark == 0 {
            return Ok(Operand::Constant(self.number.cast_signed()));
        }
        let variable = self.below(u32::from(variables))?;
        Ok(Operand::Variable(variable as u8))
    }
}

/// The header that these numbers mean, or the first of them that is refused.
pub fn decode_header(fields: HeaderFields) -> Result<Header, FieldFault>
    ensures { result ≡ decode_header fields }
{
    let start = Start::of_header();
    let found = |field: Field, number: u32| Found {
        start,
        field,
        number,
    };
    let variables = found(Field::Variables, fields.variables).within(1, 15)?;
    let places = found(Field::Places, fields.places).within(1, 255)?;
    let guarded = found(Field::Guarded, fields.guarded).below(places)?;
    let edges = found(Field::Edges, fields.edges).below(512)?;
    found(Field::HeaderFilling, fields.filling).zeroed()?;
    Ok(Header {
        variables: variables as u8,
        places: places as u8,
        guarded: guarded as u8,
        edges: edges as u16,
    })
}

/// The numbers of an edge, where it begins, and the header of its macro.
#[derive(Clone, Copy)]
struct EdgeNumbers {
    header: Header,
    start: Start,
    fields: EdgeFields,
}

impl EdgeNumbers {
    fn found(self, field: Field, number: u32) -> Found
        ensures start { result.start ≡ self.start }
        ensures field { result.field ≡ field }
        ensures number { result.number ≡ number }
    {
        Found {
            start: self.start,
            field,
            number,
        }
    }

    /// The number of a place or a variable, which is below how many of them there are.
    fn below(self, field: Field, number: u32, limit: u8) -> Result<u8, FieldFault>
        ensures { result ≡ is_below self.start.bit field number limit }
    {
        let number = self.found(field, number).below(u32::from(limit))?;
        Ok(number as u8)
    }

    fn operand(self, field: Field, mark: u32, number: u32) -> Result<Operand, FieldFault>
        ensures { result ≡ decode_operand self.header.variables self.start.bit field mark number }
    {
        self.found(field, number)
            .operand(mark, self.header.variables)
    }

    fn form(self) -> Result<Form, FieldFault>
        ensures { result ≡ form_at self.start.bit self.fields.form }
    {
        let found = self.found(Field::Form, self.fields.form);
        Form::try_from(found.number).map_err(|_| found.fault())
    }

    fn set(self) -> Result<Operation, FieldFault>
        ensures { result ≡ decode_set self.header.variables self.start.bit self.fields }
    {
        let target = self.below(Field::Target, self.fields.target, self.header.variables)?;
        let value = self.operand(Field::Left, self.fields.left_mark, self.fields.left)?;
        self.found(Field::RightMark, self.fields.right_mark)
            .zeroed()?;
        self.found(Field::Right, self.fields.right).zeroed()?;
        Ok(Operation::Set { target, value })
    }

    fn compute(self, arithmetic: Arithmetic) -> Result<Operation, FieldFault>
        ensures { result ≡ decode_compute self.header.variables self.start.bit arithmetic self.fields }
    {
        let target = self.below(Field::Target, self.fields.target, self.header.variables)?;
        let left = self.operand(Field::Left, self.fields.left_mark, self.fields.left)?;
        let right = self.operand(Field::Right, self.fields.right_mark, self.fields.right)?;
        Ok(Operation::Compute {
            arithmetic,
            target,
            left,
            right,
        })
    }

    fn read(self) -> Result<Operation, FieldFault>
        ensures { result ≡ decode_read self.header.variables self.start.bit self.fields }
    {
        let target = self.below(Field::Target, self.fields.target, self.header.variables)?;
        self.found(Field::LeftMark, self.fields.left_mark).zeroed()?;
        self.found(Field::Left, self.fields.left).zeroed()?;
        self.found(Field::RightMark, self.fields.right_mark)
            .zeroed()?;
        self.found(Field::Right, self.fields.right).zeroed()?;
        Ok(Operation::Read { target })
    }

    fn test(self, comparison: Comparison) -> Result<Operation, FieldFault>
        ensures { result ≡ decode_test self.header.variables self.start.bit comparison self.fields }
    {
        self.found(Field::Target, self.fields.target).zeroed()?;
        let left = self.operand(Field::Left, self.fields.left_mark, self.fields.left)?;
        let right = self.operand(Field::Right, self.fields.right_mark, self.fields.right)?;
        Ok(Operation::Test {
            comparison,
            left,
            right,
        })
    }

    fn operation(self, form: Form) -> Result<Operation, FieldFault>
        ensures { result ≡ decode_operation self.header.variables self.start.bit form self.fields }
    {
        match form {
            Form::Set => self.set(),
            Form::Compute(arithmetic) => self.compute(arithmetic),
            Form::Read => self.read(),
            Form::Test(comparison) => self.test(comparison),
        }
    }

    fn edge(self) -> Result<Edge, FieldFault>
        ensures { result ≡ decode_edge self.header.variables self.header.places self.start.bit self.fields }
    {
        let from = self.below(Field::From, self.fields.from, self.header.places)?;
        let to = self.below(Field::To, self.fields.to, self.header.places)?;
        let form = self.form()?;
        let operation = self.operation(form)?;
        self.found(Field::EdgeFilling, self.fields.filling)
            .zeroed()?;
        Ok(Edge {
            from,
            to,
            operation,
        })
    }
}

/// The edge that these numbers mean, where it begins at `start` in a macro with this header.
pub fn decode_edge(header: Header, start: Start, fields: EdgeFields) -> Result<Edge, FieldFault>
    ensures { result ≡ decode_edge header.variables header.places start.bit fields }
{
    let numbers = EdgeNumbers {
        header,
        start,
        fields,
    };
    numbers.edge()
}
