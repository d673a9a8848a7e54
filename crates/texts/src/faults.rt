//! Why a call declined, in one line. The number, the call and the spot are those that the refusal itself tells, so that
//! the line cannot differ from what a program is told; the words say which field it is, what was found and what was asked.
ghost use Rattle.std.specs.Option.{option_map};
ghost use Rattle.std.specs.Prelude.{◌≡◌, Some};
ghost use Rattle.texts.specs.Faults.{asked, call_name, field_fault_text, field_name, length_fault_text, macro_fault_text, noted_text, pack_fault_text, pack_refusal_line, read_refusal_line, refusal_line, room_fault_text, spot_text};

use macros::faults::{Call, FieldFault, LengthFault, MacroFault, Told};
use macros::layout::Field;
use packing::{PackFault, PackRefusal, RoomFault};
use reading::ReadRefusal;
use std::fmt;

fn field_name(field: Field) -> &'static str
    ensures { result.now ≡ field_name field }
{
    match field {
        Field::Variables => "variables",
        Field::Places => "places",
        Field::Guarded => "guarded",
        Field::Edges => "edges",
        Field::HeaderFilling | Field::EdgeFilling => "filling",
        Field::From => "from",
        Field::To => "to",
        Field::Form => "form",
        Field::Target => "target",
        Field::LeftMark => "left mark",
        Field::Left => "left",
        Field::RightMark => "right mark",
        Field::Right => "right",
    }
}

/// What the layout asks of the number in a field.
fn field_asks(field: Field) -> &'static str
    ensures { result.now ≡ asked field }
{
    match field {
        Field::Variables => "1 to 15",
        Field::Places => "1 to 255",
        Field::Edges => "at most 511",
        Field::Guarded | Field::From | Field::To => "below places",
        Field::Form => "0 to 11",
        Field::Target => "below variables, or 0 in a test",
        Field::LeftMark => "0 in a read",
        Field::Left => "a variable below variables, or 0 in a read",
        Field::RightMark => "0 in a set or a read",
        Field::Right => "a variable below variables, or 0 in a set or a read",
        Field::HeaderFilling | Field::EdgeFilling => "0",
    }
}

fn call_name(call: Call) -> &'static str
    ensures { result.now ≡ call_name call }
{
    match call {
        Call::Read => "read",
        Call::Pack => "pack",
    }
}

/// A field's fault, as `field to is 2, must be below places`.
#[derive(Clone, Copy, Debug)]
pub struct FieldFaultText(pub FieldFault);

impl fmt::Display for FieldFaultText {
    ghost output = { λ t. Some (field_fault_text t.0) };

    fn fmt<W: fmt::Write>(&self, f: &mut fmt::Formatter<W>) -> fmt::Result {
        let FieldFault { field, found, .. } = self.0;
        let name = field_name(field);
        let asks = field_asks(field);
        write!(f, "field {name} is {found}, must be {asks}")
    }
}

/// A wrong length, as `length is 15 bytes, must be 16`.
/// Of a file too short for its header only the least length is known.
#[derive(Clone, Copy, Debug)]
pub struct LengthFaultText(pub LengthFault);

impl fmt::Display for LengthFaultText {
    ghost output = { λ t. Some (length_fault_text t.0) };

    fn fmt<W: fmt::Write>(&self, f: &mut fmt::Formatter<W>) -> fmt::Result {
        let LengthFault {
            found,
            expected,
            ..
        } = self.0;
        let least = if found < 4 { "at least " } else { "" };
        write!(f, "length is {found} bytes, must be {least}{expected}")
    }
}

/// What is wrong with a macro, with the part of the file that is at fault.
#[derive(Clone, Copy, Debug)]
pub struct MacroFaultText(pub MacroFault);

impl fmt::Display for MacroFaultText {
    ghost output = { λ t. Some (macro_fault_text t.0) };

    fn fmt<W: fmt::Write>(&self, f: &mut fmt::Formatter<W>) -> fmt::Result {
        match self.0 {
            MacroFault::Length(fault) => write!(f, "macro {}", LengthFaultText(fault)),
            MacroFault::Header(fault) => write!(f, "header {}", FieldFaultText(fault)),
            MacroFault::Edge(fault) => write!(f, "edge {}", FieldFaultText(fault.field)),
        }
    }
}

/// A number that a refusal may hold, after its name and a space, or nothing.
#[derive(Clone, Copy, Debug)]
pub struct NotedText {
    pub name: &'static str,
    pub number: Option<usize>,
}

impl fmt::Display for NotedText {
    ghost output = { λ t. Some (noted_text t.name.now t.number) };

    fn fmt<W: fmt::Write>(&self, f: &mut fmt::Formatter<W>) -> fmt::Result {
        let name = self.name;
        match self.number {
            Some(number) => write!(f, " {name} {number}"),
            None => Ok(()),
        }
    }
}

/// Where a refusal is, as `call read bit 40 edge 0`.
#[derive(Clone, Copy, Debug)]
pub struct SpotText(pub Told);

impl fmt::Display for SpotText {
    ghost output = { λ t. Some (spot_text t.0) };

    fn fmt<W: fmt::Write>(&self, f: &mut fmt::Formatter<W>) -> fmt::Result {
        let Told {
            call,
            bit,
            edge,
            ..
        } = self.0;
        let name = call_name(call);
        let bit = NotedText {
            name: "bit",
            number: bit,
        };
        let edge = NotedText {
            name: "edge",
            number: edge,
        };
        write!(f, "call {name}{bit}{edge}")
    }
}

/// Too little memory to write into, as `room is 15 bytes, must be at least 16`.
#[derive(Clone, Copy, Debug)]
pub struct RoomFaultText(pub RoomFault);

impl fmt::Display for RoomFaultText {
    ghost output = { λ t. Some (room_fault_text t.0) };

    fn fmt<W: fmt::Write>(&self, f: &mut fmt::Formatter<W>) -> fmt::Result {
        let RoomFault { needed, given } = self.0;
        write!(f, "room is {given} bytes, must be at least {needed}")
    }
}

/// Why nothing was packed: a fault of the macro, or too little room.
#[derive(Clone, Copy, Debug)]
pub struct PackFaultText(pub PackFault);

impl fmt::Display for PackFaultText {
    ghost output = { λ t. Some (pack_fault_text t.0) };

    fn fmt<W: fmt::Write>(&self, f: &mut fmt::Formatter<W>) -> fmt::Result {
        match self.0 {
            PackFault::Macro(fault) => write!(f, "{}", MacroFaultText(fault)),
            PackFault::Room(fault) => write!(f, "{}", RoomFaultText(fault)),
        }
    }
}

/// A refusal in one line: its number, why it was refused, and where.
#[derive(Clone, Copy, Debug)]
pub struct RefusalLine<T> {
    told: Told,
    why: T,
}

impl<T: fmt::Display> fmt::Display for RefusalLine<T> {
    ghost output = { λ t. option_map (refusal_line t.told) (T.output t.why) };

    fn fmt<W: fmt::Write>(&self, f: &mut fmt::Formatter<W>) -> fmt::Result {
        let RefusalLine { told, why } = self;
        write!(f, "refused {} {why} {}", told.number, SpotText(*told))
    }
}

impl From<ReadRefusal> for RefusalLine<MacroFaultText> {
    ghost from_gives = { λ f r. ⟦<RefusalLine<MacroFaultText> as fmt::Display>⟧.output r ≡ Some (read_refusal_line f) };

    fn from(refusal: ReadRefusal) -> RefusalLine<MacroFaultText> {
        RefusalLine {
            told: refusal.told(),
            why: MacroFaultText(refusal.fault),
        }
    }
}

impl From<PackRefusal> for RefusalLine<PackFaultText> {
    ghost from_gives = { λ f r. ⟦<RefusalLine<PackFaultText> as fmt::Display>⟧.output r ≡ Some (pack_refusal_line f) };

    fn from(refusal: PackRefusal) -> RefusalLine<PackFaultText> {
        RefusalLine {
            told: refusal.told(),
            why: PackFaultText(refusal.fault),
        }
    }
}
