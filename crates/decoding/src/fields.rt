//! The numbers of the file, as they lie in its fields and before they mean anything.
ghost use Rattle.std.specs.Prelude.{◌≡◌, ◌+◌, ◌*◌, ◌≤◌, length};
ghost use Rattle.decoding.specs.Decode.{edge_fields_at, header_fields_at};
ghost use Rattle.macros.specs.Layout.{field_at, offset, width};

use bits::read_field;
use macros::layout::{Field, Start};

/// The numbers in the fields of a header.
#[derive(Clone, Copy, Debug, PartialEq, Eq)]
pub struct HeaderFields {
    pub variables: u32,
    pub places: u32,
    pub guarded: u32,
    pub edges: u32,
    pub filling: u32,
}

/// The numbers in the fields of an edge.
#[derive(Clone, Copy, Debug, PartialEq, Eq)]
pub struct EdgeFields {
    pub from: u32,
    pub to: u32,
    pub form: u32,
    pub target: u32,
    pub left_mark: u32,
    pub left: u32,
    pub right_mark: u32,
    pub right: u32,
    pub filling: u32,
}

/// The number in a field of the header or edge that begins at `start`.
fn read_at(bytes: &[u8], start: Start, field: Field) -> u32
    requires { start.bit + offset field + width field ≤ 8 * length bytes.now }
    ensures { result ≡ field_at bytes.now start.bit field }
{
    read_field(bytes, start.bit_of(field), field.width())
}

pub fn read_header_fields(bytes: &[u8]) -> HeaderFields
    requires { 4 ≤ length bytes.now }
    ensures { result ≡ header_fields_at bytes.now }
{
    let start = Start::of_header();
    HeaderFields {
        variables: read_at(bytes, start, Field::Variables),
        places: read_at(bytes, start, Field::Places),
        guarded: read_at(bytes, start, Field::Guarded),
        edges: read_at(bytes, start, Field::Edges),
        filling: read_at(bytes, start, Field::HeaderFilling),
    }
}

/// The fields of the edge that begins at `start`.
pub fn read_edge_fields(bytes: &[u8], start: Start) -> EdgeFields
    requires { start.bit + 96 ≤ 8 * length bytes.now }
    ensures { result ≡ edge_fields_at bytes.now start.bit }
{
    EdgeFields {
        from: read_at(bytes, start, Field::From),
        to: read_at(bytes, start, Field::To),
        form: read_at(bytes, start, Field::Form),
        target: read_at(bytes, start, Field::Target),
        left_mark: read_at(bytes, start, Field::LeftMark),
        left: read_at(bytes, start, Field::Left),
        right_mark: read_at(bytes, start, Field::RightMark),
        right: read_at(bytes, start, Field::Right),
        filling: read_at(bytes, start, Field::EdgeFilling),
    }
}
