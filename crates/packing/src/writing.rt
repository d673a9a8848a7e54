//! Writing the fields into bytes.
ghost use Rattle.std.specs.Prelude.{◌≡◌, ◌+◌, ◌*◌, ◌<◌, ◌≤◌, length};
ghost use Rattle.bits.specs.Field.{put};
ghost use Rattle.macros.specs.Layout.{file_length, offset, width};
ghost use Rattle.packing.specs.Packing.{edge_list, header_list, put_edges, put_fields};

use crate::encode::edge_fields;
use bits::write_field;
use decoding::fields::{EdgeFields, HeaderFields};
use macros::layout::{Field, Start};
use macros::parts::Edge;

/// Writes a field of the header or edge that begins at `start`.
fn write_at(bytes: &mut [u8], start: Start, field: Field, number: u32)
    requires { start.bit + offset field + width field ≤ 8 * length bytes.old }
    ensures { bytes.new ≡ put bytes.old (start.bit + offset field) (width field) number }
{
    write_field(bytes, start.bit_of(field), field.width(), number);
}

pub(crate) fn write_header(bytes: &mut [u8], fields: HeaderFields)
    requires { 4 ≤ length bytes.old }
    ensures { bytes.new ≡ put_fields bytes.old 0 (header_list fields) }
{
    let start = Start::of_header();
    write_at(bytes, start, Field::Variables, fields.variables);
    write_at(bytes, start, Field::Places, fields.places);
    write_at(bytes, start, Field::Guarded, fields.guarded);
    write_at(bytes, start, Field::Edges, fields.edges);
    write_at(bytes, start, Field::HeaderFilling, fields.filling);
}

/// Writes the edge that begins at `start`.
fn write_edge(bytes: &mut [u8], start: Start, fields: EdgeFields)
    requires { start.bit + 96 ≤ 8 * length bytes.old }
    ensures { bytes.new ≡ put_fields bytes.old start.bit (edge_list fields) }
{
    write_at(bytes, start, Field::From, fields.from);
    write_at(bytes, start, Field::To, fields.to);
    write_at(bytes, start, Field::Form, fields.form);
    write_at(bytes, start, Field::Target, fields.target);
    write_at(bytes, start, Field::LeftMark, fields.left_mark);
    write_at(bytes, start, Field::Left, fields.left);
    write_at(bytes, start, Field::RightMark, fields.right_mark);
    write_at(bytes, start, Field::Right, fields.right);
    write_at(bytes, start, Field::EdgeFilling, fields.filling);
}

pub(crate) fn write_edges(bytes: &mut [u8], edges: &[Edge])
    requires countable { length edges.now < 512 }
    requires room { file_length (length edges.now) ≤ length bytes.old }
    ensures { bytes.new ≡ put_edges bytes.old 0 edges.now }
{
    for (number, edge) in edges.iter().enumerate() {
        write_edge(bytes, Start::of_edge(number), edge_fields(*edge));
    }
}
