//! Packing a macro into lent bytes: what reading would refuse is refused at the same spot, and what is packed reads back.

#![tactic(auto)]

ghost use Rattle.std.specs.Prelude.{◌≡◌, ◌+◌, ◌*◌, ◌<◌, ◌≤◌, ◌++◌, length, drop, replicate, Ok, OnOk};
ghost use Rattle.macros.specs.Lent.{given};
ghost use Rattle.packing.specs.Packing.{pack_answer, pack_memory, test_edges, test_macro, test_room};
ghost use Rattle.packing.specs.Promises.{Promises};
ghost use Rattle.macros.specs.Range.{Sized};

use decoding::{decode_edge, decode_header};
use encode::{edge_fields, header_fields};
use macros::faults::{EdgeFault, MacroFault};
use macros::layout::Start;
use macros::parts::{Edge, Header};
use writing::{write_edges, write_header};

pub mod encode;
pub mod faults;
pub mod writing;

pub use faults::{PackFault, PackRefusal, RoomFault};
pub use macros::parts::Macro;

/// Whether reading would take every edge, or the first fault that it would name.
fn test_edges(header: Header, edges: &[Edge]) -> Result<(), EdgeFault>
    requires { length edges.now < 512 }
    ensures answer { result ≡ test_edges header 0 edges.now }
    ensures sized { OnOk result (Sized edges.now) }
{
    for (number, edge) in edges.iter().enumerate() {
        decode_edge(header, Start::of_edge(number), edge_fields(*edge))?;
    }
    Ok(())
}

fn test_macro(source: Macro) -> Result<Header, MacroFault>
    ensures answer { result ≡ test_macro (given source.entry) }
    ensures sized { OnOk result (Sized (given source.entry).edges) }
{
    let header = decode_header(header_fields(source))?;
    test_edges(header, source.edges)?;
    Ok(header)
}

fn test_room(needed: usize, given: usize) -> Result<(), RoomFault>
    ensures { result ≡ test_room needed given }
{
    if given < needed {
        Err(RoomFault { needed, given })
    } else {
        Ok(())
    }
}

/// Packs the macro into the first bytes of `out`, and answers how many they are; what lies beyond them is kept.
pub fn pack(source: Macro, out: &mut [u8]) -> Result<usize, PackRefusal>
    ensures answer { result ≡ pack_answer (given source.entry) (length out.old) }
    ensures memory { out.new ≡ pack_memory result (given source.entry) out.old }
    ensures promises { Promises (given source.entry) (length out.old) result out.new }
{
    test_macro(source)?;
    let count = 4 + 12 * source.edges.len();
    test_room(count, out.len())?;
    out[..count].fill(0);
    write_header(out, header_fields(source));
    write_edges(out, source.edges);
    Ok(count)
}
