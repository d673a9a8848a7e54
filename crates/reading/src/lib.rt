//! Reading a packed macro: its header, an edge by its number, and the whole file.
//! A file is tested by `read`. `MacroFile` is a file that passed, and gives its edges one by one.

#![tactic(auto)]

ghost use Rattle.std.specs.Prelude.{◌≡◌, ◌+◌, ◌*◌, ◌<◌, length, Ok};
ghost use Rattle.macros.specs.Faults.{bind, in_edges};
ghost use Rattle.macros.specs.Layout.{file_length};
ghost use Rattle.reading.specs.Reading.{headed, in_read, read_answer, read_edge, read_header, told_read, wrong_length};

use decoding::fields::{read_edge_fields, read_header_fields};
use decoding::{decode_edge, decode_header};
use macros::faults::{Call, EdgeFault, LengthFault, MacroFault, Told};
use macros::layout::Start;
use macros::parts::{Edge, Header};

pub mod file;

/// What `read` answers where it declines. A type for each call: `From` then knows the call, and of a generic type from
/// another crate Rust allows no such `From`.
#[derive(Clone, Copy, Debug, PartialEq, Eq)]
pub struct ReadRefusal {
    pub call: Call,
    pub fault: MacroFault,
}

impl From<MacroFault> for ReadRefusal {
    ghost from_gives = { λ f r. r ≡ in_read f };

    fn from(fault: MacroFault) -> ReadRefusal {
        ReadRefusal {
            call: Call::Read,
            fault,
        }
    }
}

impl ReadRefusal {
    /// The refusal by its number and spot.
    pub fn told(self) -> Told
        ensures { result ≡ told_read self }
    {
        self.fault.told(self.call)
    }
}

/// A file of `found` bytes where `expected` were asked for.
fn wrong_length(found: usize, expected: usize) -> MacroFault
    ensures { result ≡ wrong_length found expected }
{
    MacroFault::Length(LengthFault {
        bit: 0,
        found,
        expected,
    })
}

/// The header: at least 4 bytes, then its fields, then the length that it asks of the file.
pub fn read_header(bytes: &[u8]) -> Result<Header, MacroFault>
    ensures { result ≡ read_header bytes.now }
{
    let found = bytes.len();
    if found < 4 {
        return Err(wrong_length(found, 4));
    }
    let header = decode_header(read_header_fields(bytes))?;
    let expected = 4 + 12 * usize::from(header.edges);
    if found == expected {
        Ok(header)
    } else {
        Err(wrong_length(found, expected))
    }
}

/// One edge by its number, of a file whose header was read.
pub fn read_edge(bytes: &[u8], header: Header, number: usize) -> Result<Edge, EdgeFault>
    requires there { number < header.edges }
    requires whole { length bytes.now ≡ file_length header.edges }
    ensures { result ≡ read_edge bytes.now header number }
{
    let start = Start::of_edge(number);
    let edge = decode_edge(header, start, read_edge_fields(bytes, start))?;
    Ok(edge)
}

/// Whether every edge can be read, or the first fault. It goes by number, since the iterator over edges rests on it.
fn test_edges(bytes: &[u8], header: Header) -> Result<(), EdgeFault>
    requires { read_header bytes.now ≡ Ok header }
    ensures { headed bytes.now ≡ bind in_edges result (λ _. Ok header) }
{
    for number in 0..usize::from(header.edges) {
        read_edge(bytes, header, number)?;
    }
    Ok(())
}

/// The header of a file that holds a macro, for the calls that take one as their input.
pub fn read_macro(bytes: &[u8]) -> Result<Header, MacroFault>
    ensures { result ≡ headed bytes.now }
{
    let header = read_header(bytes)?;
    test_edges(bytes, header)?;
    Ok(header)
}

/// Tests a whole file and answers its header, or why it is refused.
pub fn read(bytes: &[u8]) -> Result<Header, ReadRefusal>
    ensures { result ≡ read_answer bytes.now }
{
    let header = read_macro(bytes)?;
    Ok(header)
}
