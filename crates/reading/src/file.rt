//! A file that was read, and the edges in it.
ghost use Rattle.std.specs.Prelude.{◌≡◌, ◌<◌, Ok, Some};
ghost use Rattle.std.specs.Iterator.{YieldsFirst, item_count};
ghost use Rattle.std.specs.List.{slice_get};
ghost use Rattle.reading.specs.Reading.{edges_in, headed, read_edge};

use crate::{ReadRefusal, read, read_edge};
use macros::parts::{Edge, Header};

/// The bytes of a file that holds a macro, and its header.
#[derive(Clone, Copy, Debug)]
pub struct MacroFile<'a> {
    pub bytes: &'a [u8],
    pub header: Header,
    ghost holds: { headed bytes.now ≡ Ok header },
}

impl<'a> MacroFile<'a> {
    ghost use Rattle.reading.specs.Files.{Opened, edges_from};

    /// Tests the whole file, and answers why it is refused if it holds no macro.
    pub fn open(bytes: &'a [u8]) -> Result<MacroFile<'a>, ReadRefusal>
        ensures { Opened result bytes.now }
    {
        let header = read(bytes)?;
        Ok(MacroFile { bytes, header })
    }

    /// One edge by its number. It is known to be there.
    pub fn edge_at(self, number: usize) -> Edge
        requires { number < self.header.edges }
        ensures read { read_edge self.entry.bytes.now self.entry.header number ≡ Ok result }
        ensures edge { slice_get (edges_in self.entry.bytes.now) number ≡ Some result }
    {
        read_edge(self.bytes, self.header, number).unwrap()
    }

    /// The edges in the order of the file.
    pub fn edges(self) -> Edges<'a>
        ensures { edges_from result ≡ edges_in self.entry.bytes.now }
    {
        Edges {
            file: self,
            next: 0,
        }
    }
}

/// The edges of a file from one of them on.
#[derive(Clone, Copy, Debug)]
pub struct Edges<'a> {
    file: MacroFile<'a>,
    next: usize,
}

impl<'a> Iterator for Edges<'a> {
    ghost use Rattle.reading.specs.Files.{edges_from};

    type Item = Edge;

    ghost next_gives = { YieldsFirst edges_from };

    ghost remaining = { item_count edges_from };

    #[tactic(auto, using(crate::proofs::Edges::drop_get))]
    fn next(&mut self) -> Option<Edge> {
        if self.next < usize::from(self.file.header.edges) {
            let edge = self.file.edge_at(self.next);
            self.next += 1;
            Some(edge)
        } else {
            None
        }
    }
}
