//! A whole macro in lines.
ghost use Rattle.std.specs.Prelude.{IfOk, string_bytes};
ghost use Rattle.texts.specs.Lines.{Describes};

use crate::parts::{EdgeLine, HeaderLines};
use reading::file::MacroFile;
use std::alloc::{AllocError, Global};

/// The lines of a file that was read: those of its header, and then one for each edge in the order of the file.
pub fn macro_lines(heap: Global, file: MacroFile) -> Result<String, AllocError>
    ensures { IfOk result (λ s. Describes (string_bytes s) file.entry.bytes.now) }
{
    let mut lines = String::new(heap);
    writeln!(lines, "{}", HeaderLines(file.header))?;
    for (number, edge) in file.edges().enumerate() {
        writeln!(lines, "{}", EdgeLine { number, edge })?;
    }
    Ok(lines)
}
