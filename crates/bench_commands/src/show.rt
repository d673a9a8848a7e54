//! Shows the macro in a file.
ghost use Rattle.bench_commands.specs.Failures.{Shown};
ghost use Rattle.failures.specs.Failures.{OfShowing};
ghost use Rattle.std.specs.Prelude.{IfErr};

use failures::{Failure, file_bytes};
use reading::file::MacroFile;
use std::alloc::Global;
use std::fmt;
use texts::lines::macro_lines;

/// The lines that these bytes are shown by, or the refusal of `read`.
pub fn show_lines(heap: Global, bytes: &[u8]) -> Result<String, Failure>
    ensures shown { Shown result bytes.now }
    ensures failure { IfErr result OfShowing }
{
    let file = MacroFile::open(bytes)?;
    // Where memory for a text runs out, what people read is that the text could not be written.
    let lines = macro_lines(heap, file).map_err(|_| fmt::Error)?;
    Ok(lines)
}

/// Prints the lines of the macro in a file.
pub fn show(rt: &HostRuntime, file: &str) -> Result<(), Failure>
    ensures { IfErr result OfShowing }
{
    let bytes = file_bytes(rt, file)?;
    let lines = show_lines(rt.alloc(), bytes.as_slice())?;
    rt.print(lines)?;
    Ok(())
}
