//! How many macros came out in which way.
use crate::trial::{Agreement, Deviation};
use std::fmt;

/// The counts of a file.
#[derive(Default, Drop)]
pub struct Tally {
    macros: u64,
    read: u64,
    refused: u64,
    skipped: u64,
    wrong: u64,
}

impl Tally {
    /// Counts a macro. A count at its highest number stays there.
    pub fn count(&mut self, outcome: Result<Agreement, Deviation>) {
        let count = match outcome {
            Ok(Agreement::Read) => &mut self.read,
            Ok(Agreement::Refused) => &mut self.refused,
            Ok(Agreement::Skipped) => &mut self.skipped,
            Err(_) => &mut self.wrong,
        };
        *count = count.saturating_add(1);
        self.macros = self.macros.saturating_add(1);
    }
}

impl fmt::Display for Tally {
    fn fmt<W: fmt::Write>(&self, f: &mut fmt::Formatter<W>) -> fmt::Result {
        let Tally {
            macros,
            read,
            refused,
            skipped,
            wrong,
        } = self;
        write!(
            f,
            "macros {macros} read {read} refused {refused} skipped {skipped} wrong {wrong}"
        )
    }
}
