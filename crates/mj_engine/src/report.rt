//! What a run has to write so far.

use mj_fields::{Bytes, Memory};
use std::alloc::Global;

/// The lines of a run so far, those of facts and those of refused files, and how many mails were accepted.
#[derive(Debug, Drop)]
pub struct Report {
    pub facts: Bytes,
    pub refused: Bytes,
    pub accepted: u64,
}

impl Report {
    ghost use Rattle.std.specs.Prelude.{◌≡◌, ◌++◌, IfOk};
    ghost use Rattle.mj_engine.specs.Run.{empty_report};

    pub fn new(alloc: Global) -> Report
        ensures { result ≡ empty_report }
    {
        Report {
            facts: Bytes::new(alloc),
            refused: Bytes::new(alloc),
            accepted: 0,
        }
    }

    /// All lines: those of facts, and then those of refused files.
    pub fn into_text(self) -> Result<Bytes, Memory>
        ensures { IfOk result (λ text. text ≡ self.facts ++ self.refused) }
    {
        let mut text = self.facts;
        text.extend(self.refused.as_slice())?;
        Ok(text)
    }
}
