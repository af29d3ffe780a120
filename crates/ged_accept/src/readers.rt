// What reads the lines of a file while its table is made.
ghost use Rattle.std.specs.Prelude.{[], IfOk};

use ged_line::LineView;
use ged_link::RecordReader;
use ged_schema::LineWalk;
use ged_tree::LineReader;
use std::alloc::{AllocError, Global};

/// The walk that judges the lines by the structure tables, beside the reader that lists the records.
#[derive(Drop)]
pub(crate) struct Readers {
    pub(crate) walk: LineWalk,
    pub(crate) records: RecordReader,
}

impl Readers {
    /// Of no lines. Grows.
    pub(crate) fn new(alloc: Global) -> Result<Readers, AllocError>
        ensures { IfOk result (λ readers. ⟦<Readers as LineReader>⟧.has_read readers []) }
    {
        let records = RecordReader::new(alloc)?;
        Ok(Readers {
            walk: LineWalk::new(),
            records,
        })
    }
}

impl LineReader for Readers {
    ghost has_read = { λ readers lines. ⟦<LineWalk as LineReader>⟧.has_read readers.walk lines × ⟦<RecordReader as LineReader>⟧.has_read readers.records lines };

    #[inline(always)]
    fn line(&mut self, line: &LineView<'_>) -> Result<(), AllocError> {
        self.walk.line(line)?;
        self.records.line(line)
    }

    #[inline(always)]
    fn substructure(&mut self, line: &LineView<'_>) -> Result<(), AllocError> {
        self.walk.substructure(line)?;
        self.records.substructure(line)
    }

    #[inline(always)]
    fn record(&mut self, line: &LineView<'_>) -> Result<(), AllocError> {
        self.walk.record(line)?;
        self.records.record(line)
    }

    #[inline(always)]
    fn continuation(&mut self, line: &LineView<'_>) -> Result<(), AllocError> {
        self.walk.continuation(line)?;
        self.records.continuation(line)
    }
}
