// What a document is written by, and what changes while it is written.
ghost use Rattle.std.specs.Prelude.{◌≡◌, IfOk};
ghost use Rattle.ged_tree.specs.BareLines.{AreBareLines, lines_text};

use crate::edition::Edition;
use crate::spelled::SpelledForm;
use crate::writer::answer::Answer;
use crate::writer::rank::RankedSibling;
use ged_link::{Index, PointerCursor, RecordCursor};
use ged_tree::{BareLines, Forest};
use std::alloc::{AllocError, Global};

/// By what a document is written: the edition, the new numbers of its records, as the index counts them, and the file of which lines are
/// kept.
#[derive(Clone, Copy)]
pub(crate) struct Plan<'a> {
    pub(crate) alloc: Global,
    pub(crate) edition: Edition,
    pub(crate) index: &'a Index,
    pub(crate) numbers: &'a [usize],
    pub(crate) file: &'a [u8],
}

/// Writes the structures of a record, or of a document record by record, by a plan. It stays the same meanwhile; what changes is its work.
#[derive(Drop)]
pub(crate) struct Writer<'a, 'p, F: Forest> {
    pub(crate) forest: &'a F,
    pub(crate) plan: Plan<'p>,
    /// The lines of the forest that stand in the file as they are written.
    pub(crate) lines: BareLines<'p, 'a>,
    ghost told: { AreBareLines (F.trees forest.now) lines },
    ghost same: { plan.file.now ≡ lines_text lines },
}

/// What a writer has done: its answer; where the index looks for the next pointer and for the next record; and the siblings of
/// each run in another order that is being written, those of a deeper run behind those of the runs above it.
#[derive(Drop)]
pub(crate) struct Work {
    pub(crate) answer: Answer,
    pub(crate) pointers: PointerCursor,
    pub(crate) records: RecordCursor,
    pub(crate) siblings: Vec<RankedSibling>,
}

impl Work {
    ghost use Rattle.ged_canon.specs.inner.Written.{written};

    /// Work of which only the beginning of the answer is done. Takes no memory.
    pub(crate) fn new(alloc: Global, answer: Answer) -> Self
        ensures { result.answer ≡ answer }
    {
        Work {
            answer,
            pointers: PointerCursor::new(),
            records: RecordCursor::new(),
            siblings: Vec::new(alloc),
        }
    }

    /// The answer, when all is written, of which lines stand in this file.
    pub(crate) fn into_form<'f>(self, file: &'f [u8]) -> Result<SpelledForm<'f>, AllocError>
        ensures { IfOk result (λ form. form ≡ written file.now self.answer) }
    {
        let Work {
            answer,
            pointers: _,
            records: _,
            siblings: _,
        } = self;
        answer.into_form(file)
    }
}
