// The spelling of a document's tidy form, written from the document itself.
ghost use Rattle.std.specs.Prelude.{◌∷◌, [], IfOk};
ghost use Rattle.ged_link.specs.Indexes.{IsIndexOf};
ghost use Rattle.ged_tree.specs.Trees.{Trees};
ghost use Rattle.ged_tree.specs.BareLines.{AreBareLines};
ghost use Rattle.ged_schema.specs.Checked.{Checked};
ghost use Rattle.ged_canon.specs.Tidy.{IsTidyForm};
ghost use Rattle.ged_canon.specs.CanonText.{CanonText};
ghost use Rattle.ged_canon.specs.inner.Working.{each_used};
ghost use Rattle.ged_canon.specs.inner.CanonBytes.{CanWriteRecords, WritesKept};

use crate::edition::Edition;
use crate::spelled::SpelledForm;
use crate::writer::answer::Answer;
use crate::writer::document::document_siblings;
use crate::writer::plan::{Plan, Work, Writer};
use crate::writer::rank::RankedSibling;
use crate::writer::siblings::Sibling;
use ged_line::ValueView;
use ged_link::Index;
use ged_schema::{Context, ContextRows};
use ged_tree::{BareLines, Forest};
use std::alloc::{AllocError, Global};

impl<F: Forest> Writer<'_, '_, F> {
    /// Appends the lines of HEAD or of a record with its own identifier, and of what stands below it.
    fn write_kept_record(&self, sibling: RankedSibling, work: &mut Work) -> Result<(), AllocError>
        requires { CanWriteRecords each_used self.now.plan.edition (F.trees self.now.forest.now) (sibling ∷ []) }
        ensures { WritesKept (F.trees self.now.forest.now) self.now.plan result work.old.answer work.new.answer (sibling ∷ []) }
    {
        let rows = ContextRows::of(Context::File);
        let place = sibling.place;
        let tag = self.forest.tag(place);
        let rule = rows.row(tag);
        let end = self.forest.after(place);
        let xref = self.forest.xref(place);
        let own = Sibling { tag, place };
        self.write_tree(rule, 0, xref, own, end, work)
    }

    /// Appends the lines of HEAD and the records with their own identifiers, and of what stands below them.
    fn write_kept_records(
        &self,
        siblings: &[RankedSibling],
        work: &mut Work,
    ) -> Result<(), AllocError>
        requires { CanWriteRecords each_used self.now.plan.edition (F.trees self.now.forest.now) siblings.now }
        ensures { WritesKept (F.trees self.now.forest.now) self.now.plan result work.old.answer work.new.answer siblings.now }
    {
        for each in siblings {
            self.write_kept_record(*each, work)?;
        }
        Ok(())
    }
}

/// The tidy form of a document that is as the structure tables ask, where the index is the document's: that of
/// [`crate::spell_canonical_in`], but each record has the identifier that it has in the document, or none, and each pointer
/// names the record that it names there. The lines are what they are there. Grows (FamilySearch GEDCOM 7.0, "Lines", "Structures",
/// "Date" and "Integer").
pub fn spell_tidy_in<'f, F: Forest>(
    alloc: Global,
    edition: Edition,
    forest: &F,
    index: &Index,
    lines: BareLines<'f, '_>,
) -> Result<SpelledForm<'f>, AllocError>
    requires lines { AreBareLines (F.trees forest.now) lines }
    requires index { IsIndexOf (F.trees forest.now) index.now }
    requires checked { Checked (F.trees forest.now) }
    ensures tidy_form { IfOk result (λ text. (e : Trees) × IsTidyForm edition (F.trees forest.now) e × CanonText e text) }
    ensures only { (e : Trees) → IsTidyForm edition (F.trees forest.now) e → IfOk result (λ text. CanonText e text) }
{
    let siblings = document_siblings(alloc, forest)?;
    let records = siblings.as_slice();
    let file = lines.text();
    // No record has a new number, so that each pointer keeps its name.
    let plan = Plan {
        alloc,
        edition,
        index,
        numbers: &[],
        file,
    };
    let writer = Writer {
        forest,
        plan,
        lines,
    };
    let answer = Answer::start(alloc, forest.size(), file.len())?;
    let mut work = Work::new(alloc, answer);
    writer.write_kept_records(records, &mut work)?;
    work.answer
        .push_parts(file, 0, None, "TRLR", ValueView::Empty)?;
    let form = work.into_form(file)?;
    Ok(form)
}

/// The bytes of the form that [`spell_tidy_in`] answers. Grows.
pub fn tidy_bytes_in<F: Forest>(
    alloc: Global,
    edition: Edition,
    forest: &F,
    index: &Index,
) -> Result<Vec<u8>, AllocError>
    requires index { IsIndexOf (F.trees forest.now) index.now }
    requires checked { Checked (F.trees forest.now) }
    ensures tidy_form { IfOk result (λ text. (e : Trees) × IsTidyForm edition (F.trees forest.now) e × CanonText e text.items) }
    ensures only { (e : Trees) → IsTidyForm edition (F.trees forest.now) e → IfOk result (λ text. CanonText e text.items) }
{
    spell_tidy_in(alloc, edition, forest, index, BareLines::none())?.into_bytes(alloc)
}
