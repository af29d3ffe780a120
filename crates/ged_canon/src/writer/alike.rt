// Whether two documents have the same canonical form, told record by record.
ghost use Rattle.std.specs.Prelude.{◌≡◌, ◌∷◌, ◌↔◌, [], List, IfOk, OnOk, IsTrue, length};
ghost use Rattle.ged_line.specs.Bytes.{Bytes};
ghost use Rattle.ged_tree.specs.Trees.{Trees};
ghost use Rattle.ged_tree.specs.BareLines.{AreBareLines};
ghost use Rattle.ged_link.specs.Indexes.{IsIndexOf};
ghost use Rattle.ged_schema.specs.Checked.{Checked};
ghost use Rattle.ged_canon.specs.Steps.{Equivalent};
ghost use Rattle.ged_canon.specs.inner.Working.{is_named, IsNumberingOf};
ghost use Rattle.ged_canon.specs.inner.Written.{written};
ghost use Rattle.ged_canon.specs.inner.CanonBytes.{AreNamed, CanWriteRecords, TellsSame, spelled_siblings};

use crate::edition::Edition;
use crate::writer::alike_runs::{PairWork, are_records_alike};
use crate::writer::answer::Answer;
use crate::writer::document::document_siblings;
use crate::writer::plan::{Plan, Work, Writer};
use crate::writer::rank::RankedSibling;
use crate::writer::siblings::numbers_in_order;
use ged_link::Index;
use ged_tree::{BareLines, Forest};
use std::alloc::{AllocError, Global};

/// A document with what is known of it.
#[derive(Drop)]
pub struct IndexedDocument<'a, F> {
    /// The document.
    pub forest: &'a F,
    /// Its index.
    pub index: &'a Index,
    /// Its lines that stand in a text as they are written. Those that the form has so are not copied: [`BareLines::none`] serves too, more
    /// slowly.
    pub lines: BareLines<'a, 'a>,
}

impl<'f, F: Forest> Writer<'_, 'f, F> {
    /// Writes the lines of HEAD or of a record, and of what stands below it, where nothing else is written. The text takes the record's new
    /// identifier.
    fn write_alone(
        &self,
        sibling: RankedSibling,
        name: &mut String,
        work: &mut Work,
    ) -> Result<(), AllocError>
        requires stands { CanWriteRecords (is_named (F.trees self.now.forest.now)) self.now.plan.edition (F.trees self.now.forest.now) (sibling ∷ []) }
        requires empty { written self.now.plan.file.now work.old.answer ≡ [] }
        ensures lines { OnOk result ((names : List Bytes) → IsNumberingOf (F.trees self.now.forest.now) names self.now.plan.index.now self.now.plan.numbers.now → AreNamed (F.trees self.now.forest.now) names
            → written self.now.plan.file.now work.new.answer ≡ spelled_siblings (is_named (F.trees self.now.forest.now)) self.now.plan.edition names (F.trees self.now.forest.now) (sibling ∷ [])) }
    {
        self.write_record(sibling, name, work)
    }
}

/// Whether two answers have the same bytes. What is written of both is dropped.
fn drop_same(
    alloc: Global,
    file: &[u8],
    answer: &mut Answer,
    other_file: &[u8],
    other: &mut Answer,
) -> Result<bool, AllocError>
    ensures same { IfOk result (λ same. IsTrue same ↔ (written file.now answer.old ≡ written other_file.now other.old)) }
    ensures empty { OnOk result (written file.now answer.new ≡ []) }
    ensures other_empty { OnOk result (written other_file.now other.new ≡ []) }
{
    let form = answer.take_form(alloc, file)?;
    let other_form = other.take_form(alloc, other_file)?;
    let same = form.has_bytes_of(&other_form);
    answer.reuse(form);
    other.reuse(other_form);
    Ok(same)
}

/// What changes while records of two documents are compared: what is written of one record of each, where they are written, and the text that
/// takes its new identifier.
#[derive(Drop)]
struct RecordWork {
    pairs: PairWork,
    work: Work,
    other_work: Work,
    name: String,
}

impl RecordWork {
    /// Of records of which nothing is compared yet. Takes no memory.
    fn new(alloc: Global) -> Self
        ensures empty { (file : Bytes) → written file result.work.answer ≡ [] }
        ensures other_empty { (file : Bytes) → written file result.other_work.answer ≡ [] }
    {
        RecordWork {
            pairs: PairWork::new(alloc),
            work: Work::new(alloc, Answer::none(alloc)),
            other_work: Work::new(alloc, Answer::none(alloc)),
            name: String::new(alloc),
        }
    }
}

/// Whether two records, or both HEADs, have the same lines, with what stands below them. Each is written alone, in the memory of the one
/// before it.
#[inline(never)]
fn are_written_alike<F: Forest, G: Forest>(
    first: &Writer<'_, '_, F>,
    sibling: RankedSibling,
    second: &Writer<'_, '_, G>,
    other: RankedSibling,
    work: &mut RecordWork,
) -> Result<bool, AllocError>
    requires first { CanWriteRecords (is_named (F.trees first.now.forest.now)) first.now.plan.edition (F.trees first.now.forest.now) (sibling ∷ []) }
    requires second { CanWriteRecords (is_named (G.trees second.now.forest.now)) second.now.plan.edition (G.trees second.now.forest.now) (other ∷ []) }
    requires empty { written first.now.plan.file.now work.old.work.answer ≡ [] }
    requires other_empty { written second.now.plan.file.now work.old.other_work.answer ≡ [] }
    ensures empty { OnOk result (written first.now.plan.file.now work.new.work.answer ≡ []) }
    ensures other_empty { OnOk result (written second.now.plan.file.now work.new.other_work.answer ≡ []) }
    ensures same { IfOk result (TellsSame (F.trees first.now.forest.now) first.now.plan (sibling ∷ []) (G.trees second.now.forest.now) second.now.plan (other ∷ [])) }
{
    first.write_alone(sibling, &mut work.name, &mut work.work)?;
    second.write_alone(other, &mut work.name, &mut work.other_work)?;
    drop_same(
        first.plan.alloc,
        first.plan.file,
        &mut work.work.answer,
        second.plan.file,
        &mut work.other_work.answer,
    )
}

/// The same. Most are told to be the same by their structures, where these stand, and not written.
fn are_same_records<F: Forest, G: Forest>(
    first: &Writer<'_, '_, F>,
    sibling: RankedSibling,
    second: &Writer<'_, '_, G>,
    other: RankedSibling,
    work: &mut RecordWork,
) -> Result<bool, AllocError>
    requires edition { first.now.plan.edition ≡ second.now.plan.edition }
    requires first { CanWriteRecords (is_named (F.trees first.now.forest.now)) first.now.plan.edition (F.trees first.now.forest.now) (sibling ∷ []) }
    requires second { CanWriteRecords (is_named (G.trees second.now.forest.now)) second.now.plan.edition (G.trees second.now.forest.now) (other ∷ []) }
    requires empty { written first.now.plan.file.now work.old.work.answer ≡ [] }
    requires other_empty { written second.now.plan.file.now work.old.other_work.answer ≡ [] }
    ensures empty { OnOk result (written first.now.plan.file.now work.new.work.answer ≡ []) }
    ensures other_empty { OnOk result (written second.now.plan.file.now work.new.other_work.answer ≡ []) }
    ensures same { IfOk result (TellsSame (F.trees first.now.forest.now) first.now.plan (sibling ∷ []) (G.trees second.now.forest.now) second.now.plan (other ∷ [])) }
{
    if are_records_alike(first, second, sibling, other, &mut work.pairs)? {
        return Ok(true);
    }
    are_written_alike(first, sibling, second, other, work)
}

/// Whether HEAD and the records of two documents, of which there are as many, have the same lines. They are compared up to the first that
/// differs.
fn are_alike<F: Forest, G: Forest>(
    first: &Writer<'_, '_, F>,
    siblings: &[RankedSibling],
    second: &Writer<'_, '_, G>,
    others: &[RankedSibling],
) -> Result<bool, AllocError>
    requires edition { first.now.plan.edition ≡ second.now.plan.edition }
    requires first { CanWriteRecords (is_named (F.trees first.now.forest.now)) first.now.plan.edition (F.trees first.now.forest.now) siblings.now }
    requires second { CanWriteRecords (is_named (G.trees second.now.forest.now)) second.now.plan.edition (G.trees second.now.forest.now) others.now }
    requires count { length siblings.now ≡ length others.now }
    ensures { IfOk result (TellsSame (F.trees first.now.forest.now) first.now.plan siblings.now (G.trees second.now.forest.now) second.now.plan others.now) }
{
    let mut work = RecordWork::new(first.plan.alloc);
    let mut number = 0;
    while number < siblings.len() {
        if !are_same_records(first, siblings[number], second, others[number], &mut work)? {
            return Ok(false);
        }
        number += 1;
    }
    Ok(true)
}

/// Whether one of two documents that are as the structure tables ask becomes the other by steps, so whether they have the same canonical
/// form in an edition. The forms are not made: what either has of HEAD and of each record in turn is compared, up to the first that
/// differs. Grows (FamilySearch GEDCOM 7.0, "Lines", "Structures", "Date" and "Integer").
pub fn have_same_form<F: Forest, G: Forest>(
    alloc: Global,
    edition: Edition,
    first: &IndexedDocument<'_, F>,
    second: &IndexedDocument<'_, G>,
) -> Result<bool, AllocError>
    requires first_lines { AreBareLines (F.trees first.now.forest.now) first.now.lines }
    requires first_index { IsIndexOf (F.trees first.now.forest.now) first.now.index.now }
    requires first_checked { Checked (F.trees first.now.forest.now) }
    requires second_lines { AreBareLines (G.trees second.now.forest.now) second.now.lines }
    requires second_index { IsIndexOf (G.trees second.now.forest.now) second.now.index.now }
    requires second_checked { Checked (G.trees second.now.forest.now) }
    ensures { IfOk result (λ same. IsTrue same ↔ Equivalent edition (F.trees first.now.forest.now) (G.trees second.now.forest.now)) }
{
    let siblings = document_siblings(alloc, first.forest)?;
    let others = document_siblings(alloc, second.forest)?;
    let siblings = siblings.as_slice();
    let others = others.as_slice();
    if siblings.len() != others.len() {
        return Ok(false);
    }
    let numbers = numbers_in_order(alloc, first.forest, first.index, siblings)?;
    let other_numbers = numbers_in_order(alloc, second.forest, second.index, others)?;
    let plan = Plan {
        alloc,
        edition,
        index: first.index,
        numbers: numbers.as_slice(),
        file: first.lines.text(),
    };
    let writer = Writer {
        forest: first.forest,
        plan,
        lines: first.lines,
    };
    let other_plan = Plan {
        alloc,
        edition,
        index: second.index,
        numbers: other_numbers.as_slice(),
        file: second.lines.text(),
    };
    let other_writer = Writer {
        forest: second.forest,
        plan: other_plan,
        lines: second.lines,
    };
    are_alike(&writer, siblings, &other_writer, others)
}
