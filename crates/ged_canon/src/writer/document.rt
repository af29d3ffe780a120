// The canonical spelling of a document, written from the document itself.
ghost use Rattle.std.specs.Prelude.{◌≡◌, ◌≤◌, ◌<◌, ◌∷◌, [], List, Some, IfOk, Bool, true, length};
ghost use Rattle.std.specs.List.{AllByRecursion};
ghost use Rattle.ged_line.specs.Bytes.{Bytes};
ghost use Rattle.ged_tree.specs.Trees.{Trees, trees_count, records_of};
ghost use Rattle.ged_tree.specs.Documents.{is_document};
ghost use Rattle.ged_tree.specs.Places.{structure_at};
ghost use Rattle.ged_tree.specs.BareLines.{AreBareLines};
ghost use Rattle.ged_link.specs.Links.{identifiers};
ghost use Rattle.ged_link.specs.Indexes.{IsIndexOf};
ghost use Rattle.ged_schema.specs.Checked.{Checked};
ghost use Rattle.ged_schema.specs.declared.context.Context.TheVariants.{File};
ghost use Rattle.ged_canon.specs.declared.edition.Edition.{Edition as AnyEdition};
ghost use Rattle.ged_canon.specs.declared.edition.Edition.TheVariants.{First};
ghost use Rattle.ged_canon.specs.Normal.{IsNormalForm, numbered as spells_number};
ghost use Rattle.ged_canon.specs.CanonText.{CanonText};
ghost use Rattle.ged_canon.specs.inner.Working.{is_named, used_trees, sorted_document, IsNumberingOf};
ghost use Rattle.ged_canon.specs.inner.Siblings.{StandsRanked, sibling_trees};
ghost use Rattle.ged_canon.specs.inner.CanonBytes.{number_at, CanWriteRecords, WritesRecords};
ghost use Rattle.ged_canon.specs.inner.Writing.{row_of, sibling_lines, CanWriteTree, Writes};

use crate::edition::Edition;
use crate::spelled::SpelledForm;
use crate::writer::answer::Answer;
use crate::writer::lines::put_identifier;
use crate::writer::numbers::new_number_of;
use crate::writer::plan::{Plan, Work, Writer};
use crate::writer::rank::RankedSibling;
use crate::writer::siblings::{Sibling, numbers_in_order, push_sorted, ranked_sibling};
use ged_line::ValueView;
use ged_link::{Index, RecordCursor};
use ged_schema::{Context, ContextRows, Rule, context_below};
use ged_tree::{BareLines, Forest, end_of_all, next_in_run};
use std::alloc::{AllocError, Global};

/// How many structures a record has, at least, in an ordinary document of more than a few records. The vector of records grows where
/// they have fewer.
const STRUCTURES_PER_RECORD: usize = 16;

/// Room for the records of a document that is too small for the other to count.
const FEW_RECORDS: usize = 4;

/// HEAD, and behind it the records in the order of their tags.
pub(crate) fn document_siblings<F: Forest>(
    alloc: Global,
    forest: &F,
) -> Result<Vec<RankedSibling>, AllocError>
    ensures within { IfOk result (λ made. AllByRecursion (StandsRanked (F.trees forest.now)) made.items) }
    ensures count { IfOk result (λ made. length (identifiers (records_of (F.trees forest.now))) ≤ length made.items) }
    ensures trees { (used : Bytes → Bool) (edition : AnyEdition) → IfOk result (λ made. sibling_trees used edition File (F.trees forest.now) made.items
        ≡ sorted_document edition (used_trees used (F.trees forest.now))) }
    ensures document { is_document (F.trees forest.now) ≡ true }
{
    let end = end_of_all(forest);
    let Some(records) = next_in_run(forest, 0, end) else {
        unreachable!()
    };
    let room = forest.size() / STRUCTURES_PER_RECORD + FEW_RECORDS;
    let mut made = Vec::with_capacity(alloc, room)?;
    made.push(ranked_sibling(forest, 0))?;
    push_sorted(alloc, forest, records, end, &mut made)?;
    Ok(made)
}

impl<F: Forest> Writer<'_, '_, F> {
    /// The new number of the record at a place, or 0 where it gets none. The record's line is not read.
    pub(crate) fn own_number(&self, place: usize, records: &mut RecordCursor) -> usize
        requires { place < trees_count (F.trees self.now.forest.now) }
        ensures { (names : List Bytes) → IsNumberingOf (F.trees self.now.forest.now) names self.now.plan.index.now self.now.plan.numbers.now → result ≡ number_at names (structure_at (F.trees self.now.forest.now) place).xref }
    {
        match self.plan.index.record_standing_at(place, records) {
            Some(number) => self.plan.numbers.get(number).copied().unwrap_or(0),
            None => self.number_by_name(place),
        }
    }

    /// The same for a place that the index does not keep, or at which no record stands. The identifier is read.
    #[cold]
    #[inline(never)]
    fn number_by_name(&self, place: usize) -> usize
        requires { place < trees_count (F.trees self.now.forest.now) }
        ensures { (names : List Bytes) → IsNumberingOf (F.trees self.now.forest.now) names self.now.plan.index.now self.now.plan.numbers.now → result ≡ number_at names (structure_at (F.trees self.now.forest.now) place).xref }
    {
        match self.forest.xref(place) {
            Some(name) => new_number_of(self.plan.index, self.plan.numbers, name),
            None => 0,
        }
    }

    /// Appends the lines of a record with this rule and a new number, and of what stands below it, up to the place `end`. The text takes the
    /// record's new identifier, where its line isn't written at once.
    fn write_named(
        &self,
        rule: Option<&Rule>,
        number: usize,
        own: Sibling<'_>,
        end: usize,
        name: &mut String,
        work: &mut Work,
    ) -> Result<(), AllocError>
        requires number { 0 < number }
        requires stands { CanWriteTree self.now.plan.edition (row_of rule) 0 (Some (spells_number number)) (F.trees self.now.forest.now) own end }
        ensures { Writes (F.trees self.now.forest.now) self.now.plan result work.old.answer work.new.answer
            (λ new. sibling_lines new self.now.plan.edition (row_of rule.entry) 0 (Some (spells_number number)) (F.trees self.now.forest.now) own.entry) }
    {
        if self.write_numbered(rule, number, own, &mut work.answer)? {
            let start = own.place + 1;
            if start >= end {
                return Ok(());
            }
            return self.write_run(context_below(rule), 1, start, end, work);
        }
        put_identifier(number, name)?;
        let xref = Some(name.as_str());
        self.write_tree(rule, 0, xref, own, end, work)
    }

    /// Appends the lines of HEAD or of a record, and of what stands below it. The text takes the record's new identifier.
    pub(crate) fn write_record(
        &self,
        sibling: RankedSibling,
        name: &mut String,
        work: &mut Work,
    ) -> Result<(), AllocError>
        requires { CanWriteRecords (is_named (F.trees self.now.forest.now)) self.now.plan.edition (F.trees self.now.forest.now) (sibling ∷ []) }
        ensures { WritesRecords (F.trees self.now.forest.now) self.now.plan result work.old.answer work.new.answer (sibling ∷ []) }
    {
        let place = sibling.place;
        let end = self.forest.after(place);
        let number = self.own_number(place, &mut work.records);
        if number == 0 {
            return self.write_sibling(Context::File, 0, place, end, work);
        }
        let tag = self.forest.tag(place);
        let rule = ContextRows::of(Context::File).row(tag);
        let own = Sibling { tag, place };
        self.write_named(rule, number, own, end, name, work)
    }

    /// Appends the lines of HEAD and the records, and of what stands below them.
    fn write_records(&self, siblings: &[RankedSibling], work: &mut Work) -> Result<(), AllocError>
        requires { CanWriteRecords (is_named (F.trees self.now.forest.now)) self.now.plan.edition (F.trees self.now.forest.now) siblings.now }
        ensures { WritesRecords (F.trees self.now.forest.now) self.now.plan result work.old.answer work.new.answer siblings.now }
    {
        let mut name = String::new(self.plan.alloc);
        for each in siblings {
            self.write_record(*each, &mut name, work)?;
        }
        Ok(())
    }
}

/// The canonical form of a document that is as the structure tables ask, where the index is the document's: the one spelling of its
/// normal form. No tree is made. A payload that is respelt is made in a text of its own first; any other is copied only into what is
/// answered.
///
/// The lines are those of the document that stand in a text as they are written: of a table, what [`ged_tree::Flat::bare_lines`] answers.
/// Lines that stand in that text as the form has them are slices of it: [`BareLines::none`] gives the same form without slices. Grows
/// (FamilySearch GEDCOM 7.0, "Lines", "Structures", "Date" and "Integer").
pub fn spell_canonical_in<'f, F: Forest>(
    alloc: Global,
    edition: Edition,
    forest: &F,
    index: &Index,
    lines: BareLines<'f, '_>,
) -> Result<SpelledForm<'f>, AllocError>
    requires lines { AreBareLines (F.trees forest.now) lines }
    requires index { IsIndexOf (F.trees forest.now) index.now }
    requires checked { Checked (F.trees forest.now) }
    ensures normal_form { IfOk result (λ text. (e : Trees) × IsNormalForm edition (F.trees forest.now) e × CanonText e text) }
    ensures only { (e : Trees) → IsNormalForm edition (F.trees forest.now) e → IfOk result (λ text. CanonText e text) }
{
    let siblings = document_siblings(alloc, forest)?;
    let records = siblings.as_slice();
    let counted = numbers_in_order(alloc, forest, index, records)?;
    let numbers = counted.as_slice();
    let file = lines.text();
    let plan = Plan {
        alloc,
        edition,
        index,
        numbers,
        file,
    };
    let writer = Writer {
        forest,
        plan,
        lines,
    };
    let answer = Answer::start(alloc, forest.size(), file.len())?;
    let mut work = Work::new(alloc, answer);
    writer.write_records(records, &mut work)?;
    work.answer
        .push_parts(file, 0, None, "TRLR", ValueView::Empty)?;
    let form = work.into_form(file)?;
    Ok(form)
}

/// The bytes of the form that [`spell_canonical_in`] answers. Grows.
pub fn canonical_bytes_in<F: Forest>(
    alloc: Global,
    edition: Edition,
    forest: &F,
    index: &Index,
) -> Result<Vec<u8>, AllocError>
    requires index { IsIndexOf (F.trees forest.now) index.now }
    requires checked { Checked (F.trees forest.now) }
    ensures normal_form { IfOk result (λ text. (e : Trees) × IsNormalForm edition (F.trees forest.now) e × CanonText e text.items) }
    ensures only { (e : Trees) → IsNormalForm edition (F.trees forest.now) e → IfOk result (λ text. CanonText e text.items) }
{
    spell_canonical_in(alloc, edition, forest, index, BareLines::none())?.into_bytes(alloc)
}

/// The bytes of the canonical form of the first edition, as [`canonical_bytes_in`] gives them. Grows.
pub fn canonical_bytes<F: Forest>(
    alloc: Global,
    forest: &F,
    index: &Index,
) -> Result<Vec<u8>, AllocError>
    requires index { IsIndexOf (F.trees forest.now) index.now }
    requires checked { Checked (F.trees forest.now) }
    ensures normal_form { IfOk result (λ text. (e : Trees) × IsNormalForm First (F.trees forest.now) e × CanonText e text.items) }
    ensures only { (e : Trees) → IsNormalForm First (F.trees forest.now) e → IfOk result (λ text. CanonText e text.items) }
{
    canonical_bytes_in(alloc, Edition::First, forest, index)
}
