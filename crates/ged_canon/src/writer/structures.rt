// The canonical spelling of a document's structures, written from the document itself.
ghost use Rattle.std.specs.Prelude.{◌≡◌, ◌++◌, None, OnOk};
ghost use Rattle.std.specs.Option.{option_copied};
ghost use Rattle.ged_line.specs.Spelling.{spelled_lines};
ghost use Rattle.ged_tree.specs.DocumentLines.{structure_lines};
ghost use Rattle.ged_tree.specs.Places.{structure_at};
ghost use Rattle.ged_tree.specs.inner.Walks.{HasLinesAt};
ghost use Rattle.ged_schema.specs.Tables.{row};
ghost use Rattle.ged_canon.specs.inner.Siblings.{StandsIn};
ghost use Rattle.ged_canon.specs.inner.Written.{Appends};
ghost use Rattle.ged_canon.specs.inner.Writing.{row_of, brief_sibling, renamed_sibling, sibling_at, sibling_lines, run_lines, further_at, CanWriteFurther, CanWriteTree, CanWriteRun, Writes};

use crate::writer::answer::{Answer, text_value};
use crate::writer::order::are_told_in_order;
use crate::writer::plan::{Work, Writer};
use crate::writer::siblings::{Sibling, push_sorted};
use ged_schema::{Context, ContextRows, Rule, context_below};
use ged_tree::{Forest, next_in_run};
use std::alloc::AllocError;

impl<F: Forest> Writer<'_, '_, F> {
    /// Appends a CONT line for each further line of the payload of the structure at a place, which stands at this level. The
    /// forest has them only one by one.
    #[inline(never)]
    fn write_each_further(
        &self,
        place: usize,
        level: u8,
        answer: &mut Answer,
    ) -> Result<(), AllocError>
        requires { CanWriteFurther (F.trees self.now.forest.now) place level }
        ensures { OnOk result (Appends self.now.plan.file.now answer.old answer.new (spelled_lines (further_at (F.trees self.now.forest.now) place level))) }
    {
        for number in 0..self.forest.further(place) {
            let value = text_value(self.forest.further_line(place, number));
            answer.push_parts(self.plan.file, level + 1, None, "CONT", value)?;
        }
        Ok(())
    }

    /// The same, where the forest has them all at once or one by one. A function of its own, so that the common path, on which
    /// there are none, need not clear the stack's room for them.
    #[inline(never)]
    fn write_further(&self, place: usize, level: u8, answer: &mut Answer) -> Result<(), AllocError>
        requires { CanWriteFurther (F.trees self.now.forest.now) place level }
        ensures { OnOk result (Appends self.now.plan.file.now answer.old answer.new (spelled_lines (further_at (F.trees self.now.forest.now) place level))) }
    {
        match self.forest.further_lines(place) {
            Some(further) => answer.push_further(self.plan.file, level, &further),
            None => self.write_each_further(place, level, answer),
        }
    }

    /// Appends the lines of a structure at a place with this rule: its own, and a CONT line for each further line of its
    /// payload. It has this identifier, and the new name of the record that it points to.
    #[inline(always)]
    fn write_structure(
        &self,
        rule: Option<&Rule>,
        level: u8,
        xref: Option<&str>,
        sibling: Sibling<'_>,
        work: &mut Work,
    ) -> Result<(), AllocError>
        requires within { StandsIn (F.trees self.now.forest.now) sibling }
        requires stands { HasLinesAt level (brief_sibling self.now.plan.edition (row_of rule) (option_copied xref) (F.trees self.now.forest.now) sibling) }
        ensures kept { OnOk result (work.new.siblings.items ≡ work.old.siblings.items) }
        ensures lines { Writes (F.trees self.now.forest.now) self.now.plan result work.old.answer work.new.answer
            (λ new. structure_lines level (renamed_sibling new self.now.plan.edition (row_of rule.entry) (option_copied xref.entry) (F.trees self.now.forest.now) sibling.entry)) }
    {
        self.write_own(rule, level, xref, sibling, work)?;
        if !self.forest.has_further(sibling.place) {
            return Ok(());
        }
        self.write_further(sibling.place, level, &mut work.answer)
    }

    /// Appends the lines of a structure at a place with this rule, and of what stands below it, up to the place `end`. A function
    /// of its own, so that the usual path of [`Writer::write_sibling`] stays short.
    #[cycle(trees)]
    #[inline(never)]
    pub(crate) fn write_tree(
        &self,
        rule: Option<&Rule>,
        level: u8,
        xref: Option<&str>,
        sibling: Sibling<'_>,
        end: usize,
        work: &mut Work,
    ) -> Result<(), AllocError>
        requires { CanWriteTree self.now.plan.edition (row_of rule) level (option_copied xref) (F.trees self.now.forest.now) sibling end }
        ensures kept { OnOk result (work.new.siblings.items ≡ work.old.siblings.items) }
        ensures lines { Writes (F.trees self.now.forest.now) self.now.plan result work.old.answer work.new.answer
            (λ new. sibling_lines new self.now.plan.edition (row_of rule.entry) level (option_copied xref.entry) (F.trees self.now.forest.now) sibling.entry) }
    {
        self.write_structure(rule, level, xref, sibling, work)?;
        let start = sibling.place + 1;
        if start >= end {
            return Ok(());
        }
        self.write_run(context_below(rule), level + 1, start, end, work)
    }

    /// The same for a structure without an identifier that stands among the rows of its context, whose tag and row are looked up.
    #[cycle(trees)]
    #[inline(never)]
    fn write_by_row(
        &self,
        context: Context,
        level: u8,
        place: usize,
        end: usize,
        work: &mut Work,
    ) -> Result<(), AllocError>
        requires { CanWriteTree self.now.plan.edition (row context (structure_at (F.trees self.now.forest.now) place).tag) level None (F.trees self.now.forest.now) (sibling_at (F.trees self.now.forest.now) place) end }
        ensures kept { OnOk result (work.new.siblings.items ≡ work.old.siblings.items) }
        ensures lines { Writes (F.trees self.now.forest.now) self.now.plan result work.old.answer work.new.answer
            (λ new. sibling_lines new self.now.plan.edition (row context (structure_at (F.trees self.now.forest.now) place).tag) level None (F.trees self.now.forest.now) (sibling_at (F.trees self.now.forest.now) place)) }
    {
        let tag = self.forest.tag(place);
        let rule = ContextRows::of(context).row(tag);
        self.write_tree(rule, level, None, Sibling { tag, place }, end, work)
    }

    /// The same, where the tag and the row are looked up only if they matter.
    #[cycle(trees)]
    #[inline(always)]
    pub(crate) fn write_sibling(
        &self,
        context: Context,
        level: u8,
        place: usize,
        end: usize,
        work: &mut Work,
    ) -> Result<(), AllocError>
        requires { CanWriteTree self.now.plan.edition (row context (structure_at (F.trees self.now.forest.now) place).tag) level None (F.trees self.now.forest.now) (sibling_at (F.trees self.now.forest.now) place) end }
        ensures kept { OnOk result (work.new.siblings.items ≡ work.old.siblings.items) }
        ensures lines { Writes (F.trees self.now.forest.now) self.now.plan result work.old.answer work.new.answer
            (λ new. sibling_lines new self.now.plan.edition (row context (structure_at (F.trees self.now.forest.now) place).tag) level None (F.trees self.now.forest.now) (sibling_at (F.trees self.now.forest.now) place)) }
    {
        if !self.write_at_once(context, level, place, work)? {
            return self.write_by_row(context, level, place, end, work);
        }
        let start = place + 1;
        if start >= end {
            return Ok(());
        }
        if let Some((first, last)) = self.leaves_run(level + 1, start, end) {
            return work.answer.push_run(self.plan.file, first, last);
        }
        let rule = ContextRows::of(context).row(self.forest.tag(place));
        self.write_run(context_below(rule), level + 1, start, end, work)
    }

    /// Appends the lines of the structures of a run that stand in a context, and of what stands below them, in the order of
    /// their tags. They are no records.
    #[cycle(trees)]
    pub(crate) fn write_run(
        &self,
        context: Context,
        level: u8,
        start: usize,
        end: usize,
        work: &mut Work,
    ) -> Result<(), AllocError>
        requires { CanWriteRun self.now.plan.edition context level (F.trees self.now.forest.now) start end }
        ensures kept { OnOk result (work.new.siblings.items ≡ work.old.siblings.items) }
        ensures lines { Writes (F.trees self.now.forest.now) self.now.plan result work.old.answer work.new.answer
            (λ new. run_lines new self.now.plan.edition context level (F.trees self.now.forest.now) start end) }
    {
        if !are_told_in_order(self.forest, level, start, end) {
            return self.write_sorted(context, level, start, end, work);
        }
        let mut place = start;
        while let Some(after) = next_in_run(self.forest, place, end) {
            self.write_sibling(context, level, place, after, work)?;
            place = after;
        }
        Ok(())
    }

    /// The same for a run that is in another order: its siblings are put in order behind those that the work has, and taken
    /// away again. A function of its own, so that the other run's path has the registers to itself.
    #[cycle(trees)]
    #[inline(never)]
    fn write_sorted(
        &self,
        context: Context,
        level: u8,
        start: usize,
        end: usize,
        work: &mut Work,
    ) -> Result<(), AllocError>
        requires { CanWriteRun self.now.plan.edition context level (F.trees self.now.forest.now) start end }
        ensures kept { OnOk result (work.new.siblings.items ≡ work.old.siblings.items) }
        ensures lines { Writes (F.trees self.now.forest.now) self.now.plan result work.old.answer work.new.answer
            (λ new. run_lines new self.now.plan.edition context level (F.trees self.now.forest.now) start end) }
    {
        let base = work.siblings.len();
        push_sorted(self.plan.alloc, self.forest, start, end, &mut work.siblings)?;
        let mut number = base;
        while number < work.siblings.len() {
            let ranked = work.siblings[number];
            let after = self.forest.after(ranked.place);
            self.write_sibling(context, level, ranked.place, after, work)?;
            number += 1;
        }
        work.siblings.truncate(base);
        Ok(())
    }
}
