// A structure's own line in its canonical spelling.
ghost use Rattle.std.specs.Prelude.{◌≡◌, ◌<◌, ◌≤◌, ◌==◌, ◌++◌, ◌∷◌, ◌⊎◌, [], decimal, List, IfOk, OnOk, IsTrue, true, false, string_bytes, ◌↔◌, None, Some};
ghost use Rattle.std.specs.List.{list_any};
ghost use Rattle.std.specs.Option.{option_copied};
ghost use Rattle.ged_line.specs.Bytes.{Bytes, line_feed, space};
ghost use Rattle.ged_line.specs.Lines.{Pointer, is_line, line_parts, xref_part};
ghost use Rattle.ged_line.specs.Spelling.{spelling, spelled_lines, value_part};
ghost use Rattle.ged_tree.specs.Trees.{trees_count};
ghost use Rattle.ged_tree.specs.declared.payload.Payload.TheVariants.{Pointer as PointerPayload};
ghost use Rattle.ged_tree.specs.DocumentLines.{line_value, first_value, structure_lines};
ghost use Rattle.ged_tree.specs.Laws.{own_line};
ghost use Rattle.ged_tree.specs.Places.{structure_at};
ghost use Rattle.ged_tree.specs.Views.{is_pointer, IsOwnLine};
ghost use Rattle.ged_tree.specs.inner.Walks.{HasLinesAt};
ghost use Rattle.ged_schema.specs.Rows.{as_row};
ghost use Rattle.ged_schema.specs.Tables.{row};
ghost use Rattle.ged_canon.specs.declared.edition.Edition.TheVariants.{First};
ghost use Rattle.ged_canon.specs.Steps.{renamed_payload};
ghost use Rattle.ged_canon.specs.Normal.{IsBriefPayload, numbered as spells_number};
ghost use Rattle.ged_canon.specs.inner.Siblings.{StandsIn};
ghost use Rattle.ged_canon.specs.inner.Working.{brief, brief_line as spells_brief, number_of, IsNumberingOf};
ghost use Rattle.ged_canon.specs.inner.Written.{Appends};
ghost use Rattle.ged_canon.specs.inner.Writing.{may_be_dated as tests_dated, row_of, brief_sibling, renamed_sibling, sibling_at, Writes};

use crate::edition::Edition;
use crate::writer::answer::{Answer, text_value};
use crate::writer::brief::{brief_line, is_brief_at, may_be_shortened};
use crate::writer::letters::has_g;
use crate::writer::numbers::{is_kept_name, is_numbered, new_number_at};
use crate::writer::plan::{Plan, Work, Writer};
use crate::writer::siblings::Sibling;
use ged_line::ValueView;
use ged_schema::{Context, Rule};
use ged_tree::{Forest, OwnLine, PayloadView};
use itoa::Buffer;
use std::alloc::AllocError;

/// How many bytes stand before the name of a record's identifier, in a line of the canonical form.
const BEFORE_IDENTIFIER: usize = "0 @".len();

/// Makes a text the identifier that is X and the number.
pub(crate) fn put_identifier(number: usize, text: &mut String) -> Result<(), AllocError>
    requires { 0 < number }
    ensures { OnOk result (string_bytes text.new ≡ spells_number number) }
{
    let mut buffer = Buffer::new();
    text.clear();
    text.push_str("X")?;
    text.push_str(buffer.format(number))?;
    Ok(())
}

/// What [`is_brief_at`] answers, where the kind doesn't tell it. A function of its own, so that the common path need not clear the
/// stack's room for a payload.
#[inline(never)]
fn is_found_brief<F: Forest>(forest: &F, edition: Edition, rule: &Rule, place: usize) -> bool
    requires { place < trees_count (F.trees forest.now) }
    ensures { IsTrue result ↔ IsBriefPayload edition (Some (as_row rule.now)) (structure_at (F.trees forest.now) place).payload }
{
    is_brief_at(forest, edition, rule, place)
}

/// Whether a tag is one of the two at which a payload may begin with the name of a calendar.
#[inline(always)]
fn may_be_dated(tag: &str) -> bool
    ensures { result ≡ tests_dated tag.now }
{
    tag == "DATE" || tag == "SDATE"
}

/// Whether the edition leaves out nothing in a line with this tag, whatever the context: in the first one only the name of a calendar is left
/// out, and that has a G.
#[inline(always)]
fn is_plain_line(edition: Edition, tag: &str, line: &str) -> bool
    ensures first { IsTrue result → edition ≡ First }
    ensures plain { IsTrue result → (tests_dated tag.now ≡ false) ⊎ (list_any (λ b. b == 71) line.now ≡ false) }
{
    match edition {
        Edition::Second => false,
        Edition::First => !may_be_dated(tag) || !has_g(line.as_bytes()),
    }
}

/// Whether nothing can be left out in the payload of the structure at a place with this rule. Most kinds tell it, and the
/// payload is not looked at.
#[inline(always)]
fn is_kept<F: Forest>(forest: &F, edition: Edition, rule: Option<&Rule>, place: usize) -> bool
    requires { place < trees_count (F.trees forest.now) }
    ensures { IsTrue result → brief edition (row_of rule.entry) (structure_at (F.trees forest.now) place).payload ≡ (structure_at (F.trees forest.now) place).payload }
{
    let Some(rule) = rule else {
        return true;
    };
    if !may_be_shortened(edition, rule) {
        return true;
    }
    is_found_brief(forest, edition, rule, place)
}

/// The name in the pointer that stands behind a tag, as the canonical spelling has both.
#[inline(always)]
pub(crate) fn name_behind<'a>(rest: &'a str, tag: &str) -> &'a str
    requires { (name : Bytes) × (rest.now ≡ tag.now ++ value_part (Pointer name)) }
    ensures { (name : Bytes) → rest.now ≡ tag.now ++ value_part (Pointer name) → result.now ≡ name }
{
    &rest[tag.len() + 2..rest.len() - 1]
}

impl Plan<'_> {
    /// Appends the own line of a structure at a place with this rule, whose payload is a text of this line alone. What can be
    /// left out is left out.
    fn write_text(
        &self,
        rule: Option<&Rule>,
        level: u8,
        xref: Option<&str>,
        tag: &str,
        line: &str,
        answer: &mut Answer,
    ) -> Result<(), AllocError>
        requires { is_line (line_parts level (option_copied xref) tag.now (line_value (spells_brief self.now.edition (row_of rule) line.now))) ≡ true }
        ensures { OnOk result (Appends self.now.file.now answer.old answer.new (spelling (line_parts level (option_copied xref.entry) tag.now (line_value (spells_brief self.now.edition (row_of rule.entry) line.now))) ++ line_feed ∷ [])) }
    {
        let Some(rule) = rule else {
            return answer.push_parts(self.file, level, xref, tag, text_value(line));
        };
        if !may_be_shortened(self.edition, rule) {
            return answer.push_parts(self.file, level, xref, tag, text_value(line));
        }
        let brief = brief_line(self.alloc, self.edition, rule, line)?;
        answer.push_parts(self.file, level, xref, tag, text_value(brief.as_str()))
    }
}

impl<F: Forest> Writer<'_, '_, F> {
    /// Appends the own line of the structure at a place with this level and identifier, and with its tag and payload as the forest has them.
    /// Where the line stands in the file as it is written, it is kept; most that do have no identifier, and are not compared one by one.
    #[inline(always)]
    fn push_own_line(
        &self,
        level: u8,
        xref: Option<&str>,
        place: usize,
        line: OwnLine<'_>,
        answer: &mut Answer,
    ) -> Result<(), AllocError>
        requires level { level ≤ 99 }
        requires own { IsOwnLine (structure_at (F.trees self.now.forest.now) place) line }
        ensures { OnOk result (Appends self.now.plan.file.now answer.old answer.new ((decimal level ++ space ∷ (xref_part (option_copied xref.entry) ++ line.entry.rest.now)) ++ line_feed ∷ [])) }
    {
        if xref.is_none() {
            if let Some((start, end)) = self.kept_run(level, place) {
                return answer.push_run(self.plan.file, start, end);
            }
        }
        answer.push_rest(self.plan.file, level, xref, line.rest, Some(line.start))
    }

    /// Appends the own line of a structure whose pointer keeps this name: as it stands, where the forest has it in one text. Cold, so that
    /// the path of pointers that are renamed stays the short one.
    #[cold]
    #[inline(never)]
    fn write_kept_reference(
        &self,
        level: u8,
        xref: Option<&str>,
        sibling: Sibling<'_>,
        name: &str,
        answer: &mut Answer,
    ) -> Result<(), AllocError>
        requires within { StandsIn (F.trees self.now.forest.now) sibling }
        requires names { (structure_at (F.trees self.now.forest.now) sibling.place).payload ≡ PointerPayload name.now }
        requires stands { is_line (line_parts level (option_copied xref) sibling.tag.now (Pointer name.now)) ≡ true }
        ensures { OnOk result (Appends self.now.plan.file.now answer.old answer.new (spelling (line_parts level (option_copied xref.entry) sibling.entry.tag.now (Pointer name.now)) ++ line_feed ∷ [])) }
    {
        match self.forest.own_line(sibling.place) {
            Some(line) => self.push_own_line(level, xref, sibling.place, line, answer),
            None => answer.push_named(self.plan.file, level, xref, sibling.tag, name),
        }
    }

    /// The name in the pointer at a place. A function of its own, so that the common path need not clear the stack's room for a payload.
    #[inline(never)]
    fn name_at(&self, place: usize) -> &str
        requires within { place < trees_count (F.trees self.now.forest.now) }
        requires points { is_pointer (structure_at (F.trees self.now.forest.now) place).payload ≡ true }
        ensures { (structure_at (F.trees self.now.forest.now) place).payload ≡ PointerPayload result.now }
    {
        match self.forest.payload(place) {
            PayloadView::Pointer(name) => name,
            PayloadView::Void | PayloadView::Text(_) => unreachable!(),
        }
    }

    /// Appends the own line of a structure whose payload is a pointer with this name. The cursor moves on from pointer to pointer.
    #[inline(always)]
    fn write_reference(
        &self,
        level: u8,
        xref: Option<&str>,
        sibling: Sibling<'_>,
        name: &str,
        work: &mut Work,
    ) -> Result<(), AllocError>
        requires within { StandsIn (F.trees self.now.forest.now) sibling }
        requires names { (structure_at (F.trees self.now.forest.now) sibling.place).payload ≡ PointerPayload name.now }
        requires stands { is_line (line_parts level (option_copied xref) sibling.tag.now (first_value (structure_at (F.trees self.now.forest.now) sibling.place).payload)) ≡ true }
        ensures kept { OnOk result (work.new.siblings.items ≡ work.old.siblings.items) }
        ensures lines { Writes (F.trees self.now.forest.now) self.now.plan result work.old.answer work.new.answer
            (λ new. line_parts level (option_copied xref.entry) sibling.entry.tag.now (first_value (renamed_payload new (structure_at (F.trees self.now.forest.now) sibling.entry.place).payload)) ∷ []) }
    {
        let number = new_number_at(
            self.plan.index,
            self.plan.numbers,
            sibling.place,
            name,
            &mut work.pointers,
        );
        if is_kept_name(name, number) {
            return self.write_kept_reference(level, xref, sibling, name, &mut work.answer);
        }
        work.answer
            .push_numbered(self.plan.file, level, xref, sibling.tag, number)
    }

    /// Appends the own line of a structure at a place with this rule, whose payload is no pointer.
    #[cold]
    #[inline(never)]
    fn write_value(
        &self,
        rule: Option<&Rule>,
        level: u8,
        xref: Option<&str>,
        sibling: Sibling<'_>,
        answer: &mut Answer,
    ) -> Result<(), AllocError>
        requires within { sibling.place < trees_count (F.trees self.now.forest.now) }
        requires value { is_pointer (structure_at (F.trees self.now.forest.now) sibling.place).payload ≡ false }
        requires stands { HasLinesAt level (brief_sibling self.now.plan.edition (row_of rule) (option_copied xref) (F.trees self.now.forest.now) sibling) }
        ensures { (new : Bytes → Bytes) →
            OnOk result (Appends self.now.plan.file.now answer.old answer.new (spelled_lines (own_line level (renamed_sibling new self.now.plan.edition (row_of rule.entry) (option_copied xref.entry) (F.trees self.now.forest.now) sibling.entry) ∷ []))) }
    {
        match self.forest.payload(sibling.place) {
            PayloadView::Void => answer.push_parts(
                self.plan.file,
                level,
                xref,
                sibling.tag,
                ValueView::Void,
            ),
            PayloadView::Pointer(_) => unreachable!(),
            PayloadView::Text(line) => {
                if self.forest.further(sibling.place) > 0 {
                    return answer.push_parts(
                        self.plan.file,
                        level,
                        xref,
                        sibling.tag,
                        text_value(line),
                    );
                }
                self.plan
                    .write_text(rule, level, xref, sibling.tag, line, answer)
            }
        }
    }

    /// Appends the own line of the structure at a place, which has no identifier, where it is told without the row of its context: that of a
    /// pointer, and in the first edition the only line of any other payload, if it stays as it is at all places. It answers whether it has;
    /// else nothing is appended.
    #[inline(always)]
    pub(crate) fn write_at_once(
        &self,
        _context: Context,
        level: u8,
        place: usize,
        work: &mut Work,
    ) -> Result<bool, AllocError>
        requires within { place < trees_count (F.trees self.now.forest.now) }
        requires stands { HasLinesAt level (brief_sibling self.now.plan.edition (row _context (structure_at (F.trees self.now.forest.now) place).tag) None (F.trees self.now.forest.now) (sibling_at (F.trees self.now.forest.now) place)) }
        ensures kept { IfOk result (λ _. work.new.siblings.items ≡ work.old.siblings.items) }
        ensures lines { (names : List Bytes) → IsNumberingOf (F.trees self.now.forest.now) names self.now.plan.index.now self.now.plan.numbers.now → IfOk result (λ all. IsTrue all → Appends self.now.plan.file.now work.old.answer work.new.answer
            (spelled_lines (structure_lines level (renamed_sibling (number_of 1 names) self.now.plan.edition (row _context (structure_at (F.trees self.now.forest.now) place).tag) None (F.trees self.now.forest.now) (sibling_at (F.trees self.now.forest.now) place))))) }
        ensures left { IfOk result (λ all. all ≡ false → work.new.answer ≡ work.old.answer) }
    {
        if let Some((start, end)) = self.plain_run(level, place) {
            work.answer.push_run(self.plan.file, start, end)?;
            return Ok(true);
        }
        let Some(line) = self.forest.own_line(place) else {
            return Ok(false);
        };
        if line.points {
            let tag = line.tag;
            let name = name_behind(line.rest, tag);
            self.write_reference(level, None, Sibling { tag, place }, name, work)?;
            return Ok(true);
        }
        let stays = is_plain_line(self.plan.edition, line.tag, line.rest);
        if !stays || self.forest.has_further(place) {
            return Ok(false);
        }
        self.push_own_line(level, None, place, line, &mut work.answer)?;
        Ok(true)
    }

    /// Whether the identifier of the record at a place may begin with X, told by the byte of the file where it mostly begins.
    #[inline(always)]
    fn may_be_numbered(&self, place: usize) -> bool {
        let at = self.lines.start_of(place).saturating_add(BEFORE_IDENTIFIER);
        self.lines.text().get(at) == Some(&b'X')
    }

    /// Whether the record at a place has a number for its identifier already, so that its line may stand in the file as it is written. No
    /// clause rests on it.
    #[inline(always)]
    fn has_number(&self, place: usize, number: usize) -> bool
        requires within { place < trees_count (F.trees self.now.forest.now) }
        requires number { 0 < number }
    {
        if !self.may_be_numbered(place) {
            return false;
        }
        match self.forest.xref(place) {
            Some(name) => is_numbered(name, number),
            None => false,
        }
    }

    /// Appends the only line of a record with this rule and a new number, where nothing in it changes but that. It answers whether it has;
    /// else nothing is appended.
    #[inline(always)]
    pub(crate) fn write_numbered(
        &self,
        rule: Option<&Rule>,
        number: usize,
        sibling: Sibling<'_>,
        answer: &mut Answer,
    ) -> Result<bool, AllocError>
        requires within { StandsIn (F.trees self.now.forest.now) sibling }
        requires number { 0 < number }
        ensures lines { (new : Bytes → Bytes) → IfOk result (λ all. IsTrue all → Appends self.now.plan.file.now answer.old answer.new
            (spelled_lines (structure_lines 0 (renamed_sibling new self.now.plan.edition (row_of rule.entry) (Some (spells_number number)) (F.trees self.now.forest.now) sibling.entry)))) }
        ensures left { IfOk result (λ all. all ≡ false → answer.new ≡ answer.old) }
    {
        let place = sibling.place;
        let Some(line) = self.forest.own_line(place) else {
            return Ok(false);
        };
        if line.points || self.forest.has_further(place) || self.has_number(place, number) {
            return Ok(false);
        }
        if !is_kept(self.forest, self.plan.edition, rule, place) {
            return Ok(false);
        }
        answer.push_record(self.plan.file, number, line.rest)?;
        Ok(true)
    }

    /// Appends the own line of a structure at a place with this rule. Where nothing in it changes it is appended as it stands, if the
    /// forest has it in one text.
    #[inline(always)]
    pub(crate) fn write_own(
        &self,
        rule: Option<&Rule>,
        level: u8,
        xref: Option<&str>,
        sibling: Sibling<'_>,
        work: &mut Work,
    ) -> Result<(), AllocError>
        requires within { StandsIn (F.trees self.now.forest.now) sibling }
        requires stands { HasLinesAt level (brief_sibling self.now.plan.edition (row_of rule) (option_copied xref) (F.trees self.now.forest.now) sibling) }
        ensures kept { OnOk result (work.new.siblings.items ≡ work.old.siblings.items) }
        ensures lines { Writes (F.trees self.now.forest.now) self.now.plan result work.old.answer work.new.answer
            (λ new. own_line level (renamed_sibling new self.now.plan.edition (row_of rule.entry) (option_copied xref.entry) (F.trees self.now.forest.now) sibling.entry) ∷ []) }
    {
        if let Some(line) = self.forest.own_line(sibling.place) {
            if !line.points && is_kept(self.forest, self.plan.edition, rule, sibling.place) {
                return self.push_own_line(level, xref, sibling.place, line, &mut work.answer);
            }
        }
        if self.forest.points(sibling.place) {
            let name = self.name_at(sibling.place);
            return self.write_reference(level, xref, sibling, name, work);
        }
        self.write_value(rule, level, xref, sibling, &mut work.answer)
    }
}
