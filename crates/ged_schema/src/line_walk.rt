// Whether the structures of a document are as the tables ask, told from its lines while they are read.
ghost use Rattle.std.specs.Prelude.{◌≡◌, ◌<◌, ◌≤◌, ◌++◌, ◌∷◌, [], List, ℕ, IfSome, IsTrue, true, false};
ghost use Rattle.std.specs.Bool.{OnTrue};
ghost use Rattle.std.specs.Int.{bit_at};
ghost use Rattle.ged_line.specs.Lines.{LineParts, Value};
ghost use Rattle.ged_line.specs.Names.{is_tag};
ghost use Rattle.ged_line.specs.Views.{viewed_value};
ghost use Rattle.ged_tree.specs.TreeFaults.{is_cont, is_trailer};
ghost use Rattle.ged_tree.specs.Trees.{Trees};
ghost use Rattle.ged_tree.specs.Documents.{is_document};
ghost use Rattle.ged_tree.specs.DocumentLines.{document_lines};
ghost use Rattle.ged_link.specs.Indexes.{IsIndexOf};
ghost use Rattle.ged_schema.specs.Rows.{as_row};
ghost use Rattle.ged_schema.specs.Checked.{Checked};
ghost use Rattle.ged_schema.specs.Unlisted.{IsCoverage};
ghost use Rattle.ged_schema.specs.inner.LineWalks.{FitsValue, HasWalked, IsClosed, Opens, OpensListed, OpensUnlisted, Takes, open_at, value_class};

use crate::context::Context;
use crate::notices::{Coverage, gives_notice};
use crate::payloads::takes_any_text;
use crate::quick_check::{are_needed_marked, fits_line, mark};
use crate::rule::Rule;
use crate::slots::row_number;
use crate::tables::rows;
use ged_line::{LineView, ValueView, is_same_tag};
use ged_link::Index;
use ged_tree::LineReader;
use ged_value::Kind;
use std::alloc::AllocError;

/// The number of the levels of lines, 0 to 99, and one for what stands below the deepest.
const LEVELS: usize = 101;

/// What stands open at a level while lines are read.
#[derive(Clone, Copy)]
pub(crate) struct Open {
    /// The context of the structures at the level.
    pub(crate) context: Context,
    /// The bit of each row of the context whose structure has come.
    pub(crate) marks: u64,
}

/// Reads the lines of a document, and tells whether each structure is as the tables ask, but for the records that pointers
/// name.
#[derive(Drop)]
pub struct LineWalk {
    /// What stands open at each level, and below the deepest.
    pub(crate) open: [Open; LEVELS],
    /// The kind of the last structure's payload: it tells whether a CONT may go on with it, which few lines ask.
    pub(crate) last: Kind,
    /// Whether a structure gave a notice.
    pub(crate) noted: bool,
    /// Whether each line so far was as the tables ask.
    pub(crate) holds: bool,
}

/// The number of a value's class: the empty value, the void pointer, pointers, and texts. They are numbered as the compiler numbers the
/// values, so that this takes no time.
#[inline(always)]
fn class_of(value: &ValueView<'_>) -> u32
    ensures { result ≡ value_class (viewed_value value.now) }
{
    match value {
        ValueView::Empty => 0,
        ValueView::Void => 1,
        ValueView::Pointer(_) => 2,
        ValueView::Text(_) => 3,
    }
}

/// The classes whose values are all of a kind: bit k is set where those of the class with number k are.
#[tactic(auto, unfolding(ged_value::specs::Kinds::target))]
#[inline(always)]
fn right_classes(kind: Kind) -> u8
    ensures { (value : Value) → bit_at result (value_class value) ≡ 1 → FitsValue kind value }
{
    match kind {
        Kind::Text => 0b1001,
        Kind::Free => 0b1111,
        Kind::Nothing | Kind::EventFlag => 0b0001,
        Kind::ToFam | Kind::ToIndi | Kind::ToSubm | Kind::ToSnote | Kind::ToSour | Kind::ToObje =>
            0b0110,
        _ => 0,
    }
}

/// Whether the value of the line on which a payload begins is of a kind, where the payload has no further lines. For most values
/// their class tells it, by one branch for all classes.
#[inline(always)]
fn is_value_right(kind: Kind, value: ValueView<'_>) -> bool
    ensures { OnTrue result (FitsValue kind (viewed_value value.entry)) }
{
    if (right_classes(kind) >> class_of(&value)) & 1 == 1 {
        return true;
    }
    match value {
        ValueView::Text(text) => fits_line(kind, text),
        ValueView::Empty => fits_line(kind, ""),
        _ => false,
    }
}

impl LineWalk {
    /// A walk over no lines. Takes no memory.
    pub fn new() -> LineWalk
        ensures { ⟦<LineWalk as LineReader>⟧.has_read result [] }
    {
        let unchecked = Open {
            context: Context::Unchecked,
            marks: 0,
        };
        let mut open = [unchecked; LEVELS];
        open[0].context = Context::File;
        LineWalk {
            open,
            last: Kind::Nothing,
            noted: false,
            holds: true,
        }
    }

    /// The context of the structures at a level.
    #[inline(always)]
    fn context_at(&self, level: usize) -> Context
        requires { level ≤ 100 }
        ensures { result ≡ (open_at self.now level).context }
    {
        self.open[level].context
    }

    /// Whether each row of what stands open at a level that asks for a structure has one.
    #[inline(always)]
    fn is_closed(&self, level: usize) -> bool
        requires { level ≤ 100 }
        ensures { OnTrue result (IsClosed self.now level) }
    {
        let open = self.open[level];
        are_needed_marked(open.context, open.marks)
    }

    /// Takes the line of a structure that has a row among those of its context.
    #[inline(always)]
    fn open_listed(
        &mut self,
        rule: &Rule,
        number: usize,
        level: usize,
        value: ValueView<'_>,
    ) -> bool
        requires level { level ≤ 99 }
        requires number { number < 64 }
        ensures { OnTrue result (OpensListed (as_row rule.now) number level (viewed_value value.entry) self.old self.new) }
    {
        let mut marks = self.open[level].marks;
        if !mark(&mut marks, number, rule.most) {
            return false;
        }
        if !is_value_right(rule.kind, value) {
            return false;
        }
        self.open[level].marks = marks;
        self.open[level + 1] = Open {
            context: rule.below,
            marks: 0,
        };
        self.last = rule.kind;
        true
    }

    /// Takes the line of a structure that has none.
    #[inline(always)]
    fn open_unlisted(&mut self, context: Context, level: usize, tag: &str)
        requires level { level ≤ 99 }
        requires tag { is_tag tag.now ≡ true }
        ensures { OpensUnlisted context level tag.now self.old self.new }
    {
        if gives_notice(context, tag) {
            self.noted = true;
        }
        self.open[level + 1] = Open {
            context: Context::Unchecked,
            marks: 0,
        };
        self.last = Kind::Free;
    }

    /// Takes the line of a structure, by what stands on it.
    #[inline(always)]
    fn open_by_parts(&mut self, level: u8, tag: &str, value: ValueView<'_>) -> bool
        requires level { level ≤ 99 }
        requires tag { is_tag tag.now ≡ true }
        ensures { (line : LineParts) → line.level ≡ level → line.tag ≡ tag.now → line.value ≡ viewed_value value.entry
            → OnTrue result (Opens (open_at self.old line.level).context line.level line self.old self.new) }
    {
        let level = usize::from(level);
        if !self.is_closed(level + 1) {
            return false;
        }
        let context = self.context_at(level);
        match row_number(context, tag) {
            Some(number) => self.open_listed(&rows(context)[number], number, level, value),
            None => {
                self.open_unlisted(context, level, tag);
                true
            }
        }
    }

    /// The same of HEAD or a record, which are not like most structures. A function of its own, so that the path of the others
    /// stays short.
    #[inline(never)]
    fn open_other(&mut self, level: u8, tag: &str, value: ValueView<'_>) -> bool
        requires level { level ≤ 99 }
        requires tag { is_tag tag.now ≡ true }
        ensures { (line : LineParts) → line.level ≡ level → line.tag ≡ tag.now → line.value ≡ viewed_value value.entry
            → OnTrue result (Opens (open_at self.old line.level).context line.level line self.old self.new) }
    {
        self.open_by_parts(level, tag, value)
    }

    /// Takes one more line, and tells whether it is as the tables ask.
    #[inline(always)]
    fn take(&mut self, line: &LineView<'_>) -> bool
        ensures { OnTrue result (Takes line.now self.old self.new) }
    {
        if is_same_tag(line.tag(), "CONT") {
            return takes_any_text(self.last);
        }
        if line.level() == 0 && line.tag() == "TRLR" {
            return true;
        }
        self.open_other(line.level(), line.tag(), line.value())
    }

    /// Takes one more line, and keeps whether all lines so far are as the tables ask.
    #[inline(always)]
    fn keep(&mut self, line: &LineView<'_>)
        ensures { (lines : List LineParts) → HasWalked self.old lines → HasWalked self.new (lines ++ line.now ∷ []) }
    {
        if self.holds && !self.take(line) {
            self.holds = false;
        }
    }

    /// The same for a line that is known to begin a substructure: whether it is CONT or TRLR is not asked.
    #[inline(always)]
    fn keep_substructure(&mut self, line: &LineView<'_>)
        requires below { 0 < line.now.level }
        requires no_cont { is_cont line.now ≡ false }
        ensures { (lines : List LineParts) → HasWalked self.old lines → HasWalked self.new (lines ++ line.now ∷ []) }
    {
        if self.holds && !self.open_by_parts(line.level(), line.tag(), line.value()) {
            self.holds = false;
        }
    }

    /// The same for a line that is known to begin a record.
    #[inline(always)]
    fn keep_record(&mut self, line: &LineView<'_>)
        requires no_cont { is_cont line.now ≡ false }
        requires no_trailer { is_trailer line.now ≡ false }
        ensures { (lines : List LineParts) → HasWalked self.old lines → HasWalked self.new (lines ++ line.now ∷ []) }
    {
        if self.holds && !self.open_other(line.level(), line.tag(), line.value()) {
            self.holds = false;
        }
    }

    /// The same for a line that is known to be a CONT: all that is asked is whether a payload may go on.
    #[inline(always)]
    fn keep_continuation(&mut self)
        ensures { (lines : List LineParts) (line : LineParts) → is_cont line ≡ true → HasWalked self.old lines → HasWalked self.new (lines ++ line ∷ []) }
    {
        if self.holds {
            self.holds = takes_any_text(self.last);
        }
    }

    /// Whether each line was as the tables ask, and nothing is missing where the last line stands.
    fn is_complete(&self) -> bool
        ensures holds { OnTrue result (IsTrue self.now.holds) }
        ensures closed { OnTrue result ((level : ℕ) → IsClosed self.now level) }
    {
        if !self.holds {
            return false;
        }
        for level in 0..LEVELS {
            if !self.is_closed(level) {
                return false;
            }
        }
        true
    }

    /// Whether the tables list the tags of the document whose lines were read, where it is as they ask; or `None` where these
    /// lines and the index do not tell that it is. Takes no memory.
    pub(crate) fn coverage(&self, index: &Index) -> Option<Coverage>
        ensures { (document : Trees) → IsIndexOf document index.now → is_document document ≡ true
            → HasWalked self.now (document_lines document) → IfSome result (λ coverage. Checked document × IsCoverage document coverage) }
    {
        if !self.is_complete() || !index.are_led_by_tags() {
            return None;
        }
        Some(if self.noted {
            Coverage::Partial
        } else {
            Coverage::Whole
        })
    }
}

impl LineReader for LineWalk {
    ghost use Rattle.ged_schema.specs.inner.LineWalks.{HasWalked};

    ghost has_read = { HasWalked };

    /// Takes one more line, and keeps whether all lines so far are as the tables ask. Takes no memory.
    #[inline(always)]
    fn line(&mut self, line: &LineView<'_>) -> Result<(), AllocError> {
        self.keep(line);
        Ok(())
    }

    /// The same for a line that begins a substructure.
    #[inline(always)]
    fn substructure(&mut self, line: &LineView<'_>) -> Result<(), AllocError> {
        self.keep_substructure(line);
        Ok(())
    }

    /// The same for a line that begins a record.
    #[inline(always)]
    fn record(&mut self, line: &LineView<'_>) -> Result<(), AllocError> {
        self.keep_record(line);
        Ok(())
    }

    /// The same for a CONT.
    #[inline(always)]
    fn continuation(&mut self, _line: &LineView<'_>) -> Result<(), AllocError> {
        self.keep_continuation();
        Ok(())
    }
}
