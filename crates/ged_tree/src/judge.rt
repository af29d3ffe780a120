// The faults of a document's lines, found line by line.
ghost use Rattle.std.specs.Prelude.{◌≡◌, ◌<◌, ◌+◌, ◌++◌, ◌∷◌, [], List, ℕ, Some, None, true, false, IfOk, IfErr, option_map, Option};
ghost use Rattle.std.specs.Bool.{OnTrue};
ghost use Rattle.std.specs.List.{find};
ghost use Rattle.ged_line.specs.Lines.{LineParts};
ghost use Rattle.ged_tree.specs.TreeFaults.{has_trailer, fault_after, stands};
ghost use Rattle.ged_tree.specs.TreeFaults.{jumps as tests_jump, continues as tests_continues};
ghost use Rattle.ged_tree.specs.TreeFaults.{is_misplaced_cont as tests_misplaced_cont, is_below_cont as tests_below_cont};
ghost use Rattle.ged_tree.specs.TreeFaults.{is_cont as tests_cont, is_header as tests_header, is_trailer as tests_trailer};
ghost use Rattle.ged_tree.specs.TreeFaults.{is_reference as tests_reference, is_empty as tests_empty, has_forbidden_xref as tests_forbidden_xref};
ghost use Rattle.ged_tree.specs.Judging.{Reaches, StandsFor, seen, seen_before};
ghost use Rattle.ged_tree.specs.inner.Judging.{HasRole, end_faults};
ghost use Rattle.ged_tree.specs.declared.judge.LineRole.TheVariants.{Record};

use crate::fault::TreeFault;
use ged_line::{LineView, ValueView, is_same_tag};
use std::marker::Model;

/// What a line is among the others, where it has no fault.
#[derive(Clone, Copy)]
pub(crate) enum LineRole {
    /// It begins a structure below another one.
    Substructure,
    /// It goes on with a payload: it is a CONT.
    Continuation,
    /// It begins a record.
    Record,
    /// It is no CONT. Some of these lines begin a structure below another one too.
    Other,
}

/// What a line is to the one behind it. Those that are no CONT are told by their values, and numbered as the compiler numbers these, so that
/// telling one takes no time.
#[derive(Clone, Copy)]
pub(crate) enum Before {
    /// It is no CONT, and has no value.
    Empty,
    /// It is no CONT, and has the void pointer.
    Void,
    /// It is no CONT, and has a pointer.
    Pointer,
    /// It is no CONT, and has a text.
    Text,
    /// It is a CONT.
    Continuation,
    /// There is none: the line behind is the first.
    Nothing,
}

/// Finds the faults of a document's lines one line at a time, from a few facts of the lines taken so far. Contracts say
/// which lists of lines it stands for.
#[derive(Drop)]
pub struct Judge {
    /// What the last line is.
    before: Before,
    /// The greatest level that the next line may have if it is no CONT. A CONT that goes on with a payload has this level.
    deepest: u8,
    has_ended: bool,
}

impl Model for Judge {
    ghost use Rattle.std.specs.Prelude.{◌≤◌};
    ghost use Rattle.ged_tree.specs.Judging.{Facts, Reaches, seen_before};

    ghost Value = { Facts };

    ghost view = { λ j. record { before = seen_before j.before j.deepest; ended = j.has_ended } };

    ghost invariant = { λ j. Reaches j.before j.deepest × (j.deepest ≤ 100) };
}

impl Judge {
    /// A judge of no lines. Takes no memory.
    pub fn new() -> Judge
        ensures { StandsFor result [] }
    {
        Judge {
            before: Before::Nothing,
            deepest: 0,
            has_ended: false,
        }
    }

    /// Takes one more line. Where a fault stands at it, answers the lowest, from `LevelJump` to `AfterTrailer`, and is
    /// unchanged. Takes no memory (FamilySearch GEDCOM 7.0, "Lines" and "Structures").
    #[inline(always)]
    pub fn line(&mut self, line: &LineView<'_>) -> Result<(), TreeFault>
        ensures takes { IfOk result (λ _. (lines : List LineParts) → StandsFor self.old lines
            → (fault_after lines line.now ≡ None) × StandsFor self.new (lines ++ line.now ∷ [])) }
        ensures refuses { IfErr result (λ fault. (self.new ≡ self.old)
            × ((lines : List LineParts) → StandsFor self.old lines → fault_after lines line.now ≡ Some fault)) }
    {
        match self.role(line) {
            Ok(role) => {
                self.keep(line, role);
                Ok(())
            }
            Err(fault) => Err(fault),
        }
    }

    /// What the line is, or the lowest fault that stands at it, as [`Judge::line`] answers it.
    #[inline(always)]
    pub(crate) fn role(&self, line: &LineView<'_>) -> Result<LineRole, TreeFault>
        ensures passes { IfOk result (λ role. (lines : List LineParts) → StandsFor self.now lines
            → (fault_after lines line.now ≡ None) × HasRole role line.now) }
        ensures refuses { IfErr result (λ fault. (lines : List LineParts) → StandsFor self.now lines → fault_after lines line.now ≡ Some fault) }
    {
        if self.is_plain(line) {
            return Ok(LineRole::Substructure);
        }
        if self.is_plain_record(line) {
            return Ok(LineRole::Record);
        }
        if self.is_plain_cont(line) {
            return Ok(LineRole::Continuation);
        }
        match self.any_fault(line) {
            None => Ok(LineRole::Other),
            Some(fault) => Err(fault),
        }
    }

    /// Takes one more line, which has no fault and this role. Where a call names the role, little is asked of the line. Takes no memory.
    #[tactic(auto, using(crate::proofs::theory::Judging::judging))]
    #[inline(always)]
    pub(crate) fn keep(&mut self, line: &LineView<'_>, role: LineRole)
        ensures { (lines : List LineParts) → StandsFor self.old lines → HasRole role line.now → StandsFor self.new (lines ++ line.now ∷ []) }
    {
        if is_continuation(role) {
            self.before = Before::Continuation;
            self.deepest = line.level();
        } else {
            self.before = what_begins(line);
            self.deepest = line.level() + 1;
        }
        self.has_ended = self.has_ended || is_trailer(line);
    }

    /// Whether TRLR has come. Takes no memory.
    pub fn has_ended(&self) -> bool
        ensures { (lines : List LineParts) → StandsFor self.now lines → result ≡ has_trailer lines }
    {
        self.has_ended
    }

    // Whether the line begins a structure below another one, as nearly all do, and not below a CONT: then it has no fault, and is neither
    // CONT nor TRLR.
    #[inline(always)]
    fn is_plain(&self, line: &LineView<'_>) -> bool
        ensures faultless { (lines : List LineParts) → StandsFor self.now lines → OnTrue result (fault_after lines line.now ≡ None) }
        ensures begins { OnTrue result ((tests_cont line.now ≡ false) × (tests_trailer line.now ≡ false)) }
        ensures below { OnTrue result (0 < line.now.level) }
    {
        line.level() > 0
            && line.level() <= self.deepest
            && !self.has_ended
            && line.xref().is_none()
            && !is_cont(line)
    }

    // Whether the line begins a record, and so has no fault: behind HEAD and before TRLR.
    #[inline(always)]
    fn is_plain_record(&self, line: &LineView<'_>) -> bool
        ensures faultless { (lines : List LineParts) → StandsFor self.now lines → OnTrue result (fault_after lines line.now ≡ None) }
        ensures begins { OnTrue result (HasRole Record line.now) }
    {
        line.level() == 0
            && !self.has_ended
            && !matches!(self.before, Before::Nothing)
            && !is_cont(line)
            && !is_header(line)
            && !is_trailer(line)
    }

    // Whether the line is a CONT without a fault: no pointer, and where the payload of the line before goes on.
    #[inline(always)]
    fn is_plain_cont(&self, line: &LineView<'_>) -> bool
        ensures faultless { (lines : List LineParts) → StandsFor self.now lines → OnTrue result (fault_after lines line.now ≡ None) }
        ensures goes_on { OnTrue result ((0 < line.now.level) × (tests_cont line.now ≡ true)) }
        ensures others { (lines : List LineParts) → StandsFor self.now lines → result ≡ false → fault_after lines line.now ≡ None → tests_cont line.now ≡ false }
    {
        is_cont(line)
            && line.level() > 0
            && self.continues(line)
            && !is_reference(line)
            && !self.has_ended
            && line.xref().is_none()
    }

    // The lowest fault that stands at the line, whatever line it is.
    #[inline(always)]
    fn any_fault(&self, line: &LineView<'_>) -> Option<TreeFault>
        ensures { (lines : List LineParts) → StandsFor self.now lines → result ≡ fault_after lines line.now }
    {
        if self.jumps(line) {
            return Some(TreeFault::LevelJump);
        }
        if has_forbidden_xref(line) {
            return Some(TreeFault::XrefNotAllowed);
        }
        if self.is_misplaced_cont(line) || self.is_below_cont(line) {
            return Some(TreeFault::MisplacedCont);
        }
        self.fault_of_ends(line)
    }

    // The lowest of the faults of HEAD and TRLR that stands at the line.
    #[inline(always)]
    fn fault_of_ends(&self, line: &LineView<'_>) -> Option<TreeFault>
        ensures { (lines : List LineParts) → StandsFor self.now lines → result ≡ find (stands lines line.now) end_faults }
    {
        let is_first = matches!(self.before, Before::Nothing);
        if is_first && !is_header(line) {
            return Some(TreeFault::NoHeader);
        }
        if !is_first && is_header(line) {
            return Some(TreeFault::SecondHeader);
        }
        if (is_trailer(line) && !is_empty(line)) || (self.has_ended && line.level() > 0) {
            return Some(TreeFault::TrailerNotEmpty);
        }
        if self.has_ended && line.level() == 0 {
            return Some(TreeFault::AfterTrailer);
        }
        None
    }

    fn jumps(&self, line: &LineView<'_>) -> bool
        ensures { (before : Option LineParts) → self.now.before ≡ option_map seen before → result ≡ tests_jump before line.now }
    {
        match self.before {
            Before::Continuation => line.level() > self.deepest + 1,
            _ => line.level() > self.deepest,
        }
    }

    fn is_misplaced_cont(&self, line: &LineView<'_>) -> bool
        ensures { (before : Option LineParts) → self.now.before ≡ option_map seen before → result ≡ tests_misplaced_cont before line.now }
    {
        is_cont(line) && (line.level() == 0 || is_reference(line) || !self.continues(line))
    }

    fn continues(&self, line: &LineView<'_>) -> bool
        ensures { (before : Option LineParts) → self.now.before ≡ option_map seen before → result ≡ tests_continues before line.now }
    {
        match self.before {
            Before::Empty | Before::Text | Before::Continuation => line.level() == self.deepest,
            Before::Nothing | Before::Void | Before::Pointer => false,
        }
    }

    fn is_below_cont(&self, line: &LineView<'_>) -> bool
        ensures { (before : Option LineParts) → self.now.before ≡ option_map seen before → result ≡ tests_below_cont before line.now }
    {
        match self.before {
            Before::Continuation => line.level() > self.deepest,
            _ => false,
        }
    }
}

// Whether a line of this role is a CONT.
#[inline(always)]
fn is_continuation(role: LineRole) -> bool
    ensures { (line : LineParts) → HasRole role line → result ≡ tests_cont line }
{
    matches!(role, LineRole::Continuation)
}

// What a line is to the one behind it, if it is no CONT.
#[inline(always)]
fn what_begins(line: &LineView<'_>) -> Before
    ensures seen { (level : ℕ) → seen_before result (level + 1) ≡ Some (record { level = level; cont = false; reference = tests_reference line.now.value }) }
    ensures reaches { (level : ℕ) → Reaches result (level + 1) }
{
    match line.value() {
        ValueView::Empty => Before::Empty,
        ValueView::Void => Before::Void,
        ValueView::Pointer(_) => Before::Pointer,
        ValueView::Text(_) => Before::Text,
    }
}

#[inline(always)]
fn is_cont(line: &LineView<'_>) -> bool
    ensures { result ≡ tests_cont line.now }
{
    is_same_tag(line.tag(), "CONT")
}

pub(crate) fn is_header(line: &LineView<'_>) -> bool
    ensures { result ≡ tests_header line.now }
{
    line.level() == 0 && is_same_tag(line.tag(), "HEAD")
}

pub(crate) fn is_trailer(line: &LineView<'_>) -> bool
    ensures { result ≡ tests_trailer line.now }
{
    line.level() == 0 && is_same_tag(line.tag(), "TRLR")
}

fn has_forbidden_xref(line: &LineView<'_>) -> bool
    ensures { result ≡ tests_forbidden_xref line.now }
{
    line.xref().is_some() && (line.level() > 0 || is_header(line) || is_trailer(line))
}

// A pointer or void.
fn is_reference(line: &LineView<'_>) -> bool
    ensures { result ≡ tests_reference line.now.value }
{
    matches!(line.value(), ValueView::Void | ValueView::Pointer(_))
}

fn is_empty(line: &LineView<'_>) -> bool
    ensures { result ≡ tests_empty line.now.value }
{
    matches!(line.value(), ValueView::Empty)
}
