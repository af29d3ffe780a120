// Whether structures are as the tables ask, told in one walk that looks each of them up once.
ghost use Rattle.std.specs.Prelude.{◌≡◌, ◌<◌, ◌+◌, ◌⊎◌, ◌↔◌, ◌∷◌, Option, true, IsTrue, None};
ghost use Rattle.std.specs.Int.{bit_at};
ghost use Rattle.std.specs.List.{AllByRecursion};
ghost use Rattle.std.specs.Bool.{OnTrue};
ghost use Rattle.ged_tree.specs.Trees.{Trees, trees_count, further_lines};
ghost use Rattle.ged_tree.specs.declared.payload.Payload.TheVariants.{Pointer, Text};
ghost use Rattle.ged_tree.specs.Documents.{is_document};
ghost use Rattle.ged_tree.specs.Places.{structure_at};
ghost use Rattle.ged_tree.specs.Runs.{IsRunOfTrees, trees_between};
ghost use Rattle.ged_tree.specs.Views.{payload_of};
ghost use Rattle.ged_value.specs.Kinds.{Fits as FitsGiven, FitsLine};
ghost use Rattle.ged_value.specs.declared.kind.Given.TheVariants.{Pointer as GivenPointer, Void as GivenVoid};
ghost use Rattle.ged_link.specs.Indexes.{IsIndexOf};
ghost use Rattle.ged_schema.specs.Tables.{rows as rows_of};
ghost use Rattle.ged_schema.specs.Payloads.{IsOfKind};
ghost use Rattle.ged_value.specs.Kinds.{target};
ghost use Rattle.ged_schema.specs.Checked.{AreChecked, CountsRight, PointsRight};
ghost use Rattle.ged_schema.specs.Unlisted.{Unlisted};
ghost use Rattle.ged_schema.specs.inner.Marks.{are_simple, AreMarkedAsNeeded, MarksOneMore};

use crate::context::Context;
use crate::notices::gives_notice;
use crate::payloads::{names_record, takes_any_text, target_type};
use crate::slots::{number_among, seed_of};
use crate::tables::rows;
use ged_link::{Index, PointerCursor};
use ged_tree::{Forest, PayloadView, next_in_run};
use ged_value::{Given, Kind, fits};

/// What a walk carries from one structure to the next.
#[derive(Drop)]
pub(crate) struct Pass {
    /// Whether a structure on the way gave a notice.
    pub(crate) noted: bool,
    /// Where the index looks for the next pointer.
    pub(crate) pointers: PointerCursor,
}

/// The rows of each context that ask for a structure, in the order of the contexts: bit k is set where row k, counted from 0, asks
/// for one. The script crates/ged_schema/tools/slots.py prints these numbers, and the proof computes each of them from the rows.
static NEEDED: [u64; 34] = [
    0b1, 0b1, 0b1, 0, 0, 0, 0b1, 0, 0, 0, 0, 0, 0, 0b1, 0, 0, 0, 0, 0, 0, 0b1, 0, 0, 0b1, 0b1, 0,
    0b1, 0b1, 0b10, 0, 0, 0, 0, 0,
];

/// The rows of a context that ask for a structure, as bits.
#[inline(always)]
fn needed_rows(context: Context) -> u64
    ensures { are_simple result 0 (rows_of context) ≡ true }
{
    // The proof asks for the index as the result of a call, so it is no cast to usize.
    NEEDED[usize::from(context as u8)]
}

/// Whether each row of a context that asks for a structure is marked.
pub(crate) fn are_needed_marked(context: Context, marks: u64) -> bool
    ensures { OnTrue result (AreMarkedAsNeeded (rows_of context) marks) }
{
    let needed = needed_rows(context);
    marks & needed == needed
}

/// Whether no row of a context asks for a structure.
fn needs_nothing(context: Context) -> bool
    ensures { OnTrue result (are_simple 0 0 (rows_of context) ≡ true) }
{
    needed_rows(context) == 0
}

/// Marks a row by the bit of its number. Where the answer is true, one more of its structures may stand: the row has no greatest number
/// or was not marked before. Of the answer false no clause says anything: then the walk that counts decides.
#[inline(always)]
pub(crate) fn mark(marks: &mut u64, number: usize, most: Option<u32>) -> bool
    requires { number < 64 }
    ensures marked { MarksOneMore number marks.old marks.new }
    ensures free { OnTrue result ((most ≡ None) ⊎ (bit_at marks.old number ≡ 0)) }
{
    // No branch hangs on the greatest number, which changes from row to row.
    let limited = u64::from(most.is_some());
    let free = (*marks >> number) & limited == 0;
    *marks |= 1 << number;
    free
}

/// Whether a text of one line is of a kind. A function of its own, so that no room for a [`Given`] is cleared on the way of
/// payloads that are told without it.
pub(crate) fn fits_line(kind: Kind, line: &str) -> bool
    ensures { OnTrue result (FitsLine kind line.now) }
{
    fits(kind, Given::One(line))
}

/// Whether the payload of the structure at a place, a text with this first line, is of the kind.
#[tactic(auto, using(crate::proofs::Fitting::any_text_fits))]
#[inline(always)]
fn is_text_right<F: Forest>(forest: &F, kind: Kind, line: &str, place: usize) -> bool
    requires within { place < trees_count (F.trees forest.now) }
    requires payload { Text (line.now ∷ further_lines (structure_at (F.trees forest.now) place).payload)
        ≡ (structure_at (F.trees forest.now) place).payload }
    ensures { OnTrue result (IsOfKind kind (structure_at (F.trees forest.now) place).payload) }
{
    if takes_any_text(kind) {
        return true;
    }
    if forest.has_further(place) {
        return false;
    }
    if line.is_empty() && matches!(kind, Kind::Nothing | Kind::EventFlag) {
        return true;
    }
    fits_line(kind, line)
}

/// Whether a pointer is of a kind whose pointers lead to records of any type.
#[cold]
#[inline(never)]
fn takes_any_pointer(kind: Kind) -> bool
    ensures { OnTrue result (FitsGiven kind GivenPointer) }
{
    fits(kind, Given::Pointer)
}

/// Whether the void pointer is of a kind.
#[cold]
#[inline(never)]
fn takes_void(kind: Kind) -> bool
    ensures { OnTrue result (FitsGiven kind GivenVoid) }
{
    fits(kind, Given::Void)
}

/// Whether the payload of the structure at a place, a pointer with this name, is of the kind, and leads to a record of the
/// tag that the kind names.
#[inline(always)]
fn is_pointer_right(
    index: &Index,
    kind: Kind,
    place: usize,
    name: &str,
    pointers: &mut PointerCursor,
) -> bool
    ensures { (document : Trees) → IsIndexOf document index.now → is_document document ≡ true
        → Pointer name.now ≡ (structure_at document place).payload
        → OnTrue result (IsOfKind kind (Pointer name.now) × PointsRight document (target kind) (Pointer name.now)) }
{
    match target_type(kind) {
        Some(wanted) => names_record(index, place, name, wanted, pointers),
        None => takes_any_pointer(kind),
    }
}

/// Whether this payload, that of the structure at a place, is of the kind, and leads to a record of the tag that the kind names.
#[inline(always)]
fn is_payload_right<F: Forest>(
    forest: &F,
    index: &Index,
    kind: Kind,
    place: usize,
    payload: PayloadView<'_>,
    pointers: &mut PointerCursor,
) -> bool
    requires within { place < trees_count (F.trees forest.now) }
    requires payload { payload_of payload (further_lines (structure_at (F.trees forest.now) place).payload)
        ≡ (structure_at (F.trees forest.now) place).payload }
    requires index { IsIndexOf (F.trees forest.now) index.now }
    requires document { is_document (F.trees forest.now) ≡ true }
    ensures { OnTrue result (IsOfKind kind (structure_at (F.trees forest.now) place).payload
        × PointsRight (F.trees forest.now) (target kind) (structure_at (F.trees forest.now) place).payload) }
{
    match payload {
        PayloadView::Text(line) => is_text_right(forest, kind, line, place),
        PayloadView::Pointer(name) => is_pointer_right(index, kind, place, name, pointers),
        PayloadView::Void => takes_void(kind),
    }
}

/// Whether the structures of a run, which stand in a context, are as many as its rows ask, and each of them, and of those
/// below them, is as its row asks. It ends at the first that is not. Where it ends at none, the pass is noted if a
/// structure on the way gives a notice, and stays as it is otherwise.
pub(crate) fn all_pass<F: Forest>(
    forest: &F,
    index: &Index,
    context: Context,
    start: usize,
    end: usize,
    pass: &mut Pass,
) -> bool
    requires run { IsRunOfTrees (F.trees forest.now) start end }
    requires index { IsIndexOf (F.trees forest.now) index.now }
    requires document { is_document (F.trees forest.now) ≡ true }
    ensures { OnTrue result (AllByRecursion (CountsRight (trees_between (F.trees forest.now) start end)) (rows_of context)
        × AreChecked (F.trees forest.now) context (trees_between (F.trees forest.now) start end)
        × (IsTrue pass.new.noted ↔ (IsTrue pass.old.noted ⊎ Unlisted context (trees_between (F.trees forest.now) start end)))) }
{
    let rules = rows(context);
    let seed = seed_of(context);
    let mut marks = 0;
    let mut place = start;
    while let Some(after) = next_in_run(forest, place, end) {
        let (tag, payload) = forest.tag_and_payload(place);
        if let Some(number) = number_among(rules, seed, tag) {
            let rule = &rules[number];
            if !mark(&mut marks, number, rule.most) {
                return false;
            }
            if !is_payload_right(forest, index, rule.kind, place, payload, &mut pass.pointers) {
                return false;
            }
            if place + 1 < after {
                if !all_pass(forest, index, rule.below, place + 1, after, pass) {
                    return false;
                }
            } else if !needs_nothing(rule.below) {
                return false;
            }
        } else if gives_notice(context, tag) {
            pass.noted = true;
        }
        place = after;
    }
    are_needed_marked(context, marks)
}
