// The structures of a document by their places, whatever holds them.
pub(crate) mod continuations;
pub(crate) mod own_line;
pub(crate) mod payload;

ghost use Rattle.std.specs.Prelude.{◌≡◌, ◌<◌, ◌↔◌, Some, true, IsTrue, length, slice_get, MatchOption, IfSome};
ghost use Rattle.std.specs.Option.{option_copied};
ghost use Rattle.ged_tree.specs.Trees.{Trees, none, trees_count, further_lines};
ghost use Rattle.ged_tree.specs.Documents.{is_document};
ghost use Rattle.ged_tree.specs.Places.{structure_at, place_after, level_at, line_at};
ghost use Rattle.ged_tree.specs.Runs.{trees_between, IsRunOfTrees, IsStep};
ghost use Rattle.ged_tree.specs.Views.{payload_of, is_pointer, IsOwnLine};

use crate::forest::continuations::FurtherLines;
use crate::forest::own_line::OwnLine;
use crate::forest::payload::PayloadView;

/// The structures of a document by their places, which count from 0 in the order of a file: HEAD stands at place 0, and
/// TRLR at none. No call takes memory.
///
/// A forest of nodes finds a place by a walk over them from the first one on; a [`crate::Flat`] has direct access.
pub trait Forest {
    /// The document that it is seen as.
    ghost trees: { Self → Trees };

    /// How many structures there are.
    fn size(&self) -> usize
        ensures count { result ≡ trees_count (trees self.now) }
        ensures document { is_document (trees self.now) ≡ true };

    /// From 0 to 99.
    fn level(&self, place: usize) -> u8
        requires { place < trees_count (trees self.now) }
        ensures { result ≡ level_at 0 (trees self.now) place };

    /// The first place past the structure and all below it.
    fn after(&self, place: usize) -> usize
        requires { place < trees_count (trees self.now) }
        ensures { result ≡ place_after (trees self.now) place };

    /// The line on which the structure begins, counted from 1.
    fn line(&self, place: usize) -> u64
        requires { place < trees_count (trees self.now) }
        ensures { result ≡ line_at 1 (trees self.now) place };

    /// Never CONT, whose lines belong to a payload.
    fn tag(&self, place: usize) -> &str
        requires { place < trees_count (trees self.now) }
        ensures { result.now ≡ (structure_at (trees self.now) place).tag };

    /// The cross-reference identifier of a record, without its `@`.
    fn xref(&self, place: usize) -> Option<&str>
        requires { place < trees_count (trees self.now) }
        ensures { option_copied result ≡ (structure_at (trees self.now) place).xref };

    /// The payload by its first line.
    fn payload(&self, place: usize) -> PayloadView<'_>
        requires { place < trees_count (trees self.now) }
        ensures { payload_of result (further_lines (structure_at (trees self.now) place).payload)
            ≡ (structure_at (trees self.now) place).payload };

    /// The tag, and the payload by its first line. A forest that has both on one line looks for it once.
    fn tag_and_payload(&self, place: usize) -> (&str, PayloadView<'_>)
        requires { place < trees_count (trees self.now) }
        ensures tag { result.0.now ≡ (structure_at (trees self.now) place).tag }
        ensures payload { payload_of result.1 (further_lines (structure_at (trees self.now) place).payload)
            ≡ (structure_at (trees self.now) place).payload }
    {
        (self.tag(place), self.payload(place))
    }

    /// How many lines the payload has past the first.
    fn further(&self, place: usize) -> usize
        requires { place < trees_count (trees self.now) }
        ensures { result ≡ length (further_lines (structure_at (trees self.now) place).payload) };

    /// Whether the payload has lines past the first. A forest that tells it without counting them answers so.
    fn has_further(&self, place: usize) -> bool
        requires { place < trees_count (trees self.now) }
        ensures { IsTrue result ↔ 0 < length (further_lines (structure_at (trees self.now) place).payload) }
    {
        self.further(place) > 0
    }

    /// A line of the payload past the first, counted from 0.
    fn further_line(&self, place: usize, number: usize) -> &str
        requires within { place < trees_count (trees self.now) }
        requires further { number < length (further_lines (structure_at (trees self.now) place).payload) }
        ensures { slice_get (further_lines (structure_at (trees self.now) place).payload) number ≡ Some result.now };

    /// Whether the payload is a pointer that names a record. A forest that knows it without a look at the payload answers so.
    fn points(&self, place: usize) -> bool
        requires { place < trees_count (trees self.now) }
        ensures { result ≡ is_pointer (structure_at (trees self.now) place).payload }
    {
        matches!(self.payload(place), PayloadView::Pointer(_))
    }

    /// What stands on the structure's own line from its tag on; or `None` where the forest does not hold it in one text.
    fn own_line(&self, _place: usize) -> Option<OwnLine<'_>>
        requires { _place < trees_count (trees self.now) }
        ensures { IfSome result (IsOwnLine (structure_at (trees self.now) _place)) }
    {
        None
    }

    /// The lines of the payload past the first, for a caller that wants them all; or `None` where the forest has them only one
    /// by one.
    fn further_lines(&self, _place: usize) -> Option<FurtherLines<'_>>
        requires { _place < trees_count (trees self.now) }
        ensures { IfSome result (λ lines. lines ≡ further_lines (structure_at (trees self.now) _place).payload) }
    {
        None
    }
}

/// The place after the first tree of the run of places from `place` up to `end`, or `None` where the run has no tree.
/// What stands below the tree's structure is the run from `place + 1` up to the place that is answered. Takes no memory.
pub fn next_in_run<F: Forest>(forest: &F, place: usize, end: usize) -> Option<usize>
    requires run { IsRunOfTrees (F.trees forest.now) place end }
    ensures { MatchOption result
        (trees_between (F.trees forest.now) place end ≡ none)
        (λ after. IsStep (F.trees forest.now) place end after) }
{
    if place >= end {
        return None;
    }
    Some(forest.after(place))
}

/// The end of the run of all trees, which begins at place 0. Takes no memory.
pub fn end_of_all<F: Forest>(forest: &F) -> usize
    ensures run { IsRunOfTrees (F.trees forest.now) 0 result }
    ensures all { trees_between (F.trees forest.now) 0 result ≡ F.trees forest.now }
    ensures document { is_document (F.trees forest.now) ≡ true }
{
    forest.size()
}
