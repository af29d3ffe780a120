// Whether a document is as the structure tables ask.
ghost use Rattle.std.specs.Prelude.{◌≡◌, true, ◌<◌, ◌≤◌, ◌+◌, ℕ, Some, MatchOption, MatchResult, get_or, slice_get};
ghost use Rattle.std.specs.List.{AllByRecursion};
ghost use Rattle.ged_tree.specs.Trees.{trees_count};
ghost use Rattle.ged_tree.specs.Documents.{is_document};
ghost use Rattle.ged_tree.specs.Places.{structure_at};
ghost use Rattle.ged_tree.specs.Runs.{IsRunOfTrees, trees_between};
ghost use Rattle.ged_link.specs.Indexes.{IsIndexOf};
ghost use Rattle.ged_schema.specs.Rows.{Row, as_row};
ghost use Rattle.ged_schema.specs.Tables.{rows as rows_of};
ghost use Rattle.ged_schema.specs.Checked.{AreChecked, Checked, CountsRight, MeetsRow, count_of};
ghost use Rattle.ged_schema.specs.Unlisted.{IsCoverage};
ghost use Rattle.ged_schema.specs.Faults.{CountFault, FirstCountFault, FirstFault, IsFirstFault, OwnFault, StandsAfter, payload_fault as fault_of_payload};

use crate::context::Context;
use crate::fault::{FaultPlace, SchemaAt, SchemaFault};
use crate::lookups::lookup_name;
use crate::notices::{Coverage, coverage_of};
use crate::payloads::{given_of, points_right};
use crate::quick_check::{Pass, all_pass};
use crate::rule::Rule;
use crate::slots::row_number;
use crate::tables::rows;
use ged_link::{Index, PointerCursor};
use ged_tree::{Forest, end_of_all, next_in_run};
use ged_value::{Kind, fits};

fn payload_fault(kind: Kind) -> SchemaFault
    ensures { result ≡ fault_of_payload kind }
{
    match kind {
        Kind::Version => SchemaFault::WrongVersion,
        _ => SchemaFault::BadPayload,
    }
}

/// The place of the structure of a run that has the tag, and so many with the tag before it.
fn place_of_nth<F: Forest>(
    forest: &F,
    tag: &str,
    before: u32,
    start: usize,
    end: usize,
) -> Option<usize>
    requires run { IsRunOfTrees (F.trees forest.now) start end }
    ensures { MatchOption result (count_of tag.now (trees_between (F.trees forest.now) start end) ≤ before)
        (λ at. StandsAfter tag.now before start (trees_between (F.trees forest.now) start end) at) }
{
    let mut left = before;
    let mut place = start;
    while let Some(after) = next_in_run(forest, place, end) {
        if forest.tag(place) == tag {
            if left == 0 {
                return Some(place);
            }
            left -= 1;
        }
        place = after;
    }
    None
}

/// For each row of a context, by its number, how many structures of a run have its tag.
fn count_rows<F: Forest>(forest: &F, context: Context, start: usize, end: usize) -> [usize; 64]
    requires run { IsRunOfTrees (F.trees forest.now) start end }
    ensures { (number : ℕ) (r : Row) → slice_get (rows_of context) number ≡ Some r →
        get_or result number 0 ≡ count_of r.tag (trees_between (F.trees forest.now) start end) }
{
    let mut counts = [0; 64];
    let mut place = start;
    while let Some(after) = next_in_run(forest, place, end) {
        if let Some(number) = row_number(context, forest.tag(place)) {
            counts[number] += 1;
        }
        place = after;
    }
    counts
}

/// What is wrong with the number of substructures with a rule's tag of the structure at a place.
fn row_fault<F: Forest>(
    forest: &F,
    rule: &Rule,
    count: usize,
    place: usize,
    after: usize,
) -> Option<FaultPlace>
    requires run { IsRunOfTrees (F.trees forest.now) (place + 1) after }
    requires forth { place < after }
    requires counted { count ≡ count_of rule.now.tag.now (trees_between (F.trees forest.now) (place + 1) after) }
    ensures { MatchOption result (CountsRight (trees_between (F.trees forest.now) (place + 1) after) (as_row rule.now))
        (λ f. CountFault place (trees_between (F.trees forest.now) (place + 1) after) (as_row rule.now) f) }
{
    if count < rule.least as usize {
        return Some(FaultPlace {
            place,
            fault: SchemaFault::Missing,
        });
    }
    let most = rule.most?;
    if count <= most as usize {
        return None;
    }
    let place = place_of_nth(forest, rule.tag, most, place + 1, after)?;
    Some(FaultPlace {
        place,
        fault: SchemaFault::TooMany,
    })
}

/// The first fault in the numbers of the substructures of the structure at a place.
fn count_fault<F: Forest>(
    forest: &F,
    context: Context,
    place: usize,
    after: usize,
) -> Option<FaultPlace>
    requires run { IsRunOfTrees (F.trees forest.now) (place + 1) after }
    requires forth { place < after }
    ensures { MatchOption result (AllByRecursion (CountsRight (trees_between (F.trees forest.now) (place + 1) after)) (rows_of context))
        (λ f. FirstCountFault place (trees_between (F.trees forest.now) (place + 1) after) (rows_of context) f) }
{
    let counts = count_rows(forest, context, place + 1, after);
    let mut number = 0;
    for rule in rows(context) {
        if let Some(fault) = row_fault(forest, rule, counts[number], place, after) {
            return Some(fault);
        }
        number += 1;
    }
    None
}

/// The first fault of the structure at a place by itself: in its payload, its target or its substructures' numbers.
fn own_fault<F: Forest>(
    forest: &F,
    index: &Index,
    rule: &Rule,
    place: usize,
    after: usize,
) -> Option<FaultPlace>
    requires within { place < trees_count (F.trees forest.now) }
    requires run { IsRunOfTrees (F.trees forest.now) (place + 1) after }
    requires forth { place < after }
    requires index { IsIndexOf (F.trees forest.now) index.now }
    requires document { is_document (F.trees forest.now) ≡ true }
    ensures { MatchOption result
        (MeetsRow (F.trees forest.now) (Some (as_row rule.now)) (structure_at (F.trees forest.now) place).payload (trees_between (F.trees forest.now) (place + 1) after))
        (λ f. OwnFault (F.trees forest.now) place (Some (as_row rule.now)) (structure_at (F.trees forest.now) place).payload (trees_between (F.trees forest.now) (place + 1) after) f) }
{
    let payload = forest.payload(place);
    if !fits(rule.kind, given_of(forest, payload, place)) {
        return Some(FaultPlace {
            place,
            fault: payload_fault(rule.kind),
        });
    }
    let mut pointers = PointerCursor::new();
    if !points_right(forest, index, rule.kind, payload, place, &mut pointers) {
        return Some(FaultPlace {
            place,
            fault: SchemaFault::WrongTarget,
        });
    }
    count_fault(forest, rule.below, place, after)
}

/// The first fault of the structures of a run, which stand in a context, and of those below them.
fn check_between<F: Forest>(
    forest: &F,
    index: &Index,
    context: Context,
    start: usize,
    end: usize,
) -> Option<FaultPlace>
    requires run { IsRunOfTrees (F.trees forest.now) start end }
    requires index { IsIndexOf (F.trees forest.now) index.now }
    requires document { is_document (F.trees forest.now) ≡ true }
    ensures { MatchOption result
        (AreChecked (F.trees forest.now) context (trees_between (F.trees forest.now) start end))
        (λ f. FirstFault (F.trees forest.now) context start (trees_between (F.trees forest.now) start end) f) }
{
    let mut place = start;
    while let Some(after) = next_in_run(forest, place, end) {
        if let Some(rule) = lookup_name(context, forest.tag(place)) {
            if let Some(fault) = own_fault(forest, index, &rule, place, after) {
                return Some(fault);
            }
            if let Some(fault) = check_between(forest, index, rule.below, place + 1, after) {
                return Some(fault);
            }
        }
        place = after;
    }
    None
}

/// What [`check`] answers, and where a document is as the structure tables ask, whether they list its tags.
pub(crate) fn check_tables<F: Forest>(forest: &F, index: &Index) -> Result<Coverage, SchemaAt>
    requires { IsIndexOf (F.trees forest.now) index.now }
    ensures { MatchResult result
        (λ coverage. Checked (F.trees forest.now) × IsCoverage (F.trees forest.now) coverage)
        (λ at. IsFirstFault (F.trees forest.now) at) }
{
    let end = end_of_all(forest);
    let mut pass = Pass {
        noted: false,
        pointers: PointerCursor::new(),
    };
    if all_pass(forest, index, Context::File, 0, end, &mut pass) {
        return Ok(if pass.noted {
            Coverage::Partial
        } else {
            Coverage::Whole
        });
    }
    match check_between(forest, index, Context::File, 0, end) {
        Some(FaultPlace { place, fault }) => Err(SchemaAt {
            line: forest.line(place),
            fault,
        }),
        None => Ok(coverage_of(forest)),
    }
}

/// Whether a document is as the structure tables ask, or its first fault, which is never one of the strict profile's.
/// Takes no memory.
///
/// HEAD is judged first, then the records in their order, each structure before those below it: its payload, then the
/// record that its pointer names, then the numbers of its substructures, row by row in the order of [`crate::rows`].
/// Structures without a row are not judged, nor is what stands below them
/// (FamilySearch GEDCOM 7.0, "Structure Organization" and "Data types").
pub fn check<F: Forest>(forest: &F, index: &Index) -> Result<(), SchemaAt>
    requires { IsIndexOf (F.trees forest.now) index.now }
    ensures { MatchResult result (λ _. Checked (F.trees forest.now)) (λ at. IsFirstFault (F.trees forest.now) at) }
{
    check_tables(forest, index)?;
    Ok(())
}
