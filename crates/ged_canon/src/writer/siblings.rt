// The structures of a run in the order of their tags.
ghost use Rattle.std.specs.Prelude.{◌≡◌, ◌<◌, ◌++◌, ◌∷◌, [], ◌≤◌, Bool, true, false, Option, Some, IsTrue, IfOk, OnOk, length, take, drop, slice_get};
ghost use Rattle.std.specs.List.{AllByRecursion};
ghost use Rattle.std.specs.List.Sorted.{IsPermutation};
ghost use Rattle.ged_line.specs.Bytes.{Bytes};
ghost use Rattle.ged_tree.specs.Trees.{Trees, trees_count, records_of};
ghost use Rattle.ged_tree.specs.Documents.{is_document};
ghost use Rattle.ged_tree.specs.Places.{structure_at};
ghost use Rattle.ged_canon.specs.declared.writer.rank.RankedSibling.{RankedSibling as RankedSiblingData};
ghost use Rattle.ged_tree.specs.Runs.{IsRunOfTrees, trees_between};
ghost use Rattle.ged_schema.specs.declared.context.Context.{Context as AnyContext};
ghost use Rattle.ged_canon.specs.declared.edition.Edition.{Edition as AnyEdition};
ghost use Rattle.ged_link.specs.Links.{identifiers, xrefs, IsAmong, AreDistinct};
ghost use Rattle.ged_link.specs.Indexes.{IsIndexOf};
ghost use Rattle.ged_canon.specs.inner.Working.{grouped, sorted, each_sorted, used_trees, AreNumbersOf};
ghost use Rattle.ged_canon.specs.inner.Siblings.{StandsRanked, AreGrouped, IsTold, TellsUsed, sibling_trees, sibling_names};

use crate::writer::compared::compare_siblings;
use crate::writer::gathered::gather_siblings;
use crate::writer::rank::{BYTES_IN_RANK, RankedSibling, rank_of};
use ged_link::{Index, RecordCursor};
use ged_tree::{Forest, next_in_run};
use std::alloc::{AllocError, Global};

/// How many siblings are always put in order by comparison: for fewer the memory for groups costs more than they save.
const SHORT_RUN: usize = 256;

/// A structure among its siblings: its tag, and its place among all structures.
#[derive(Clone, Copy, Debug)]
pub(crate) struct Sibling<'a> {
    pub(crate) tag: &'a str,
    pub(crate) place: usize,
}

/// The structure at a place.
#[inline(always)]
pub(crate) fn ranked_sibling<F: Forest>(forest: &F, place: usize) -> RankedSibling
    requires { place < trees_count (F.trees forest.now) }
    ensures place { result.place ≡ place }
    ensures stands { StandsRanked (F.trees forest.now) result }
{
    let rank = rank_of(forest.tag(place));
    RankedSibling { rank, place }
}

/// Whether the rank of a sibling's tag tells all of it: it has seven bytes or fewer.
#[inline(always)]
fn is_told(sibling: RankedSibling) -> bool
    ensures { IsTrue result → IsTold sibling }
{
    sibling.rank % 256 <= BYTES_IN_RANK as u64 + 1
}

/// Appends the structure at a place, and answers whether the rank of its tag tells all of it. Grows.
#[inline(always)]
fn push_sibling<F: Forest>(
    forest: &F,
    place: usize,
    siblings: &mut Vec<RankedSibling>,
) -> Result<bool, AllocError>
    requires { place < trees_count (F.trees forest.now) }
    ensures { IfOk result (λ is_told. (last : RankedSiblingData) × (siblings.new.items ≡ siblings.old.items ++ last ∷ [])
        × (last.place ≡ place) × StandsRanked (F.trees forest.now) last × (IsTrue is_told → IsTold last)) }
{
    let sibling = ranked_sibling(forest, place);
    siblings.push(sibling)?;
    Ok(is_told(sibling))
}

/// Appends the structures of a run in their own order, and answers whether the ranks of their tags tell all of these. Grows.
fn push_siblings<F: Forest>(
    forest: &F,
    start: usize,
    end: usize,
    siblings: &mut Vec<RankedSibling>,
) -> Result<bool, AllocError>
    requires { IsRunOfTrees (F.trees forest.now) start end }
    ensures kept { OnOk result (take (length siblings.old.items) siblings.new.items ≡ siblings.old.items) }
    ensures within { OnOk result (AllByRecursion (StandsRanked (F.trees forest.now)) (drop (length siblings.old.items) siblings.new.items)) }
    ensures told { IfOk result (λ are_told. IsTrue are_told → AllByRecursion IsTold (drop (length siblings.old.items) siblings.new.items)) }
    ensures count { OnOk result (length (drop (length siblings.old.items) siblings.new.items) ≡ length (identifiers (trees_between (F.trees forest.now) start end))) }
    ensures trees { (used : Bytes → Bool) (edition : AnyEdition) (context : AnyContext) →
        OnOk result (sibling_trees used edition context (F.trees forest.now) (drop (length siblings.old.items) siblings.new.items) ≡ each_sorted edition context (used_trees used (trees_between (F.trees forest.now) start end))) }
{
    let mut are_told = true;
    let mut place = start;
    while let Some(after) = next_in_run(forest, place, end) {
        let is_told = push_sibling(forest, place, siblings)?;
        are_told &= is_told;
        place = after;
    }
    Ok(are_told)
}

/// Puts the siblings of a long run in the order of their tags, where they can be gathered, and answers whether it has; those with one tag
/// keep their order. Else they stay as they are. Grows.
#[inline(always)]
fn gather_long(alloc: Global, siblings: &mut [RankedSibling]) -> Result<bool, AllocError>
    ensures permutation { IsPermutation siblings.old siblings.new }
    ensures trees { (d : Trees) → AllByRecursion (StandsRanked d) siblings.old → IfOk result (λ all. IsTrue all → AreGrouped d siblings.old siblings.new) }
    ensures unchanged { IfOk result (λ all. all ≡ false → siblings.new ≡ siblings.old) }
{
    if siblings.len() > SHORT_RUN {
        return gather_siblings(alloc, siblings);
    }
    Ok(false)
}

/// Puts siblings in the order of their tags; those with one tag keep their order. It is given whether the ranks of their tags tell all of
/// these. Grows.
fn sort_siblings<F: Forest>(
    alloc: Global,
    forest: &F,
    siblings: &mut [RankedSibling],
    are_told: bool,
) -> Result<(), AllocError>
    requires stand { AllByRecursion (StandsRanked (F.trees forest.now)) siblings.old }
    requires told { IsTrue are_told → AllByRecursion IsTold siblings.old }
    ensures permutation { IsPermutation siblings.old siblings.new }
    ensures trees { OnOk result (AreGrouped (F.trees forest.now) siblings.old siblings.new) }
{
    if gather_long(alloc, siblings)? {
        return Ok(());
    }
    compare_siblings(alloc, forest, siblings, are_told)
}

/// Appends the structures of a run in the order of their tags; those with one tag keep their order. Grows.
pub(crate) fn push_sorted<F: Forest>(
    alloc: Global,
    forest: &F,
    start: usize,
    end: usize,
    siblings: &mut Vec<RankedSibling>,
) -> Result<(), AllocError>
    requires { IsRunOfTrees (F.trees forest.now) start end }
    ensures kept { OnOk result (take (length siblings.old.items) siblings.new.items ≡ siblings.old.items) }
    ensures within { OnOk result (AllByRecursion (StandsRanked (F.trees forest.now)) (drop (length siblings.old.items) siblings.new.items)) }
    ensures count { OnOk result (length (drop (length siblings.old.items) siblings.new.items) ≡ length (identifiers (trees_between (F.trees forest.now) start end))) }
    ensures trees { (used : Bytes → Bool) (edition : AnyEdition) (context : AnyContext) →
        OnOk result (sibling_trees used edition context (F.trees forest.now) (drop (length siblings.old.items) siblings.new.items) ≡ sorted edition context (used_trees used (trees_between (F.trees forest.now) start end))) }
{
    let base = siblings.len();
    let are_told = push_siblings(forest, start, end, siblings)?;
    sort_siblings(alloc, forest, &mut siblings[base..], are_told)
}

/// The number itself, if some pointer names the record that has it.
#[inline(always)]
fn if_used(index: &Index, number: usize) -> Option<usize>
    ensures { (d : Trees) (xref : Option Bytes) → IsIndexOf d index.now → slice_get (identifiers (records_of d)) number ≡ Some xref → TellsUsed d xref result }
{
    if index.is_used(number) {
        Some(number)
    } else {
        None
    }
}

/// What [`used_record`] answers for a place that the index does not keep, or at which no record stands. The identifier is read.
#[cold]
#[inline(never)]
fn used_by_name<F: Forest>(forest: &F, index: &Index, place: usize) -> Option<usize>
    requires index { IsIndexOf (F.trees forest.now) index.now }
    requires document { is_document (F.trees forest.now) ≡ true }
    requires within { place < trees_count (F.trees forest.now) }
    ensures { TellsUsed (F.trees forest.now) (structure_at (F.trees forest.now) place).xref result }
{
    let Some(name) = forest.xref(place) else {
        return None;
    };
    match index.record_named(name) {
        Some(number) => if_used(index, number),
        None => None,
    }
}

/// The number of the record at a place, if some pointer names the record. Its identifier is not read: a pointer that names it shows that
/// it has one, and its line is seldom at hand when the records are counted.
#[inline(always)]
fn used_record<F: Forest>(
    forest: &F,
    index: &Index,
    place: usize,
    cursor: &mut RecordCursor,
) -> Option<usize>
    requires index { IsIndexOf (F.trees forest.now) index.now }
    requires document { is_document (F.trees forest.now) ≡ true }
    requires within { place < trees_count (F.trees forest.now) }
    ensures { TellsUsed (F.trees forest.now) (structure_at (F.trees forest.now) place).xref result }
{
    match index.record_standing_at(place, cursor) {
        Some(number) => if_used(index, number),
        None => used_by_name(forest, index, place),
    }
}

/// The new numbers of a document's records, counted from 1, by the numbers that the records have in the document: those of
/// the identifiers that pointers name, in the new order of the records. Any other record has the new number 0. HEAD, which has
/// no identifier, may stand among the records.
pub(crate) fn numbers_in_order<F: Forest>(
    alloc: Global,
    forest: &F,
    index: &Index,
    records: &[RankedSibling],
) -> Result<Vec<usize>, AllocError>
    requires index { IsIndexOf (F.trees forest.now) index.now }
    requires document { is_document (F.trees forest.now) ≡ true }
    requires within { AllByRecursion (StandsRanked (F.trees forest.now)) records.now }
    requires count { length (identifiers (records_of (F.trees forest.now))) ≤ length records.now }
    requires known { (name : Bytes) → IsAmong name (sibling_names (F.trees forest.now) records.now) → IsAmong name (xrefs (records_of (F.trees forest.now))) }
    requires distinct { AreDistinct (sibling_names (F.trees forest.now) records.now) }
    ensures { IfOk result (λ numbers. AreNumbersOf (F.trees forest.now) (sibling_names (F.trees forest.now) records.now) numbers.items) }
{
    let mut numbers = vec![in alloc; 0; records.len()]?;
    let mut number = 0;
    let mut cursor = RecordCursor::new();
    for each in records {
        if let Some(record) = used_record(forest, index, each.place, &mut cursor) {
            number += 1;
            numbers[record] = number;
        }
    }
    Ok(numbers)
}
