// Records of two documents, compared structure by structure, where they stand.
ghost use Rattle.std.specs.Prelude.{◌≡◌, ◌<◌, ◌∷◌, [], List, IfOk, IsTrue};
ghost use Rattle.ged_line.specs.Bytes.{Bytes};
ghost use Rattle.ged_tree.specs.Runs.{IsRunOfTrees, trees_between};
ghost use Rattle.ged_canon.specs.inner.Working.{is_named, IsNumberingOf};
ghost use Rattle.ged_canon.specs.inner.CanonBytes.{AreNamed, CanWriteRecords, numbered_siblings};
ghost use Rattle.ged_canon.specs.inner.Paired.{BecomeSame, ByNames, StandsAlone, StandTogether, TreesAlike};

use crate::writer::alike_structures::{PairCursors, is_alike};
use crate::writer::plan::Writer;
use crate::writer::rank::RankedSibling;
use crate::writer::siblings::push_sorted;
use ged_line::is_same_tag;
use ged_tree::{Forest, next_in_run};
use std::alloc::{AllocError, Global};

/// The deepest level of a structure.
const DEEPEST: u8 = 99;

/// From where up to where structures stand, by their places.
#[derive(Clone, Copy)]
struct Places {
    start: usize,
    end: usize,
}

/// What changes while records of two documents are compared: the cursors, and the siblings of each pair of runs in another order that is
/// being compared, those of a deeper run behind those of the runs above it.
#[derive(Drop)]
pub(crate) struct PairWork {
    cursors: PairCursors,
    siblings: Vec<RankedSibling>,
    others: Vec<RankedSibling>,
}

impl PairWork {
    /// Of documents of which nothing is compared yet. Takes no memory.
    pub(crate) fn new(alloc: Global) -> Self {
        PairWork {
            cursors: PairCursors::new(),
            siblings: Vec::new(alloc),
            others: Vec::new(alloc),
        }
    }
}

/// Whether the structures of two runs have the same tags, one after the other. It says in which order they are compared, and no clause rests
/// on it.
fn have_same_tags<F: Forest, G: Forest>(
    forest: &F,
    run: Places,
    other_forest: &G,
    other: Places,
) -> bool
    requires run { IsRunOfTrees (F.trees forest.now) run.start run.end }
    requires other { IsRunOfTrees (G.trees other_forest.now) other.start other.end }
{
    let mut place = run.start;
    let mut other_place = other.start;
    while let Some(after) = next_in_run(forest, place, run.end) {
        let Some(other_after) = next_in_run(other_forest, other_place, other.end) else {
            return false;
        };
        if !is_same_tag(forest.tag(place), other_forest.tag(other_place)) {
            return false;
        }
        place = after;
        other_place = other_after;
    }
    other_place >= other.end
}

/// Whether two structures, and what stands below each up to the end of its places, are told to be alike. Where they are, the work has the
/// siblings that it had.
#[cycle(pairs)]
#[inline(always)]
fn are_trees_alike<F: Forest, G: Forest>(
    first: &Writer<'_, '_, F>,
    second: &Writer<'_, '_, G>,
    level: u8,
    tree: Places,
    other: Places,
    work: &mut PairWork,
) -> Result<bool, AllocError>
    requires shallow { level < 100 }
    requires tree { StandsAlone (F.trees first.now.forest.now) tree.start tree.end }
    requires other { StandsAlone (G.trees second.now.forest.now) other.start other.end }
    ensures kept { IfOk result (λ same. IsTrue same → work.new.siblings.items ≡ work.old.siblings.items) }
    ensures others_kept { IfOk result (λ same. IsTrue same → work.new.others.items ≡ work.old.others.items) }
    ensures same { ByNames (F.trees first.now.forest.now) first.now.plan (G.trees second.now.forest.now) second.now.plan (λ new new_other. IfOk result (λ same. IsTrue same
        → TreesAlike (F.trees first.now.forest.now) tree.start tree.end (G.trees second.now.forest.now) other.start other.end new new_other)) }
{
    if !is_alike(
        first,
        second,
        level,
        tree.start,
        other.start,
        &mut work.cursors,
    ) {
        return Ok(false);
    }
    let below = Places {
        start: tree.start + 1,
        end: tree.end,
    };
    let other_below = Places {
        start: other.start + 1,
        end: other.end,
    };
    if below.start >= below.end {
        return Ok(other_below.start >= other_below.end);
    }
    are_runs_alike(first, second, level + 1, below, other_below, work)
}

/// Whether two runs of structures, which are no records, and what stands below them, are told to become the same.
#[cycle(pairs)]
#[inline(never)]
fn are_runs_alike<F: Forest, G: Forest>(
    first: &Writer<'_, '_, F>,
    second: &Writer<'_, '_, G>,
    level: u8,
    run: Places,
    other: Places,
    work: &mut PairWork,
) -> Result<bool, AllocError>
    requires run { StandTogether (F.trees first.now.forest.now) run.start run.end }
    requires other { StandTogether (G.trees second.now.forest.now) other.start other.end }
    ensures kept { IfOk result (λ same. IsTrue same → work.new.siblings.items ≡ work.old.siblings.items) }
    ensures others_kept { IfOk result (λ same. IsTrue same → work.new.others.items ≡ work.old.others.items) }
    ensures same { ByNames (F.trees first.now.forest.now) first.now.plan (G.trees second.now.forest.now) second.now.plan (λ new new_other. IfOk result (λ same. IsTrue same
        → BecomeSame new new_other (trees_between (F.trees first.now.forest.now) run.start run.end) (trees_between (G.trees second.now.forest.now) other.start other.end))) }
{
    if level > DEEPEST {
        return Ok(false);
    }
    if !have_same_tags(first.forest, run, second.forest, other) {
        return are_sorted_alike(first, second, level, run, other, work);
    }
    let mut place = run.start;
    let mut other_place = other.start;
    while let Some(after) = next_in_run(first.forest, place, run.end) {
        let Some(other_after) = next_in_run(second.forest, other_place, other.end) else {
            return Ok(false);
        };
        let tree = Places {
            start: place,
            end: after,
        };
        let other_tree = Places {
            start: other_place,
            end: other_after,
        };
        if !are_trees_alike(first, second, level, tree, other_tree, work)? {
            return Ok(false);
        }
        place = after;
        other_place = other_after;
    }
    Ok(other_place >= other.end)
}

/// The same where the structures have to be put in order first.
#[cycle(pairs)]
#[inline(never)]
fn are_sorted_alike<F: Forest, G: Forest>(
    first: &Writer<'_, '_, F>,
    second: &Writer<'_, '_, G>,
    level: u8,
    run: Places,
    other: Places,
    work: &mut PairWork,
) -> Result<bool, AllocError>
    requires shallow { level < 100 }
    requires run { StandTogether (F.trees first.now.forest.now) run.start run.end }
    requires other { StandTogether (G.trees second.now.forest.now) other.start other.end }
    ensures kept { IfOk result (λ same. IsTrue same → work.new.siblings.items ≡ work.old.siblings.items) }
    ensures others_kept { IfOk result (λ same. IsTrue same → work.new.others.items ≡ work.old.others.items) }
    ensures same { ByNames (F.trees first.now.forest.now) first.now.plan (G.trees second.now.forest.now) second.now.plan (λ new new_other. IfOk result (λ same. IsTrue same
        → BecomeSame new new_other (trees_between (F.trees first.now.forest.now) run.start run.end) (trees_between (G.trees second.now.forest.now) other.start other.end))) }
{
    let alloc = first.plan.alloc;
    let base = work.siblings.len();
    let other_base = work.others.len();
    push_sorted(alloc, first.forest, run.start, run.end, &mut work.siblings)?;
    push_sorted(
        alloc,
        second.forest,
        other.start,
        other.end,
        &mut work.others,
    )?;
    let count = work.siblings.len() - base;
    if work.others.len() - other_base != count {
        return Ok(false);
    }
    let mut number = 0;
    while number < count {
        let start = work.siblings[base + number].place;
        let other_start = work.others[other_base + number].place;
        let tree = Places {
            start,
            end: first.forest.after(start),
        };
        let other_tree = Places {
            start: other_start,
            end: second.forest.after(other_start),
        };
        if !are_trees_alike(first, second, level, tree, other_tree, work)? {
            return Ok(false);
        }
        number += 1;
    }
    work.siblings.truncate(base);
    work.others.truncate(other_base);
    Ok(true)
}

/// Whether two records, or both HEADs, are told to become the same. Nothing is written, and where it is not told, they may be the same all the
/// same.
pub(crate) fn are_records_alike<F: Forest, G: Forest>(
    first: &Writer<'_, '_, F>,
    second: &Writer<'_, '_, G>,
    sibling: RankedSibling,
    other: RankedSibling,
    work: &mut PairWork,
) -> Result<bool, AllocError>
    requires edition { first.now.plan.edition ≡ second.now.plan.edition }
    requires first { CanWriteRecords (is_named (F.trees first.now.forest.now)) first.now.plan.edition (F.trees first.now.forest.now) (sibling ∷ []) }
    requires second { CanWriteRecords (is_named (G.trees second.now.forest.now)) second.now.plan.edition (G.trees second.now.forest.now) (other ∷ []) }
    ensures { (names other_names : List Bytes) → IsNumberingOf (F.trees first.now.forest.now) names first.now.plan.index.now first.now.plan.numbers.now → AreNamed (F.trees first.now.forest.now) names
        → IsNumberingOf (G.trees second.now.forest.now) other_names second.now.plan.index.now second.now.plan.numbers.now → AreNamed (G.trees second.now.forest.now) other_names
        → IfOk result (λ same. IsTrue same → numbered_siblings (is_named (F.trees first.now.forest.now)) first.now.plan.edition names (F.trees first.now.forest.now) (sibling ∷ [])
        ≡ numbered_siblings (is_named (G.trees second.now.forest.now)) second.now.plan.edition other_names (G.trees second.now.forest.now) (other ∷ [])) }
{
    work.siblings.clear();
    work.others.clear();
    let place = sibling.place;
    let other_place = other.place;
    let number = first.own_number(place, &mut work.cursors.records);
    if second.own_number(other_place, &mut work.cursors.other_records) != number {
        return Ok(false);
    }
    let tree = Places {
        start: place,
        end: first.forest.after(place),
    };
    let other_tree = Places {
        start: other_place,
        end: second.forest.after(other_place),
    };
    are_trees_alike(first, second, 0, tree, other_tree, work)
}
