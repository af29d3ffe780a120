// Long runs of siblings with few different tags, put in order without comparing siblings with one another.
ghost use Rattle.std.specs.Prelude.{◌≡◌, ◌<◌, [], Bool, false, IsTrue, IfOk, OnOk, IfSome, length, slice_index_or};
ghost use Rattle.std.specs.List.{AllByRecursion};
ghost use Rattle.std.specs.List.Sorted.{IsPermutation};
ghost use Rattle.ged_line.specs.Bytes.{Bytes};
ghost use Rattle.ged_tree.specs.Trees.{Trees};
ghost use Rattle.ged_schema.specs.declared.context.Context.{Context as AnyContext};
ghost use Rattle.ged_canon.specs.declared.edition.Edition.{Edition as AnyEdition};
ghost use Rattle.ged_canon.specs.inner.Working.{grouped};
ghost use Rattle.ged_canon.specs.inner.Siblings.{StandsRanked, AreGrouped};
ghost use Rattle.ged_canon.specs.inner.Gathered.{IsRising, IsAmongRanks, groups_of, members, joined, placed};

use crate::writer::rank::RankedSibling;
use std::alloc::{AllocError, Global};

/// How many different tags are gathered at most.
const MOST_TAGS: usize = 16;

/// How many siblings of one tag stand together, on average, in a run that is sorted by comparison as quickly.
const LONG_STRETCH: usize = 4;

/// A rank, and how many siblings have it.
#[derive(Clone, Copy, Debug)]
struct Tally {
    rank: u64,
    count: usize,
}

/// Counts one more sibling of a rank, and answers whether the rank is among these.
#[inline(always)]
fn has_counted(tallies: &mut [Tally], rank: u64) -> bool {
    for tally in tallies.iter_mut() {
        if tally.rank == rank {
            tally.count = tally.count.wrapping_add(1);
            return true;
        }
    }
    false
}

/// Whether siblings of one tag mostly stand apart from one another. Others are in stretches, which a sort by comparison takes as they are.
fn are_mixed(siblings: &[RankedSibling]) -> bool {
    let few = siblings.len() / LONG_STRETCH;
    let mut stretches = 0usize;
    let mut last = u64::MAX;
    for each in siblings {
        if each.rank != last {
            last = each.rank;
            stretches = stretches.wrapping_add(1);
            if stretches > few {
                return true;
            }
        }
    }
    false
}

/// The ranks of siblings, the lowest first, and how many have each; none where there are more than [`MOST_TAGS`]. This is a guess, which
/// whoever makes groups by it tests. Grows.
fn tallies_of(alloc: Global, siblings: &[RankedSibling]) -> Result<Vec<Tally>, AllocError> {
    let mut tallies = Vec::with_capacity(alloc, MOST_TAGS)?;
    for each in siblings {
        if !has_counted(&mut tallies, each.rank) {
            if tallies.len() == MOST_TAGS {
                return Ok(Vec::new(alloc));
            }
            tallies.push(Tally {
                rank: each.rank,
                count: 1,
            })?;
        }
    }
    tallies.sort_unstable_by_key(|tally: &Tally| tally.rank);
    Ok(tallies)
}

/// Appends the ranks, and for each a group with room for its siblings, and answers whether the ranks rise and are of short tags. Grows.
fn make_groups(
    alloc: Global,
    tallies: &[Tally],
    ranks: &mut Vec<u64>,
    groups: &mut Vec<Vec<RankedSibling>>,
) -> Result<bool, AllocError>
    requires no_rank { ranks.old.items ≡ [] }
    requires no_group { groups.old.items ≡ [] }
    ensures rising { IfOk result (λ fit. IsTrue fit → IsRising ranks.new.items) }
    ensures empty { IfOk result (λ fit. IsTrue fit → members groups.new.items ≡ groups_of ranks.new.items []) }
{
    let mut least = 0;
    for tally in tallies {
        if tally.rank < least || tally.rank % 256 > 8 {
            return Ok(false);
        }
        ranks.push(tally.rank)?;
        groups.push(Vec::with_capacity(alloc, tally.count)?)?;
        least = tally.rank + 1;
    }
    Ok(true)
}

/// Where a rank stands among others.
#[inline(always)]
fn place_of(ranks: &[u64], rank: u64) -> Option<usize>
    ensures { IfSome result (λ at. (at < length ranks.now) × (slice_index_or ranks.now at 0 ≡ rank)) }
{
    let mut at = 0;
    while at < ranks.len() {
        if ranks[at] == rank {
            return Some(at);
        }
        at += 1;
    }
    None
}

/// Appends a sibling to the group at a place. Grows.
#[inline(always)]
fn push_at(
    groups: &mut [Vec<RankedSibling>],
    at: usize,
    sibling: RankedSibling,
) -> Result<(), AllocError>
    requires { at < length groups.old }
    ensures { OnOk result (members groups.new ≡ placed (members groups.old) at sibling) }
{
    groups[at].push(sibling)?;
    Ok(())
}

/// Appends siblings to the groups of their ranks, each to one, and answers whether each has its rank among these. Grows.
fn fill_groups(
    siblings: &[RankedSibling],
    ranks: &[u64],
    groups: &mut [Vec<RankedSibling>],
) -> Result<bool, AllocError>
    requires rising { IsRising ranks.now }
    requires empty { members groups.old ≡ groups_of ranks.now [] }
    ensures filled { IfOk result (λ all. IsTrue all → members groups.new ≡ groups_of ranks.now siblings.now) }
    ensures among { IfOk result (λ all. IsTrue all → AllByRecursion (IsAmongRanks ranks.now) siblings.now) }
{
    for each in siblings {
        let Some(at) = place_of(ranks, each.rank) else {
            return Ok(false);
        };
        push_at(groups, at, *each)?;
    }
    Ok(true)
}

/// Writes the siblings of all groups, those of the first one first.
fn write_groups(groups: &[Vec<RankedSibling>], siblings: &mut [RankedSibling])
    requires { length (joined (members groups.now)) ≡ length siblings.old }
    ensures { siblings.new ≡ joined (members groups.now) }
{
    let mut at = 0;
    for group in groups {
        let end = at + group.len();
        siblings[at..end].copy_from_slice(group.as_slice());
        at = end;
    }
}

/// Puts siblings in the order of their tags by empty groups for these ranks, and answers whether each has its rank among these; those with
/// one tag keep their order. Else they stay as they are. Grows.
fn place_siblings(
    ranks: &[u64],
    groups: &mut [Vec<RankedSibling>],
    siblings: &mut [RankedSibling],
) -> Result<bool, AllocError>
    requires rising { IsRising ranks.now }
    requires empty { members groups.old ≡ groups_of ranks.now [] }
    ensures permutation { IsPermutation siblings.old siblings.new }
    ensures trees { (d : Trees) → AllByRecursion (StandsRanked d) siblings.old → IfOk result (λ all. IsTrue all → AreGrouped d siblings.old siblings.new) }
    ensures unchanged { IfOk result (λ all. all ≡ false → siblings.new ≡ siblings.old) }
{
    if !fill_groups(siblings, ranks, groups)? {
        return Ok(false);
    }
    write_groups(groups, siblings);
    Ok(true)
}

/// Puts siblings in the order of their tags, where these are few, short and mixed, and answers whether it has; those with one tag keep
/// their order. Else they stay as they are. Grows.
#[cold]
#[inline(never)]
pub(crate) fn gather_siblings(
    alloc: Global,
    siblings: &mut [RankedSibling],
) -> Result<bool, AllocError>
    ensures permutation { IsPermutation siblings.old siblings.new }
    ensures trees { (d : Trees) → AllByRecursion (StandsRanked d) siblings.old → IfOk result (λ all. IsTrue all → AreGrouped d siblings.old siblings.new) }
    ensures unchanged { IfOk result (λ all. all ≡ false → siblings.new ≡ siblings.old) }
{
    if !are_mixed(siblings) {
        return Ok(false);
    }
    let tallies = tallies_of(alloc, siblings)?;
    let mut ranks = Vec::with_capacity(alloc, tallies.len())?;
    let mut groups = Vec::with_capacity(alloc, tallies.len())?;
    if !make_groups(alloc, &tallies, &mut ranks, &mut groups)? {
        return Ok(false);
    }
    place_siblings(&ranks, &mut groups, siblings)
}
