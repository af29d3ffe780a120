// Siblings put in the order of their tags by comparing them with one another.
ghost use Rattle.std.specs.Prelude.{◌≡◌, IsTrue, IfOk, OnOk, length};
ghost use Rattle.std.specs.List.{AllByRecursion};
ghost use Rattle.std.specs.List.Sorted.{IsPermutation};
ghost use Rattle.std.specs.Ordering.{nat_cmp};
ghost use Rattle.std.specs.Cmp.Lexicographic.{slice_cmp};
ghost use Rattle.ged_line.specs.Names.{tag_order as order_of_tags};
ghost use Rattle.ged_tree.specs.Trees.{Trees};
ghost use Rattle.ged_tree.specs.Places.{structure_at};
ghost use Rattle.ged_canon.specs.inner.Siblings.{StandsRanked, AreGrouped, HasOwnTag, untagged, IsTold, rank_key, sibling_key};

use crate::writer::rank::{RankedSibling, TaggedSibling, ranked_order};
use ged_tree::Forest;
use std::alloc::{AllocError, Global};
use std::cmp::Ordering;

/// These siblings with their tags. Takes memory.
fn tagged_siblings<'a, F: Forest>(
    alloc: Global,
    forest: &'a F,
    siblings: &[RankedSibling],
) -> Result<Vec<TaggedSibling<'a>>, AllocError>
    requires { AllByRecursion (StandsRanked (F.trees forest.now)) siblings.now }
    ensures siblings { IfOk result (λ tagged. untagged tagged.items ≡ siblings.now) }
    ensures tags { IfOk result (λ tagged. AllByRecursion (HasOwnTag (F.trees forest.now)) tagged.items) }
{
    let mut tagged = Vec::with_capacity(alloc, siblings.len())?;
    for each in siblings {
        let tag = forest.tag(each.place);
        tagged.push(TaggedSibling {
            tag,
            sibling: *each,
        })?;
    }
    Ok(tagged)
}

/// Writes these siblings over as many.
fn write_back(tagged: &[TaggedSibling<'_>], siblings: &mut [RankedSibling])
    requires { length tagged.now ≡ length siblings.old }
    ensures { siblings.new ≡ untagged tagged.now }
{
    for (number, each) in tagged.iter().enumerate() {
        siblings[number] = each.sibling;
    }
}

/// The order of two siblings by the ranks of their tags alone.
#[inline(always)]
fn rank_order(first: &RankedSibling, other: &RankedSibling) -> Ordering
    ensures { result ≡ order_of_tags (rank_key first.now) (rank_key other.now) }
{
    first.rank.cmp(&other.rank)
}

/// Puts siblings whose ranks tell all of their tags in the order of these; those with one tag keep their order. Takes memory for
/// more than 20.
#[inline(always)]
fn compare_told(alloc: Global, siblings: &mut [RankedSibling]) -> Result<(), AllocError>
    requires { AllByRecursion IsTold siblings.old }
    ensures permutation { IsPermutation siblings.old siblings.new }
    ensures trees { (d : Trees) → AllByRecursion (StandsRanked d) siblings.old → OnOk result (AreGrouped d siblings.old siblings.new) }
{
    siblings.sort_by(
        alloc,
        |a: &RankedSibling, b: &RankedSibling| rank_order(a, b),
    )
}

/// The same, where each tag is asked of the forest once. Takes memory.
fn compare_tagged<F: Forest>(
    alloc: Global,
    forest: &F,
    siblings: &mut [RankedSibling],
) -> Result<(), AllocError>
    requires { AllByRecursion (StandsRanked (F.trees forest.now)) siblings.old }
    ensures permutation { IsPermutation siblings.old siblings.new }
    ensures trees { OnOk result (AreGrouped (F.trees forest.now) siblings.old siblings.new) }
{
    let mut tagged = tagged_siblings(alloc, forest, siblings)?;
    tagged.sort_by(|a: &TaggedSibling<'_>, b: &TaggedSibling<'_>| {
        ranked_order(a.sibling.rank, a.tag, b.sibling.rank, b.tag)
    })?;
    write_back(&tagged, siblings);
    Ok(())
}

/// The tag of the structure at a place, or no text where the document has none there: a sort does not promise its closure that the siblings
/// stand in the document.
fn tag_at<F: Forest>(forest: &F, place: usize) -> &str
    ensures { result.now ≡ (structure_at (F.trees forest.now) place).tag }
{
    if place < forest.size() {
        return forest.tag(place);
    }
    ""
}

/// Whether the forest has all tags at hand. One that is very long, or stands behind a very long identifier, is found anew in its line
/// each time.
fn are_at_hand<F: Forest>(forest: &F, siblings: &[RankedSibling]) -> bool
    requires { AllByRecursion (StandsRanked (F.trees forest.now)) siblings.now }
{
    for each in siblings {
        if forest.own_line(each.place).is_none() {
            return false;
        }
    }
    true
}

/// The order of the tags at two places, of which each has more than seven bytes and so is not GEDC.
#[cold]
#[inline(never)]
fn order_at<F: Forest>(forest: &F, place: usize, other: usize) -> Ordering
    ensures { result ≡ slice_cmp nat_cmp (structure_at (F.trees forest.now) place).tag (structure_at (F.trees forest.now) other).tag }
{
    let tag = tag_at(forest, place);
    let other_tag = tag_at(forest, other);
    tag.as_bytes().cmp(other_tag.as_bytes())
}

/// The order of two siblings by the ranks of their tags, and by their tags where these have one rank that does not tell all of them.
#[inline(always)]
fn sibling_order<F: Forest>(forest: &F, first: &RankedSibling, other: &RankedSibling) -> Ordering
    ensures { result ≡ order_of_tags (sibling_key (F.trees forest.now) first.now) (sibling_key (F.trees forest.now) other.now) }
{
    if first.rank % 256 > 8 && first.rank == other.rank {
        return order_at(forest, first.place, other.place);
    }
    first.rank.cmp(&other.rank)
}

/// The same for any siblings. Tags that are at hand are asked of the forest at each comparison, so that what is sorted has 16 bytes. Takes
/// memory for others, and for more than 20 siblings.
#[cold]
#[inline(never)]
fn compare_any<F: Forest>(
    alloc: Global,
    forest: &F,
    siblings: &mut [RankedSibling],
) -> Result<(), AllocError>
    requires { AllByRecursion (StandsRanked (F.trees forest.now)) siblings.old }
    ensures permutation { IsPermutation siblings.old siblings.new }
    ensures trees { OnOk result (AreGrouped (F.trees forest.now) siblings.old siblings.new) }
{
    if !are_at_hand(forest, siblings) {
        return compare_tagged(alloc, forest, siblings);
    }
    siblings.sort_by(alloc, |a: &RankedSibling, b: &RankedSibling| {
        sibling_order(forest, a, b)
    })
}

/// Puts siblings in the order of their tags by comparing them; those with one tag keep their order. Long tags are rare: where there are
/// none, which it is given, ranks alone are compared. Takes memory for some long tags, and for more than 20 siblings.
#[inline(always)]
pub(crate) fn compare_siblings<F: Forest>(
    alloc: Global,
    forest: &F,
    siblings: &mut [RankedSibling],
    are_told: bool,
) -> Result<(), AllocError>
    requires stand { AllByRecursion (StandsRanked (F.trees forest.now)) siblings.old }
    requires told { IsTrue are_told → AllByRecursion IsTold siblings.old }
    ensures permutation { IsPermutation siblings.old siblings.new }
    ensures trees { OnOk result (AreGrouped (F.trees forest.now) siblings.old siblings.new) }
{
    if are_told {
        return compare_told(alloc, siblings);
    }
    compare_any(alloc, forest, siblings)
}
