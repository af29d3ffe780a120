// Whether structures stand in the order of their tags.
ghost use Rattle.std.specs.Prelude.{◌<◌, ◌↔◌, Some, IsTrue};
ghost use Rattle.ged_tree.specs.Runs.{IsRunOfTrees, trees_between};
ghost use Rattle.ged_canon.specs.Normal.{InOrder};

use crate::writer::rank::{may_precede, rank_of};
use ged_tree::{Forest, next_in_run};

/// Whether the structures of a run stand in the order of their tags.
#[inline(always)]
pub(crate) fn are_in_order<F: Forest>(forest: &F, start: usize, end: usize) -> bool
    requires { IsRunOfTrees (F.trees forest.now) start end }
    ensures { IsTrue result ↔ InOrder (trees_between (F.trees forest.now) start end) }
{
    let Some(mut place) = next_in_run(forest, start, end) else {
        return true;
    };
    if place >= end {
        return true;
    }
    let mut before = forest.tag(start);
    let mut rank = rank_of(before);
    while let Some(after) = next_in_run(forest, place, end) {
        let tag = forest.tag(place);
        let next = rank_of(tag);
        if !may_precede(rank, before, next, tag) {
            return false;
        }
        before = tag;
        rank = next;
        place = after;
    }
    true
}

/// How many structures a record has, at least, whose run is put in order without a look at whether it is already.
const FEW: usize = 8;

/// For so many and more it is looked at.
const MANY: usize = 256;

/// Whether the structures of a run at a level are told to stand in the order of their tags. Those right below a record seldom do, as
/// programs write them, so it is not looked at for a record of ordinary size.
#[inline(always)]
pub(crate) fn are_told_in_order<F: Forest>(forest: &F, level: u8, start: usize, end: usize) -> bool
    requires { IsRunOfTrees (F.trees forest.now) start end }
    ensures { IsTrue result → InOrder (trees_between (F.trees forest.now) start end) }
{
    if level == 1 && (FEW..MANY).contains(&(end - start)) {
        return false;
    }
    are_in_order(forest, start, end)
}
