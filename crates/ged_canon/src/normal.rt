// Whether a document is normal.
ghost use Rattle.std.specs.Prelude.{◌↔◌, IsTrue};
ghost use Rattle.ged_tree.specs.Runs.{IsRunOfTrees, trees_between};
ghost use Rattle.ged_link.specs.Indexes.{IsIndexOf};
ghost use Rattle.ged_canon.specs.declared.edition.Edition.TheVariants.{First};
ghost use Rattle.ged_canon.specs.Normal.{AreNormal, Normal};
ghost use Rattle.ged_canon.specs.inner.Working.{HaveOwnNumbers};

use crate::edition::Edition;
use crate::writer::brief::is_brief_at;
use crate::writer::numbers::is_numbered;
use crate::writer::order::are_in_order;
use ged_link::Index;
use ged_schema::{Context, lookup_name};
use ged_tree::{Forest, end_of_all, next_in_run};

/// Whether the payloads of a run's structures and of those below them are brief, and what stands below each of them is in
/// the order of tags.
fn are_normal<F: Forest>(
    forest: &F,
    edition: Edition,
    context: Context,
    start: usize,
    end: usize,
) -> bool
    requires { IsRunOfTrees (F.trees forest.now) start end }
    ensures { IsTrue result ↔ AreNormal edition context (trees_between (F.trees forest.now) start end) }
{
    let mut place = start;
    while let Some(after) = next_in_run(forest, place, end) {
        let below = match lookup_name(context, forest.tag(place)) {
            Some(rule) if is_brief_at(forest, edition, &rule, place) => rule.below,
            Some(_) => return false,
            None => Context::Unchecked,
        };
        if !are_in_order(forest, place + 1, after)
            || !are_normal(forest, edition, below, place + 1, after)
        {
            return false;
        }
        place = after;
    }
    true
}

/// Whether a document is normal, so that it is its own canonical form: substructures and records stand in the order of
/// their tags, the identifiers that pointers name are X1, X2, and so on, the other records have none, and nothing without
/// meaning is left in a payload. Takes no memory (FamilySearch GEDCOM 7.0, "Structures", "Lines", "Date" and "Integer").
pub fn is_normal_in<F: Forest>(edition: Edition, forest: &F, index: &Index) -> bool
    requires { IsIndexOf (F.trees forest.now) index.now }
    ensures { IsTrue result ↔ Normal edition (F.trees forest.now) }
{
    let end = end_of_all(forest);
    match next_in_run(forest, 0, end) {
        Some(records) => {
            are_normal(forest, edition, Context::File, 0, end)
                && are_in_order(forest, records, end)
                && have_own_numbers(forest, index, records, end)
        }
        None => true,
    }
}

/// Whether a document is normal in the first edition, as [`is_normal_in`] tells. Takes no memory.
pub fn is_normal<F: Forest>(forest: &F, index: &Index) -> bool
    requires { IsIndexOf (F.trees forest.now) index.now }
    ensures { IsTrue result ↔ Normal First (F.trees forest.now) }
{
    is_normal_in(Edition::First, forest, index)
}

/// Whether the identifiers of the records, which are a run, are X1, X2, and so on, and a pointer names each.
pub(crate) fn have_own_numbers<F: Forest>(
    forest: &F,
    index: &Index,
    start: usize,
    end: usize,
) -> bool
    requires run { IsRunOfTrees (F.trees forest.now) start end }
    requires index { IsIndexOf (F.trees forest.now) index.now }
    ensures { IsTrue result ↔ HaveOwnNumbers (F.trees forest.now) 1 0 (trees_between (F.trees forest.now) start end) }
{
    let mut named = 0;
    let mut number = 0;
    let mut place = start;
    while let Some(after) = next_in_run(forest, place, end) {
        if let Some(name) = forest.xref(place) {
            if !is_numbered(name, named + 1) || !index.is_used(number) {
                return false;
            }
            named += 1;
        }
        number += 1;
        place = after;
    }
    true
}
