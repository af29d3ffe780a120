// Links between persons and families: those that the other record answers, and those in one direction only.
ghost use Rattle.std.specs.Prelude.{◌≡◌, ◌<◌, ◌+◌, None, IfOk, IfSome, OnOk, ◌++◌, option_map, slice_index_or};
ghost use Rattle.ged_tree.specs.Trees.{trees_count};
ghost use Rattle.ged_tree.specs.Places.{structure_at};
ghost use Rattle.ged_tree.specs.Runs.{trees_between, IsRunOfTrees};
ghost use Rattle.ged_link.specs.Indexes.{place_in};
ghost use Rattle.ged_link.specs.RecordTypes.{IsTypeOf, record_tag as tag_of_type};
ghost use Rattle.ged_link.specs.inner.Resolving.{AreKnown};
ghost use Rattle.ged_link.specs.inner.LinkWalks.{role_under, target, one_way_below, one_way_places};
ghost use Rattle.ged_link.specs.inner.LinkWalks.{is_one_way as one_way_under, other_tag as tag_of_other};
ghost use Rattle.ged_link.specs.inner.PairSets.{AreLinks, AreInOrder};
ghost use Rattle.ged_link.specs.declared.index.RecordPlace.{RecordPlace};

use crate::index::RecordPlace;
use crate::link_lists::LinkLists;
use crate::pairs::{Role, are_answered, has};
use crate::pointers::Records;
use crate::record_type::{RecordType, has_tag_of};
use ged_tree::{Forest, PayloadView, end_of_all, next_in_run};
use std::alloc::{AllocError, Global};

/// The role of the person that a structure directly under a record tells.
#[inline(always)]
pub(crate) fn role_of(record_tag: &str, tag: &str) -> Option<Role>
    ensures { result ≡ role_under record_tag.now tag.now }
{
    if record_tag == "INDI" {
        if tag == "FAMS" {
            Some(Role::Partner)
        } else if tag == "FAMC" {
            Some(Role::Child)
        } else {
            None
        }
    } else if record_tag == "FAM" {
        if tag == "HUSB" || tag == "WIFE" {
            Some(Role::Partner)
        } else if tag == "CHIL" {
            Some(Role::Child)
        } else {
            None
        }
    } else {
        None
    }
}

/// The record that the structure at a place points to. Its type is listed by its number.
fn target_of<F: Forest>(forest: &F, records: &Records<'_>, place: usize) -> Option<RecordPlace>
    requires within { place < trees_count (F.trees forest.now) }
    requires records { AreKnown (F.trees forest.now) records.now }
    ensures place { option_map (λ (r : RecordPlace). r.place) result ≡ target (place_in records.now.names.now) (structure_at (F.trees forest.now) place).payload }
    ensures typed { IfSome result (λ r. IsTypeOf (slice_index_or records.now.types.now r.number None) (structure_at (F.trees forest.now) r.place).tag) }
{
    match forest.payload(place) {
        PayloadView::Pointer(name) => records.names.find(name),
        PayloadView::Void | PayloadView::Text(_) => None,
    }
}

/// The type of the records that the links of persons, or of families, lead to.
fn other_type(record_tag: &str) -> RecordType
    ensures { tag_of_type result ≡ tag_of_other record_tag.now }
{
    if record_tag == "INDI" {
        RecordType::Fam
    } else {
        RecordType::Indi
    }
}

/// Whether a structure directly under a record with a tag is a link that the other record does not answer. A pointer that is no link
/// is not looked up, and the tag of the other record, which may stand on a long line, is not read again for each link.
#[tactic(auto, using(crate::proofs::WalkLemmas::not_one_way))]
fn is_one_way<F: Forest>(
    forest: &F,
    records: &Records<'_>,
    lists: &LinkLists,
    from: usize,
    record_tag: &str,
    place: usize,
) -> bool
    requires record_tag { record_tag.now ≡ (structure_at (F.trees forest.now) from).tag }
    requires within { place < trees_count (F.trees forest.now) }
    requires records { AreKnown (F.trees forest.now) records.now }
    requires links { AreLinks (place_in records.now.names.now) (F.trees forest.now) lists.now }
    requires ordered { AreInOrder lists.now }
    ensures { result ≡ one_way_under (place_in records.now.names.now) (F.trees forest.now) (structure_at (F.trees forest.now) from).tag from (structure_at (F.trees forest.now) place) }
{
    let Some(role) = role_of(record_tag, forest.tag(place)) else {
        return false;
    };
    let Some(other) = target_of(forest, records, place) else {
        return false;
    };
    !has(lists, role, other, from)
        && has_tag_of(records.types, other.number, other_type(record_tag))
}

/// Adds the places of a record's links in one direction only.
#[tactic(auto, using(crate::proofs::WalkLemmas::one_ways))]
fn push_one_way<F: Forest>(
    forest: &F,
    records: &Records<'_>,
    lists: &LinkLists,
    from: usize,
    end: usize,
    places: &mut Vec<usize>,
) -> Result<(), AllocError>
    requires within { from < trees_count (F.trees forest.now) }
    requires run { IsRunOfTrees (F.trees forest.now) (from + 1) end }
    requires records { AreKnown (F.trees forest.now) records.now }
    requires links { AreLinks (place_in records.now.names.now) (F.trees forest.now) lists.now }
    requires ordered { AreInOrder lists.now }
    ensures { OnOk result (places.new.items ≡ places.old.items
        ++ one_way_below (place_in records.now.names.now) (F.trees forest.now) (structure_at (F.trees forest.now) from).tag from (from + 1) (trees_between (F.trees forest.now) (from + 1) end)) }
{
    let record_tag = forest.tag(from);
    let mut place = from + 1;
    while let Some(after) = next_in_run(forest, place, end) {
        if is_one_way(forest, records, lists, from, record_tag, place) {
            places.push(place)?;
        }
        place = after;
    }
    Ok(())
}

/// The places of all links in one direction only, in order, where the lists have all links and are sorted.
#[tactic(auto, using(crate::proofs::WalkLemmas::one_ways))]
fn search_one_way<F: Forest>(
    alloc: Global,
    forest: &F,
    records: &Records<'_>,
    lists: &LinkLists,
) -> Result<Vec<usize>, AllocError>
    requires records { AreKnown (F.trees forest.now) records.now }
    requires links { AreLinks (place_in records.now.names.now) (F.trees forest.now) lists.now }
    requires ordered { AreInOrder lists.now }
    ensures { IfOk result (λ places. places.items ≡ one_way_places (place_in records.now.names.now) (F.trees forest.now) 0 (F.trees forest.now)) }
{
    let mut places = Vec::new(alloc);
    let end = end_of_all(forest);
    let mut place = 0;
    while let Some(after) = next_in_run(forest, place, end) {
        push_one_way(forest, records, lists, place, after, &mut places)?;
        place = after;
    }
    Ok(places)
}

/// The places of all links in one direction only, in order, where all links are listed. Only where some link is not
/// answered at once are they sorted and gone through again. Grows.
pub(crate) fn find_one_way<F: Forest>(
    alloc: Global,
    forest: &F,
    records: &Records<'_>,
    mut lists: LinkLists,
) -> Result<Vec<usize>, AllocError>
    requires records { AreKnown (F.trees forest.now) records.now }
    requires links { AreLinks (place_in records.now.names.now) (F.trees forest.now) lists }
    ensures { IfOk result (λ places. places.items ≡ one_way_places (place_in records.now.names.now) (F.trees forest.now) 0 (F.trees forest.now)) }
{
    if are_answered(&lists) {
        return Ok(Vec::new(alloc));
    }
    lists.sort();
    search_one_way(alloc, forest, records, &lists)
}
