// Where the pointers of a document lead: the records that they name, and the links between records.
ghost use Rattle.std.specs.Prelude.{◌≡◌, ◌<◌, ◌≤◌, ◌+◌, ◌⊎◌, ℕ, true, false, Some, IsTrue, ◌↔◌, IfOk, IfErr, IfSome, OnOk, length, nat_eq, ◌==◌, ◌&&◌, ◌||◌, option_map, alloc_error};
ghost use Rattle.ged_line.specs.Bytes.{Bytes};
ghost use Rattle.ged_tree.specs.Trees.{records_of, trees_count};
ghost use Rattle.ged_tree.specs.Places.{structure_at, level_at};
ghost use Rattle.ged_tree.specs.Runs.{trees_between, IsRunOfTrees};
ghost use Rattle.ged_tree.specs.Views.{is_pointer};
ghost use Rattle.ged_tree.specs.declared.payload.Payload.TheVariants.{Pointer};
ghost use Rattle.ged_link.specs.Links.{identifiers};
ghost use Rattle.ged_link.specs.LinkFaults.{HasLinkFault, IsRepeated, IsDangling};
ghost use Rattle.ged_link.specs.Indexes.{found_in, place_in};
ghost use Rattle.ged_link.specs.RecordTypes.{IsTypeOf};
ghost use Rattle.ged_link.specs.inner.Listing.{AreTypesOf};
ghost use Rattle.ged_link.specs.inner.LinkWalks.{target, linked, is_place, has_link_to};
ghost use Rattle.ged_link.specs.inner.PairSets.{lists_have, AreLinks};
ghost use Rattle.ged_link.specs.inner.PointerLists.{pointers, IsListedPointer, AreListedFirst};
ghost use Rattle.ged_link.specs.inner.PointerTags.{IsTold};
ghost use Rattle.ged_link.specs.Targets.{AreTargets};
ghost use Rattle.ged_link.specs.LedByTags.{AreLed};
ghost use Rattle.ged_link.specs.inner.Resolving.{AreFollowed, AreKnown, AreUsed};
ghost use Rattle.ged_link.specs.declared.pointers.Pointed.{Pointed};
ghost use Rattle.ged_link.specs.declared.pairs.Role.{Role};
ghost use Rattle.ged_link.specs.declared.fault.LinkFault.TheVariants.{Memory};

use crate::fault::LinkFault;
use crate::index::RecordPlace;
use crate::link_lists::LinkLists;
use crate::listed_pointer::listed_in;
use crate::names::Names;
use crate::naming_order::{NamingOrder, find_named};
use crate::pointer_list::PointerList;
use crate::pointer_tag::PointerTag;
use crate::record_type::{RecordType, leads_as_tagged, type_behind_head};
use crate::targets::Target;
use ged_tree::{Forest, PayloadView};
use std::alloc::{AllocError, Global};

/// What is known of the records that the pointers of a document name.
#[derive(Drop)]
pub(crate) struct Followed {
    /// Whether some pointer names a record, by the record's number.
    pub(crate) used: Vec<bool>,
    /// What the pointers name, in the order of their places.
    pub(crate) targets: Vec<Target>,
    /// Whether each pointer whose tag says what it leads to leads to a record of that type.
    pub(crate) led: bool,
}

/// The same while the pointers are followed: `used` and `led` tell of those so far.
#[derive(Drop)]
pub(crate) struct Following {
    pub(crate) used: Vec<bool>,
    /// What they name, and what is listed of those that are left.
    pub(crate) list: PointerList,
    /// Which record the next pointer may name of which nothing is listed.
    pub(crate) order: NamingOrder,
    pub(crate) led: bool,
}

/// The records of a document by their identifiers, and the type and the place of each record by its number.
#[derive(Clone, Copy)]
pub(crate) struct Records<'r> {
    pub(crate) names: &'r Names,
    pub(crate) types: &'r [Option<RecordType>],
    pub(crate) places: &'r [u32],
    /// Whether no identifier is longer than [`crate::naming_order::LONGEST_COMPARED`].
    pub(crate) are_comparable: bool,
}

/// What a pointer tells: where the record stands that it names, and by its tag.
#[derive(Clone, Copy)]
struct Pointed {
    to: RecordPlace,
    told: PointerTag,
}

/// What the pointer at a place tells by its text, or `None` where it names no record.
#[inline(never)]
fn read_pointer<F: Forest>(
    forest: &F,
    records: &Records<'_>,
    place: usize,
    order: NamingOrder,
) -> Option<Pointed>
    requires within { place < trees_count (F.trees forest.now) }
    requires records { AreKnown (F.trees forest.now) records.now }
    ensures { (name : Bytes) → (structure_at (F.trees forest.now) place).payload ≡ Pointer name
        → (option_map (λ (pointed : Pointed). pointed.to) result ≡ found_in records.now.names.now name)
        × IfSome result (λ pointed. IsTold pointed.told (structure_at (F.trees forest.now) place).tag) }
{
    let (tag, payload) = forest.tag_and_payload(place);
    let PayloadView::Pointer(name) = payload else {
        return None;
    };
    let to = find_named(forest, records, order, name)?;
    let told = PointerTag::of(tag);
    Some(Pointed { to, told })
}

/// The same by what is listed of the pointer, or where nothing is, by its text.
#[inline(always)]
fn look_up<F: Forest>(
    forest: &F,
    records: &Records<'_>,
    place: usize,
    listed: Target,
    order: &mut NamingOrder,
) -> Option<Pointed>
    requires within { place < trees_count (F.trees forest.now) }
    requires records { AreKnown (F.trees forest.now) records.now }
    requires listed { (name : Bytes) → (structure_at (F.trees forest.now) place).payload ≡ Pointer name
        → IsListedPointer listed (structure_at (F.trees forest.now) place).tag name }
    ensures { (name : Bytes) → (structure_at (F.trees forest.now) place).payload ≡ Pointer name
        → (option_map (λ (pointed : Pointed). pointed.to) result ≡ found_in records.now.names.now name)
        × IfSome result (λ pointed. IsTold pointed.told (structure_at (F.trees forest.now) place).tag) }
{
    let Some(listed) = listed_in(listed) else {
        // Put together anew, so that what is answered here stays in registers where no call is made.
        let Pointed { to, told } = read_pointer(forest, records, place, *order)?;
        order.note(to.number);
        return Some(Pointed { to, told });
    };
    let to = records.names.find_counted(listed.bits)?;
    let told = listed.told;
    Some(Pointed { to, told })
}

/// Marks the record that the pointer at a place names, and answers where it stands, with what the pointer's tag tells; or the fault of a
/// pointer that names no record.
#[inline(always)]
fn follow<F: Forest>(
    forest: &F,
    records: &Records<'_>,
    place: usize,
    followed: &mut Following,
) -> Result<Pointed, LinkFault>
    requires within { place < trees_count (F.trees forest.now) }
    requires pointer { is_pointer (structure_at (F.trees forest.now) place).payload ≡ true }
    requires records { AreKnown (F.trees forest.now) records.now }
    requires distinct { (place : ℕ) → IsRepeated (F.trees forest.now) place → ⊥ }
    requires used { AreFollowed (F.trees forest.now) place followed.old }
    ensures used { OnOk result (AreFollowed (F.trees forest.now) (place + 1) followed.new) }
    ensures tag { IfOk result (λ pointed. IsTold pointed.told (structure_at (F.trees forest.now) place).tag) }
    ensures target { IfOk result (λ pointed. target (place_in records.now.names.now) (structure_at (F.trees forest.now) place).payload ≡ Some pointed.to.place) }
    ensures fault { IfErr result (λ fault. (fault ≡ Memory alloc_error) ⊎ HasLinkFault (F.trees forest.now) fault) }
{
    let listed = followed.list.take_next();
    let Some(pointed) = look_up(forest, records, place, listed, &mut followed.order) else {
        return Err(LinkFault::Dangling(forest.line(place)));
    };
    let found = pointed.to;
    followed.used[found.number] = true;
    let Ok(()) = followed.list.put_target(place, found.number) else {
        return Err(LinkFault::Memory(AllocError));
    };
    followed.led &= leads_as_tagged(records.types, pointed.told, found.number);
    Ok(pointed)
}

/// Marks the record that a structure in another record points to, and adds the link of both where it is one: only structures directly
/// under a record, at level 1, tell links.
#[inline(always)]
fn follow_link<F: Forest>(
    forest: &F,
    records: &Records<'_>,
    from: usize,
    from_type: Option<RecordType>,
    place: usize,
    followed: &mut Following,
    lists: &mut LinkLists,
) -> Result<(), LinkFault>
    requires from { IsTypeOf from_type (structure_at (F.trees forest.now) from).tag }
    requires within { place < trees_count (F.trees forest.now) }
    requires records { AreKnown (F.trees forest.now) records.now }
    requires distinct { (place : ℕ) → IsRepeated (F.trees forest.now) place → ⊥ }
    requires used { AreFollowed (F.trees forest.now) place followed.old }
    ensures used { OnOk result (AreFollowed (F.trees forest.now) (place + 1) followed.new) }
    ensures links { OnOk result ((role : Role) (pair : ℕ × ℕ) → lists_have lists.new role pair
        ≡ (((level_at 0 (F.trees forest.now) place == 1 && nat_eq pair.0 from) && is_place (linked (place_in records.now.names.now) role (structure_at (F.trees forest.now) from).tag (structure_at (F.trees forest.now) place)) pair.1)
        || lists_have lists.old role pair)) }
    ensures fault { IfErr result (λ fault. (fault ≡ Memory alloc_error) ⊎ HasLinkFault (F.trees forest.now) fault) }
{
    if !forest.points(place) {
        return Ok(());
    }
    let pointed = follow(forest, records, place, followed)?;
    if forest.level(place) != 1 {
        return Ok(());
    }
    let Some(role) = pointed.told.role_under(from_type) else {
        return Ok(());
    };
    lists.push(role, from, pointed.to)?;
    Ok(())
}

/// Which records some pointer names, and the links of all records, added to a list of none; or the fault of the first pointer that names
/// no record. Of the first of the pointers, or of all, it is listed what they tell.
pub(crate) fn follow_pointers<F: Forest>(
    alloc: Global,
    forest: &F,
    records: &Records<'_>,
    none: LinkLists,
    listed: Vec<Target>,
) -> Result<(Followed, LinkLists), LinkFault>
    requires records { AreKnown (F.trees forest.now) records.now }
    requires types { AreTypesOf records.now.types.now (records_of (F.trees forest.now)) }
    requires listed { AreListedFirst listed.items (pointers (F.trees forest.now)) }
    requires none { (role : Role) (pair : ℕ × ℕ) → lists_have none role pair ≡ false }
    requires distinct { (place : ℕ) → IsRepeated (F.trees forest.now) place → ⊥ }
    ensures used { IfOk result (λ followed. AreUsed (F.trees forest.now) followed.0.used.items) }
    ensures targets { IfOk result (λ followed. AreTargets (F.trees forest.now) followed.0.targets.items) }
    ensures led { IfOk result (λ followed. IsTrue followed.0.led ↔ AreLed (F.trees forest.now) (F.trees forest.now)) }
    ensures found { IfOk result (λ _. (place : ℕ) → IsDangling (F.trees forest.now) place → ⊥) }
    ensures links { IfOk result (λ followed. AreLinks (place_in records.now.names.now) (F.trees forest.now) followed.1) }
    ensures fault { IfErr result (λ fault. (fault ≡ Memory alloc_error) ⊎ HasLinkFault (F.trees forest.now) fault) }
{
    let used = vec![in alloc; false; records.types.len()]?;
    let mut followed = Following {
        used,
        list: PointerList::new(listed),
        order: NamingOrder::new(),
        led: true,
    };
    let mut lists = none;
    let mut from = 0;
    let mut from_type = None;
    let mut begun: usize = 0;
    for place in 0..forest.size() {
        if forest.level(place) == 0 {
            from = place;
            from_type = type_behind_head(records.types, begun);
            begun += 1;
            lists.begin_record()?;
        }
        follow_link(
            forest,
            records,
            from,
            from_type,
            place,
            &mut followed,
            &mut lists,
        )?;
    }
    let Following {
        used,
        list,
        order: _,
        led,
    } = followed;
    let targets = list.into_targets();
    Ok((Followed { used, targets, led }, lists))
}
