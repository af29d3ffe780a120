// Whether each pointer names one record, and the index of the records.
ghost use Rattle.std.specs.Prelude.{◌≡◌, ◌<◌, ◌⊎◌, ℕ, true, false, IfOk, IfErr, OnOk, List, [], Option, Some, None, map, length, alloc_error};
ghost use Rattle.ged_tree.specs.Trees.{records_of, trees_count};
ghost use Rattle.ged_tree.specs.Documents.{is_document};
ghost use Rattle.ged_tree.specs.DocumentLines.{document_lines};
ghost use Rattle.ged_tree.specs.Places.{structure_at};
ghost use Rattle.ged_tree.specs.Runs.{trees_between, IsRunOfTrees, IsStep};
ghost use Rattle.ged_link.specs.Links.{IsAmong, Resolved, identifiers};
ghost use Rattle.ged_link.specs.LinkFaults.{HasLinkFault, IsRepeated};
ghost use Rattle.ged_link.specs.Places.{ArePlaces};
ghost use Rattle.ged_link.specs.Indexes.{IsIndexOf, AreRecords, AreTyped, found_in};
ghost use Rattle.ged_line.specs.Bytes.{Bytes};
ghost use Rattle.ged_link.specs.NameNumbers.{short_number};
ghost use Rattle.std.specs.HashMap.{hasher_of};
ghost use Rattle.ged_link.specs.declared.keys.KeyedNumbers.{KeyedNumbers};
ghost use Rattle.ged_link.specs.inner.Indexes.{HoldsShort, IsKeyed, IsKeyedShort, numbers_key as key_of_numbers};
ghost use Rattle.ged_link.specs.inner.Listing.{listed_halves, listed_digits, all_halves, all_digits, IsListedFrom, AreTypesOf, IsRecordList};
ghost use Rattle.ged_link.specs.inner.PairSets.{lists_have};
ghost use Rattle.ged_link.specs.inner.PointerLists.{pointers as all_pointers, AreListedFirst};
ghost use Rattle.ged_link.specs.inner.Resolving.{AddsRecord};
ghost use Rattle.ged_link.specs.inner.Slots.{HasNoSlot, IsMissed};
ghost use Rattle.ged_link.specs.declared.pairs.Role.{Role};
ghost use Rattle.ged_link.specs.declared.fault.LinkFault.TheVariants.{Memory};

use crate::fault::LinkFault;
use crate::index::{Index, RecordPlace};
use crate::keys::numbers_key;
use crate::layout::slots_for;
use crate::link_lists::LinkLists;
use crate::links::find_one_way;
use crate::listing::{ListedNames, RecordList, first_record, list_records};
use crate::names::Names;
use crate::naming_order::LONGEST_COMPARED;
use crate::places::push_place;
use crate::pointers::{Records, follow_pointers};
use crate::record_reader::RecordReader;
use crate::record_type::RecordType;
use crate::targets::Target;
use ged_tree::{Forest, LineReader, end_of_all, give_back, next_in_run};
use std::alloc::{AllocError, Global};

/// The index of a document whose identifiers are distinct and each of whose pointers names one of them; else its fault,
/// or that a growth was refused. Grows (FamilySearch GEDCOM 7.0, "Lines").
pub fn resolve<F: Forest>(alloc: Global, forest: &F) -> Result<Index, LinkFault>
    ensures resolved { IfOk result (λ _. Resolved (F.trees forest.now)) }
    ensures index { IfOk result (λ index. IsIndexOf (F.trees forest.now) index) }
    ensures fault { IfErr result (λ fault. (fault ≡ Memory alloc_error) ⊎ HasLinkFault (F.trees forest.now) fault) }
{
    let end = end_of_all(forest);
    let list = list_records(alloc, forest, end)?;
    let pointers = Vec::new(alloc);
    resolve_listed(alloc, forest, end, list, pointers)
}

/// The same index or fault as [`resolve`] answers, for a caller whose reader has listed the records and the pointers while the document's
/// lines were read. Grows (FamilySearch GEDCOM 7.0, "Lines").
pub fn resolve_with<F: Forest>(
    alloc: Global,
    forest: &F,
    records: RecordReader,
) -> Result<Index, LinkFault>
    requires { ⟦<RecordReader as LineReader>⟧.has_read records (document_lines (F.trees forest.now)) }
    ensures resolved { IfOk result (λ _. Resolved (F.trees forest.now)) }
    ensures index { IfOk result (λ index. IsIndexOf (F.trees forest.now) index) }
    ensures fault { IfErr result (λ fault. (fault ≡ Memory alloc_error) ⊎ HasLinkFault (F.trees forest.now) fault) }
{
    let end = end_of_all(forest);
    let RecordReader { list, mut pointers } = records;
    give_back(&mut pointers);
    resolve_listed(alloc, forest, end, list, pointers)
}

/// The same, where the records are listed, and the first of the pointers, or all.
fn resolve_listed<F: Forest>(
    alloc: Global,
    forest: &F,
    end: usize,
    list: RecordList,
    pointers: Vec<Target>,
) -> Result<Index, LinkFault>
    requires end { end ≡ trees_count (F.trees forest.now) }
    requires document { is_document (F.trees forest.now) ≡ true }
    requires list { IsRecordList (F.trees forest.now) list }
    requires pointers { AreListedFirst pointers.items (all_pointers (F.trees forest.now)) }
    ensures resolved { IfOk result (λ _. Resolved (F.trees forest.now)) }
    ensures index { IfOk result (λ index. IsIndexOf (F.trees forest.now) index) }
    ensures fault { IfErr result (λ fault. (fault ≡ Memory alloc_error) ⊎ HasLinkFault (F.trees forest.now) fault) }
{
    let FoundRecords {
        names,
        types,
        places,
        are_comparable,
        none,
    } = find_records(alloc, forest, end, list)?;
    let known = Records {
        names: &names,
        types: &types,
        places: &places,
        are_comparable,
    };
    let (followed, lists) = follow_pointers(alloc, forest, &known, none, pointers)?;
    let one_way = find_one_way(alloc, forest, &known, lists)?;
    Ok(Index {
        records: names,
        types,
        places,
        followed,
        one_way,
    })
}

/// Gives the map of numbers, where it is empty, its key: that of all numbers, which are read here, since in most files each name has a slot.
fn begin_short(alloc: Global, records: &mut Names, list: &RecordList)
    ensures same { (name : _) → found_in records.new name ≡ found_in records.old name }
    ensures slots { records.new.slots ≡ records.old.slots }
    ensures long { records.new.long ≡ records.old.long }
    ensures keyed { (names : List (Option Bytes)) → all_halves list.now ≡ map listed_halves names → IsKeyedShort names records.old
        → ((hasher_of {S = KeyedNumbers} records.new.short).key ≡ key_of_numbers names) × HoldsShort names records.new }
{
    if records.have_slots() {
        records.set_key(alloc, numbers_key(list));
    }
}

/// Adds a record by the number of its name, which has no slot. The answer is whether no record had it. Grows.
fn add_short(
    alloc: Global,
    records: &mut Names,
    list: &RecordList,
    number: u64,
    found: RecordPlace,
) -> Result<bool, AllocError>
    ensures added { (name : Bytes) → short_number name ≡ Some number → HasNoSlot records.old name → IfOk result (AddsRecord records.old records.new (Some name) found) }
    ensures keyed { (names : List (Option Bytes)) (name : Bytes) → all_halves list.now ≡ map listed_halves names → short_number name ≡ Some number
        → IsAmong (Some name) names → IsKeyed names records.old → OnOk result (IsKeyed names records.new) }
{
    begin_short(alloc, records, list);
    records.insert_short(number, found)
}

/// Adds a record whose name has no slot: by the number that is listed of the name, or where that is 0, by the name, which is read
/// again. The answer is whether no record had it. Grows.
#[cold]
#[inline(never)]
fn add_other<F: Forest>(
    alloc: Global,
    forest: &F,
    records: &mut Names,
    list: &RecordList,
    number: u64,
    found: RecordPlace,
) -> Result<bool, AllocError>
    requires within { found.place < trees_count (F.trees forest.now) }
    requires missed { IsMissed records.old number (structure_at (F.trees forest.now) found.place).xref }
    ensures added { IfOk result (AddsRecord records.old records.new (structure_at (F.trees forest.now) found.place).xref found) }
    ensures keyed { (names : List (Option Bytes)) → all_halves list.now ≡ map listed_halves names → IsAmong (structure_at (F.trees forest.now) found.place).xref names
        → IsKeyed names records.old → OnOk result (IsKeyed names records.new) }
{
    if number != 0 {
        return add_short(alloc, records, list, number, found);
    }
    match forest.xref(found.place) {
        Some(name) => records.insert_long(alloc, name, found),
        None => unreachable!(),
    }
}

/// Adds a record by what is listed of its identifier, in the slot of that or else in a map. The answer is whether no record had
/// it. Grows.
#[inline(always)]
fn add_record<F: Forest>(
    alloc: Global,
    forest: &F,
    records: &mut Names,
    listed: ListedNames<'_>,
    found: RecordPlace,
) -> Result<bool, AllocError>
    requires listed { (end after : ℕ) × IsStep (F.trees forest.now) found.place end after × IsListedFrom (F.trees forest.now) listed found.number found.place end }
    requires named { (structure_at (F.trees forest.now) found.place).xref ≡ Some [] → ⊥ }
    ensures added { IfOk result (AddsRecord records.old records.new (structure_at (F.trees forest.now) found.place).xref found) }
    ensures keyed { (names : List (Option Bytes)) → all_halves listed.entry.list.now ≡ map listed_halves names → IsAmong (structure_at (F.trees forest.now) found.place).xref names
        → IsKeyed names records.old → OnOk result (IsKeyed names records.new) }
{
    let name = listed.name_at(found.number);
    match records.keep_listed(name, found) {
        Some(is_new) => Ok(is_new),
        None => add_other(alloc, forest, records, listed.list, name.number, found),
    }
}

/// Adds all records, which are from a place up to the end, by what is listed of their identifiers, and answers their places; or the
/// fault of the first record whose identifier an earlier one has. No identifier is read again but the long ones, to be kept.
fn add_records<F: Forest>(
    alloc: Global,
    forest: &F,
    start: usize,
    end: usize,
    list: &RecordList,
    records: &mut Names,
) -> Result<Vec<u32>, LinkFault>
    requires run { IsRunOfTrees (F.trees forest.now) start end }
    requires all { trees_between (F.trees forest.now) start end ≡ records_of (F.trees forest.now) }
    requires end { end ≡ trees_count (F.trees forest.now) }
    requires document { is_document (F.trees forest.now) ≡ true }
    requires names { all_halves list.now ≡ map listed_halves (identifiers (records_of (F.trees forest.now))) }
    requires digits { all_digits list.now ≡ map listed_digits (identifiers (records_of (F.trees forest.now))) }
    requires none { (name : _) → found_in records.old name ≡ None }
    requires keyed { IsKeyed (identifiers (records_of (F.trees forest.now))) records.old }
    ensures records { OnOk result (AreRecords (F.trees forest.now) records.new) }
    ensures keyed { OnOk result (IsKeyed (identifiers (records_of (F.trees forest.now))) records.new) }
    ensures types { (types : List (Option RecordType)) → AreTypesOf types (records_of (F.trees forest.now)) → OnOk result (AreTyped (F.trees forest.now) records.new types) }
    ensures places { IfOk result (λ places. ArePlaces (F.trees forest.now) places.items) }
    ensures distinct { OnOk result ((place : ℕ) → IsRepeated (F.trees forest.now) place → ⊥) }
    ensures fault { IfErr result (λ fault. (fault ≡ Memory alloc_error) ⊎ HasLinkFault (F.trees forest.now) fault) }
{
    let Ok(mut places) = Vec::with_capacity(alloc, list.types.len()) else {
        return Err(LinkFault::Memory(AllocError));
    };
    let listed = ListedNames {
        list,
        unnamed: list.unnamed(),
    };
    let mut place = start;
    let mut number: usize = 0;
    while let Some(after) = next_in_run(forest, place, end) {
        let found = RecordPlace { number, place };
        match add_record(alloc, forest, records, listed, found) {
            Ok(true) => {}
            Ok(false) => return Err(LinkFault::Duplicate(forest.line(place))),
            Err(_) => return Err(LinkFault::Memory(AllocError)),
        }
        let Ok(()) = push_place(&mut places, place) else {
            return Err(LinkFault::Memory(AllocError));
        };
        place = after;
        number += 1;
    }
    Ok(places)
}

/// What is found of the records of a document before their pointers are followed.
#[derive(Drop)]
struct FoundRecords {
    /// The records by their identifiers.
    names: Names,
    /// The type of each record by its number.
    types: Vec<Option<RecordType>>,
    /// Where each record stands, by its number, as an index keeps it.
    places: Vec<u32>,
    /// Whether no identifier is longer than [`LONGEST_COMPARED`].
    are_comparable: bool,
    /// Lists of no links, in the memory of the list of records.
    none: LinkLists,
}

/// What is found of the listed records, or the fault of the first record whose identifier an earlier one has.
fn find_records<F: Forest>(
    alloc: Global,
    forest: &F,
    end: usize,
    list: RecordList,
) -> Result<FoundRecords, LinkFault>
    requires end { end ≡ trees_count (F.trees forest.now) }
    requires document { is_document (F.trees forest.now) ≡ true }
    requires list { IsRecordList (F.trees forest.now) list }
    ensures records { IfOk result (λ found. AreRecords (F.trees forest.now) found.names) }
    ensures keyed { IfOk result (λ found. IsKeyed (identifiers (records_of (F.trees forest.now))) found.names) }
    ensures types { IfOk result (λ found. AreTyped (F.trees forest.now) found.names found.types.items) }
    ensures places { IfOk result (λ found. ArePlaces (F.trees forest.now) found.places.items) }
    ensures none { IfOk result (λ found. (role : Role) (pair : ℕ × ℕ) → lists_have found.none role pair ≡ false) }
    ensures listed { IfOk result (λ found. AreTypesOf found.types.items (records_of (F.trees forest.now))) }
    ensures distinct { IfOk result (λ _. (place : ℕ) → IsRepeated (F.trees forest.now) place → ⊥) }
    ensures fault { IfErr result (λ fault. (fault ≡ Memory alloc_error) ⊎ HasLinkFault (F.trees forest.now) fault) }
{
    let start = first_record(forest, end);
    let slots = slots_for(alloc, &list.tallies)?;
    let mut names = Names::new(alloc, slots, &list.long)?;
    let places = add_records(alloc, forest, start, end, &list, &mut names)?;
    Ok(FoundRecords {
        names,
        types: list.types,
        places,
        are_comparable: list.long.longest <= LONGEST_COMPARED,
        none: LinkLists::over(alloc, list.names, list.digits),
    })
}
