// The records of a document by their cross-reference identifiers.
ghost use Rattle.std.specs.Prelude.{◌≡◌, ◌<◌, ◌↔◌, ℕ, Some, true, IsTrue, slice_get};
ghost use Rattle.ged_tree.specs.Trees.{Trees, records_of};
ghost use Rattle.ged_tree.specs.Places.{structure_at};
ghost use Rattle.ged_tree.specs.declared.payload.Payload.TheVariants.{Pointer};
ghost use Rattle.ged_link.specs.Links.{IsRecordNumber, IsUsed, identifiers};
ghost use Rattle.ged_link.specs.LinkFaults.{HasXref};
ghost use Rattle.ged_link.specs.RecordTypes.{HasRecordOf};
ghost use Rattle.ged_link.specs.LedByTags.{AreLed};
ghost use Rattle.ged_link.specs.Places.{IsRecordPlace};
ghost use Rattle.ged_link.specs.Indexes.{IsIndexOf, number_in, place_in};

use crate::names::Names;
use crate::places::{RecordCursor, next_record, searched_record};
use crate::pointers::Followed;
use crate::record_type::{RecordType, is_typed};
use crate::targets::{PointerCursor, next_number, searched_number};
use ged_line::Xref;

/// Where a record stands, among the records and among all structures.
#[derive(Clone, Copy)]
pub(crate) struct RecordPlace {
    pub(crate) number: usize,
    pub(crate) place: usize,
}

/// The records of a document by their identifiers, their types, which of them its pointers name, and the places of its
/// links in one direction only. It serves every [`ged_tree::Forest`] that is seen as the same document.
///
/// Records are counted from 0, as a document has them after HEAD.
#[derive(Drop)]
pub struct Index {
    pub(crate) records: Names,
    /// The type of each record by its number.
    pub(crate) types: Vec<Option<RecordType>>,
    /// The place of each record, by its number; the greatest number stands for all that 32 bits do not hold.
    pub(crate) places: Vec<u32>,
    pub(crate) followed: Followed,
    pub(crate) one_way: Vec<usize>,
}

impl Index {
    /// The number of the record that has this identifier, or `None` where there is none. Takes no memory.
    pub fn record_of(&self, xref: &Xref) -> Option<usize>
        ensures { (document : Trees) → IsIndexOf document self.now → (number : ℕ) →
            (result ≡ Some number) ↔ IsRecordNumber document number xref.now }
    {
        self.record_named(xref.as_str())
    }

    /// The number of the record whose identifier has this name, without its `@`, or `None` where there is none. Takes no
    /// memory.
    pub fn record_named(&self, name: &str) -> Option<usize>
        ensures { (document : Trees) → IsIndexOf document self.now → (number : ℕ) →
            (result ≡ Some number) ↔ IsRecordNumber document number name.now }
    {
        find_number(&self.records, name)
    }

    /// The place of the record whose identifier has this name among all structures, as a [`ged_tree::Forest`] counts
    /// them, or `None` where there is none. Takes no memory.
    pub fn place_of(&self, name: &str) -> Option<usize>
        ensures { (document : Trees) → IsIndexOf document self.now → (place : ℕ) →
            (result ≡ Some place) ↔ HasXref document place name.now }
    {
        find_place(&self.records, name)
    }

    /// Whether the record whose identifier has this name, if there is one, is of a type. Takes no memory.
    pub fn leads_to(&self, name: &str, wanted: RecordType) -> bool
        ensures { (document : Trees) → IsIndexOf document self.now → IsTrue result ↔ HasRecordOf document wanted name.now }
    {
        match self.record_named(name) {
            Some(number) => is_typed(&self.types, number, wanted),
            None => false,
        }
    }

    /// What [`Index::record_named`] answers for the pointer at a place, whose name is handed in. Takes no memory.
    ///
    /// The cursor tells where the index begins to look. Pointers that are asked for one after the other, in the order of
    /// their places, are found at once; others are searched for.
    #[inline(always)]
    pub fn record_at(&self, place: usize, name: &str, cursor: &mut PointerCursor) -> Option<usize>
        ensures { (document : Trees) → IsIndexOf document self.now → (structure_at document place).payload ≡ Pointer name.now → (number : ℕ) →
            (result ≡ Some number) ↔ IsRecordNumber document number name.now }
    {
        match next_number(&self.followed.targets, place, cursor) {
            Some(number) => Some(number),
            None => self.record_searched(place, name, cursor),
        }
    }

    /// The same where the cursor does not stand at the pointer.
    #[cold]
    #[inline(never)]
    fn record_searched(&self, place: usize, name: &str, cursor: &mut PointerCursor) -> Option<usize>
        ensures { (document : Trees) → IsIndexOf document self.now → (structure_at document place).payload ≡ Pointer name.now → (number : ℕ) →
            (result ≡ Some number) ↔ IsRecordNumber document number name.now }
    {
        match searched_number(&self.followed.targets, place, cursor) {
            Some(number) => Some(number),
            None => self.record_named(name),
        }
    }

    /// The number of the record at a place, with an identifier or without one, or `None` where no record stands there. A place
    /// that is not kept, which is each from 4294967295 on, is answered `None` too. Takes no memory.
    ///
    /// The cursor tells where the index begins to look. Records that are asked for in the order of their places are found at
    /// once.
    #[inline(always)]
    pub fn record_standing_at(&self, place: usize, cursor: &mut RecordCursor) -> Option<usize>
        ensures stands { (document : Trees) → IsIndexOf document self.now → (number : ℕ) →
            (result ≡ Some number) ↔ (IsRecordPlace document number place × (place < 4294967295)) }
        ensures identifier { (document : Trees) → IsIndexOf document self.now → (number : ℕ) → result ≡ Some number →
            slice_get (identifiers (records_of document)) number ≡ Some (structure_at document place).xref }
    {
        match next_record(&self.places, place, cursor) {
            Some(number) => Some(number),
            None => searched_record(&self.places, place, cursor),
        }
    }

    /// What [`Index::leads_to`] answers for the pointer at a place, whose name is handed in. The cursor is that of
    /// [`Index::record_at`]. Takes no memory.
    #[inline(always)]
    pub fn leads_at(
        &self,
        place: usize,
        name: &str,
        wanted: RecordType,
        cursor: &mut PointerCursor,
    ) -> bool
        ensures { (document : Trees) → IsIndexOf document self.now → (structure_at document place).payload ≡ Pointer name.now →
            IsTrue result ↔ HasRecordOf document wanted name.now }
    {
        let Some(number) = self.record_at(place, name, cursor) else {
            return false;
        };
        is_typed(&self.types, number, wanted)
    }

    /// Whether each pointer whose tag alone says what it leads to, as FAMS to a family (FamilySearch GEDCOM 7.0, "Structure
    /// Organization"), leads to a record of that type. Where it is `false` the document may still be as the standard asks: a pointer
    /// below a structure of another's making may lead elsewhere. Takes no memory.
    pub fn are_led_by_tags(&self) -> bool
        ensures { (document : Trees) → IsIndexOf document self.now → IsTrue result ↔ AreLed document document }
    {
        self.followed.led
    }

    /// Whether some pointer, in the record itself or elsewhere, names the record with this number. It is false past the
    /// last record. Takes no memory.
    pub fn is_used(&self, number: usize) -> bool
        ensures { (document : Trees) → IsIndexOf document self.now → (result ≡ true) ↔ IsUsed document number }
    {
        self.followed.used.get(number).copied().unwrap_or(false)
    }
}

/// The number of the record that has an identifier.
#[inline(always)]
fn find_number(records: &Names, name: &str) -> Option<usize>
    ensures { result ≡ number_in records.now name.now }
{
    let found = records.find(name)?;
    Some(found.number)
}

/// The place of the record that has an identifier.
#[inline(always)]
pub(crate) fn find_place(records: &Names, name: &str) -> Option<usize>
    ensures { result ≡ place_in records.now name.now }
{
    let found = records.find(name)?;
    Some(found.place)
}
