// The types of the records that pointers lead to.
ghost use Rattle.std.specs.Prelude.{◌≡◌, ◌↔◌, ◌∷◌, Some, None, IsTrue, slice_index_or};
ghost use Rattle.std.specs.Str.{bytes_eq};
ghost use Rattle.ged_line.specs.Bytes.{Bytes};
ghost use Rattle.ged_link.specs.RecordTypes.{IsTypeOf, record_tag};
ghost use Rattle.ged_link.specs.LedByTags.{led_by};
ghost use Rattle.ged_link.specs.inner.PointerTags.{IsTold};
ghost use Rattle.ged_link.specs.inner.Resolving.{LeadsAsTagged};

use crate::pointer_tag::PointerTag;

/// A type of records that pointers of the structure tables lead to, by the tag of those records (FamilySearch GEDCOM 7.0,
/// "Structure Organization").
#[derive(Clone, Copy, Debug, PartialEq, Eq)]
pub enum RecordType {
    /// FAM.
    Fam,
    /// INDI.
    Indi,
    /// OBJE.
    Obje,
    /// SNOTE.
    Snote,
    /// SOUR.
    Sour,
    /// SUBM.
    Subm,
}

/// The type of the records that have a tag, or `None` for any other tag.
pub(crate) fn type_of(tag: &str) -> Option<RecordType>
    ensures { IsTypeOf result tag.now }
{
    match tag {
        "INDI" => Some(RecordType::Indi),
        "FAM" => Some(RecordType::Fam),
        "SOUR" => Some(RecordType::Sour),
        "OBJE" => Some(RecordType::Obje),
        "SNOTE" => Some(RecordType::Snote),
        "SUBM" => Some(RecordType::Subm),
        _ => None,
    }
}

/// Whether the record with a number is of a type, where the types of records stand by their numbers.
#[inline(always)]
pub(crate) fn is_typed(types: &[Option<RecordType>], number: usize, wanted: RecordType) -> bool
    ensures { IsTrue result ↔ (slice_index_or types.now number None ≡ Some wanted) }
{
    types.get(number).copied().unwrap_or(None) == Some(wanted)
}

/// The same for a record of which the tag is known to a proof alone: whether it is that of the type's records.
#[inline(always)]
pub(crate) fn has_tag_of(types: &[Option<RecordType>], number: usize, wanted: RecordType) -> bool
    ensures { (tag : Bytes) → IsTypeOf (slice_index_or types.now number None) tag → result ≡ bytes_eq tag (record_tag wanted) }
{
    is_typed(types, number, wanted)
}

/// The type of a record by how many structures at level 0 stand before it, where the types of records stand by their numbers. The first
/// of those structures is HEAD, which is no record.
#[inline(always)]
pub(crate) fn type_behind_head(types: &[Option<RecordType>], before: usize) -> Option<RecordType>
    ensures { result ≡ slice_index_or (None ∷ types.now) before None }
{
    match before.checked_sub(1) {
        Some(number) => types.get(number).copied().unwrap_or(None),
        None => None,
    }
}

/// Whether the record with a number is of the type that a pointer with a tag leads to, where its tag says it.
#[inline(always)]
pub(crate) fn leads_as_tagged(types: &[Option<RecordType>], told: PointerTag, number: usize) -> bool
    ensures { (tag : Bytes) → IsTold told tag → LeadsAsTagged result (led_by tag) (slice_index_or types.now number None) }
{
    match told.type_led() {
        Some(wanted) => is_typed(types, number, wanted),
        None => true,
    }
}
