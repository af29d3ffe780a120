// What a structure carries, against its row's kind.
ghost use Rattle.std.specs.Prelude.{◌≡◌, true, ◌<◌, IsTrue, ◌↔◌, option_map};
ghost use Rattle.ged_tree.specs.Trees.{Trees, trees_count, further_lines};
ghost use Rattle.ged_tree.specs.Documents.{is_document};
ghost use Rattle.ged_tree.specs.Places.{structure_at};
ghost use Rattle.ged_tree.specs.Views.{payload_of};
ghost use Rattle.ged_tree.specs.declared.payload.Payload.TheVariants.{Pointer};
ghost use Rattle.ged_value.specs.declared.kind.Kind.{Kind as AnyKind};
ghost use Rattle.ged_value.specs.Kinds.{Fits as FitsGiven, takes_lines};
ghost use Rattle.ged_link.specs.Links.{SomeTree};
ghost use Rattle.ged_link.specs.Indexes.{IsIndexOf};
ghost use Rattle.ged_link.specs.RecordTypes.{record_tag};
ghost use Rattle.ged_schema.specs.Payloads.{IsOfKind};
ghost use Rattle.ged_value.specs.Kinds.{target};
ghost use Rattle.ged_schema.specs.Checked.{PointsRight};
ghost use Rattle.ged_schema.specs.inner.Lookups.{IsRecordNamed};

use ged_link::{Index, PointerCursor, RecordType};
use ged_tree::{Forest, PayloadView};
use ged_value::{Given, Kind};

/// What a kind looks at in a payload, that of the structure at a place.
pub(crate) fn given_of<'a, F: Forest>(
    forest: &F,
    payload: PayloadView<'a>,
    place: usize,
) -> Given<'a>
    requires within { place < trees_count (F.trees forest.now) }
    requires payload { payload_of payload (further_lines (structure_at (F.trees forest.now) place).payload)
        ≡ (structure_at (F.trees forest.now) place).payload }
    ensures { (kind : AnyKind) → FitsGiven kind result ↔ IsOfKind kind (structure_at (F.trees forest.now) place).payload }
{
    match payload {
        PayloadView::Void => Given::Void,
        PayloadView::Pointer(_) => Given::Pointer,
        PayloadView::Text(line) if forest.further(place) == 0 => Given::One(line),
        PayloadView::Text(_) => Given::Many,
    }
}

/// Whether each text is of a kind, of one line or of several.
#[inline(always)]
pub(crate) fn takes_any_text(kind: Kind) -> bool
    ensures { result ≡ takes_lines kind }
{
    matches!(kind, Kind::Text | Kind::Free)
}

/// The type of the records to which pointers of a kind lead. Whether there is one is asked first, so that the type is told
/// without a branch for each kind.
#[tactic(auto, unfolding(ged_value::specs::Kinds::target))]
#[inline(always)]
pub(crate) fn target_type(kind: Kind) -> Option<RecordType>
    ensures { option_map record_tag result ≡ target kind }
{
    if !matches!(
        kind,
        Kind::ToFam | Kind::ToIndi | Kind::ToSubm | Kind::ToSnote | Kind::ToSour | Kind::ToObje
    ) {
        return None;
    }
    Some(match kind {
        Kind::ToIndi => RecordType::Indi,
        Kind::ToSubm => RecordType::Subm,
        Kind::ToSnote => RecordType::Snote,
        Kind::ToSour => RecordType::Sour,
        Kind::ToObje => RecordType::Obje,
        _ => RecordType::Fam,
    })
}

/// Whether the name of the pointer at a place is the identifier of a record of a type.
#[inline(always)]
pub(crate) fn names_record(
    index: &Index,
    place: usize,
    name: &str,
    wanted: RecordType,
    pointers: &mut PointerCursor,
) -> bool
    ensures { (document : Trees) → IsIndexOf document index.now → is_document document ≡ true
        → Pointer name.now ≡ (structure_at document place).payload
        → IsTrue result ↔ SomeTree (IsRecordNamed name.now (record_tag wanted)) document }
{
    index.leads_at(place, name, wanted, pointers)
}

/// Whether a payload, that of the structure at a place, leads to a record of the type that the kind names. The cursor
/// tells where the index begins to look for a pointer.
#[inline(always)]
pub(crate) fn points_right<F: Forest>(
    forest: &F,
    index: &Index,
    kind: Kind,
    payload: PayloadView<'_>,
    place: usize,
    pointers: &mut PointerCursor,
) -> bool
    requires within { place < trees_count (F.trees forest.now) }
    requires index { IsIndexOf (F.trees forest.now) index.now }
    requires document { is_document (F.trees forest.now) ≡ true }
    requires payload { payload_of payload (further_lines (structure_at (F.trees forest.now) place).payload)
        ≡ (structure_at (F.trees forest.now) place).payload }
    ensures { IsTrue result ↔ PointsRight (F.trees forest.now) (target kind) (structure_at (F.trees forest.now) place).payload }
{
    let Some(wanted) = target_type(kind) else {
        return true;
    };
    match payload {
        PayloadView::Pointer(name) => names_record(index, place, name, wanted, pointers),
        _ => true,
    }
}
