// Structures of two documents, told to be alike by their own lines, where these stand.
ghost use Rattle.std.specs.Prelude.{◌≡◌, ◌<◌, true, false, List, IsTrue};
ghost use Rattle.ged_line.specs.Bytes.{Bytes};
ghost use Rattle.ged_tree.specs.Trees.{trees_count, further_lines};
ghost use Rattle.ged_tree.specs.Documents.{is_document};
ghost use Rattle.ged_tree.specs.Places.{structure_at};
ghost use Rattle.ged_tree.specs.Views.{is_pointer, payload_of};
ghost use Rattle.ged_canon.specs.inner.Paired.{AreAlike, ByNames};

use crate::writer::lines::name_behind;
use crate::writer::numbers::new_number_at;
use crate::writer::plan::Writer;
use crate::writer::same::is_same_text;
use ged_line::is_same_tag;
use ged_link::{PointerCursor, RecordCursor};
use ged_tree::{Forest, PayloadView};

/// Where the indexes of two documents look for the next pointer and for the next record.
#[derive(Drop)]
pub(crate) struct PairCursors {
    pub(crate) pointers: PointerCursor,
    pub(crate) other_pointers: PointerCursor,
    pub(crate) records: RecordCursor,
    pub(crate) other_records: RecordCursor,
}

impl PairCursors {
    /// At the front of either document. Takes no memory.
    pub(crate) fn new() -> Self {
        PairCursors {
            pointers: PointerCursor::new(),
            other_pointers: PointerCursor::new(),
            records: RecordCursor::new(),
            other_records: RecordCursor::new(),
        }
    }
}

/// Whether the structures at two places, which have nothing but their own lines, are told to be the same by these lines, as they stand in the
/// files.
#[inline(always)]
fn is_same_sole<F: Forest, G: Forest>(
    first: &Writer<'_, '_, F>,
    second: &Writer<'_, '_, G>,
    level: u8,
    place: usize,
    other: usize,
) -> bool
    requires document { is_document (F.trees first.now.forest.now) ≡ true }
    requires within { place < trees_count (F.trees first.now.forest.now) }
    requires other_document { is_document (G.trees second.now.forest.now) ≡ true }
    requires other_within { other < trees_count (G.trees second.now.forest.now) }
    ensures { (new new_other : Bytes → Bytes) → IsTrue result
        → AreAlike new new_other (structure_at (F.trees first.now.forest.now) place) (structure_at (G.trees second.now.forest.now) other) }
{
    let Some((start, end)) = first.lines.sole_at(place, level) else {
        return false;
    };
    let Some((other_start, other_end)) = second.lines.sole_at(other, level) else {
        return false;
    };
    let line = &first.lines.text()[start..end];
    let other_line = &second.lines.text()[other_start..other_end];
    is_same_text(line, other_line)
}

/// Whether the payloads at two places have the same further lines. Where a forest has them only one by one, it is not told.
#[inline(never)]
fn have_same_further<F: Forest, G: Forest>(
    forest: &F,
    place: usize,
    other_forest: &G,
    other: usize,
) -> bool
    requires within { place < trees_count (F.trees forest.now) }
    requires other_within { other < trees_count (G.trees other_forest.now) }
    ensures { IsTrue result → further_lines (structure_at (F.trees forest.now) place).payload ≡ further_lines (structure_at (G.trees other_forest.now) other).payload }
{
    let Some(lines) = forest.further_lines(place) else {
        return false;
    };
    let Some(other_lines) = other_forest.further_lines(other) else {
        return false;
    };
    if lines.count() != other_lines.count() {
        return false;
    }
    for number in 0..lines.count() {
        if lines.line(number) != other_lines.line(number) {
            return false;
        }
    }
    true
}

/// Whether two payloads that name no record have the same first line.
#[inline(always)]
fn is_same_value(payload: PayloadView<'_>, other: PayloadView<'_>) -> bool
    ensures same { (further : List Bytes) → IsTrue result → payload_of payload.entry further ≡ payload_of other.entry further }
    ensures value { (further : List Bytes) → IsTrue result → is_pointer (payload_of payload.entry further) ≡ false }
{
    match (payload, other) {
        (PayloadView::Void, PayloadView::Void) => true,
        (PayloadView::Text(line), PayloadView::Text(other)) => line == other,
        _ => false,
    }
}

/// Whether the structures at two places, which may have identifiers, are told to be alike by what they have but these; none has a pointer.
#[inline(never)]
fn has_same_text<F: Forest, G: Forest>(
    forest: &F,
    place: usize,
    other_forest: &G,
    other: usize,
) -> bool
    requires within { place < trees_count (F.trees forest.now) }
    requires other_within { other < trees_count (G.trees other_forest.now) }
    ensures { (new new_other : Bytes → Bytes) → IsTrue result
        → AreAlike new new_other (structure_at (F.trees forest.now) place) (structure_at (G.trees other_forest.now) other) }
{
    let (tag, payload) = forest.tag_and_payload(place);
    let (other_tag, other_payload) = other_forest.tag_and_payload(other);
    if !is_same_tag(tag, other_tag) || !is_same_value(payload, other_payload) {
        return false;
    }
    have_same_further(forest, place, other_forest, other)
}

/// Whether the structures at two places have one tag, and pointers to records with one new number.
#[inline(always)]
fn has_same_pointer<F: Forest, G: Forest>(
    first: &Writer<'_, '_, F>,
    second: &Writer<'_, '_, G>,
    place: usize,
    other: usize,
    cursors: &mut PairCursors,
) -> bool
    requires within { place < trees_count (F.trees first.now.forest.now) }
    requires other_within { other < trees_count (G.trees second.now.forest.now) }
    ensures { ByNames (F.trees first.now.forest.now) first.now.plan (G.trees second.now.forest.now) second.now.plan (λ new new_other. IsTrue result
        → AreAlike new new_other (structure_at (F.trees first.now.forest.now) place) (structure_at (G.trees second.now.forest.now) other)) }
{
    let Some(line) = first.forest.own_line(place) else {
        return false;
    };
    let Some(other_line) = second.forest.own_line(other) else {
        return false;
    };
    if !line.points || !other_line.points || !is_same_tag(line.tag, other_line.tag) {
        return false;
    }
    let name = name_behind(line.rest, line.tag);
    let plan = first.plan;
    let number = new_number_at(plan.index, plan.numbers, place, name, &mut cursors.pointers);
    let name = name_behind(other_line.rest, other_line.tag);
    let plan = second.plan;
    let other_number = new_number_at(
        plan.index,
        plan.numbers,
        other,
        name,
        &mut cursors.other_pointers,
    );
    number > 0 && number == other_number
}

/// Whether the structures at two places are told to be alike, but for their identifiers.
#[inline(always)]
pub(crate) fn is_alike<F: Forest, G: Forest>(
    first: &Writer<'_, '_, F>,
    second: &Writer<'_, '_, G>,
    level: u8,
    place: usize,
    other: usize,
    cursors: &mut PairCursors,
) -> bool
    requires document { is_document (F.trees first.now.forest.now) ≡ true }
    requires within { place < trees_count (F.trees first.now.forest.now) }
    requires other_document { is_document (G.trees second.now.forest.now) ≡ true }
    requires other_within { other < trees_count (G.trees second.now.forest.now) }
    ensures { ByNames (F.trees first.now.forest.now) first.now.plan (G.trees second.now.forest.now) second.now.plan (λ new new_other. IsTrue result
        → AreAlike new new_other (structure_at (F.trees first.now.forest.now) place) (structure_at (G.trees second.now.forest.now) other)) }
{
    if is_same_sole(first, second, level, place, other) {
        return true;
    }
    if first.forest.points(place) {
        return has_same_pointer(first, second, place, other, cursors);
    }
    has_same_text(first.forest, place, second.forest, other)
}
