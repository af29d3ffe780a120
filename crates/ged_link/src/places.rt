// The places of a document's records, by the numbers of the records.
ghost use Rattle.std.specs.Prelude.{◌≡◌, ◌≤◌, ◌+◌, ◌++◌, ◌∷◌, ℕ, [], Some, None, IfSome, IsSome, OnOk, nat_lt};
ghost use Rattle.std.specs.List.Sorted.{IsNonDecreasing};
ghost use Rattle.ged_link.specs.Places.{place_kept};
ghost use Rattle.ged_link.specs.inner.Places.{IsKeptAt};

use std::alloc::AllocError;
use std::simd::prelude::*;

/// Where an [`crate::Index`] looks for a record first: behind the one that it found last.
#[derive(Clone, Copy, Debug)]
pub struct RecordCursor {
    pub(crate) next: usize,
}

impl RecordCursor {
    /// A cursor at the first record of a document. Takes no memory.
    pub fn new() -> RecordCursor
        ensures { result.next ≡ 0 }
    {
        RecordCursor { next: 0 }
    }
}

/// A place as it is kept: the greatest number stands for all that 32 bits do not hold.
#[inline(always)]
pub(crate) fn kept_place(place: usize) -> u32
    ensures { result ≡ place_kept place }
{
    if place < u32::MAX as usize {
        place as u32
    } else {
        u32::MAX
    }
}

/// Adds the place of the next record, as it is kept. Grows.
#[inline(always)]
pub(crate) fn push_place(places: &mut Vec<u32>, place: usize) -> Result<(), AllocError>
    ensures { OnOk result (places.new.items ≡ places.old.items ++ place_kept place ∷ []) }
{
    places.push(kept_place(place))?;
    Ok(())
}

/// The place of the record with a number, if it is kept.
#[inline(always)]
pub(crate) fn place_of(places: &[u32], number: usize) -> Option<usize>
    ensures told { IfSome result (λ place. IsKeptAt places.now number place) }
    ensures found { (place : ℕ) → IsKeptAt places.now number place → IsSome result }
{
    let kept = *places.get(number)?;
    if kept == u32::MAX {
        return None;
    }
    Some(kept as usize)
}

/// The number of the record at a place, if it is that at which the cursor stands, which then goes on.
#[inline(always)]
pub(crate) fn next_record(places: &[u32], place: usize, cursor: &mut RecordCursor) -> Option<usize>
    ensures told { (number : ℕ) → result ≡ Some number → IsKeptAt places.now number place }
    ensures found { IsKeptAt places.now cursor.old.next place → IsSome result }
    ensures goes_on { IsSome result → cursor.new.next ≡ cursor.old.next + 1 }
    ensures stays { result ≡ None → cursor.new.next ≡ cursor.old.next }
{
    let number = cursor.next;
    if place_of(places, number)? != place {
        return None;
    }
    cursor.next += 1;
    Some(number)
}

/// How many records behind the cursor are looked at together: records that are visited in another order than the file's seldom stand far
/// apart.
const NEXT: usize = 8;

/// How many records behind these are searched before all are.
const NEAR: usize = 64;

/// How many places, of the first few, stand before the first that is not lower than this one. It says where to look first, and no clause
/// rests on it.
#[inline(always)]
fn lower_places(places: &[u32], place: u32) -> usize {
    let Some(run) = places.get(..NEXT) else {
        return 0;
    };
    let lower = u32x8::from_slice(run).simd_lt(u32x8::splat(place));
    lower.to_bitmask().trailing_ones() as usize
}

/// Moves a cursor on to the first record near it that is not at a lower place than this one. That it goes so far is no clause: what stands
/// there is asked for its place.
#[inline(always)]
fn move_on(places: &[u32], place: usize, cursor: &mut RecordCursor)
    ensures { cursor.old.next ≤ cursor.new.next }
{
    let Some(behind) = places.get(cursor.next..) else {
        return;
    };
    let passed = lower_places(behind, kept_place(place));
    cursor.next = cursor.next.saturating_add(passed);
    if passed < NEXT {
        return;
    }
    let end = places.len().min(cursor.next.saturating_add(NEAR));
    if let Some(near) = places.get(cursor.next..end) {
        let passed = near.partition_point(|kept: &u32| -> bool { (*kept as usize) < place });
        cursor.next = cursor.next.saturating_add(passed);
    }
}

/// What [`next_record`] answers, for a cursor that stands elsewhere. It is moved first, behind records at lower places: those near it,
/// or all.
#[cold]
#[inline(never)]
pub(crate) fn searched_record(
    places: &[u32],
    place: usize,
    cursor: &mut RecordCursor,
) -> Option<usize>
    ensures told { (number : ℕ) → result ≡ Some number → IsKeptAt places.now number place }
    ensures found { IsNonDecreasing places.now → (number : ℕ) → IsKeptAt places.now number place → IsSome result }
{
    move_on(places, place, cursor);
    if let Some(number) = next_record(places, place, cursor) {
        return Some(number);
    }
    cursor.next = places.partition_point(
        |kept: &u32| -> bool
            ensures { result ≡ nat_lt kept.now place }
        { (*kept as usize) < place },
    );
    next_record(places, place, cursor)
}
