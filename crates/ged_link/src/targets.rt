// The records that the pointers of a document name, in the order of the pointers' places.
ghost use Rattle.std.specs.Prelude.{◌≡◌, ◌<◌, ◌≤◌, ◌+◌, ◌⊎◌, ℕ, Some, None, IsSome, IfSome, length};
ghost use Rattle.ged_tree.specs.Trees.{Trees};
ghost use Rattle.ged_link.specs.Targets.{PointsAt, AreTargets};

use std::mem::size_of;

/// The record that a pointer names, in 8 bytes. Before the pointer is followed, they have what is listed of it instead
/// ([`crate::listed_pointer::list_pointer`]).
#[derive(Clone, Copy)]
pub(crate) struct Target {
    /// The place of the pointer among all structures.
    pub(crate) place: u32,
    /// The number of the record that it names.
    pub(crate) number: u32,
}

const _: () = prove!(size_of::<Target>() == 8);

/// Where an [`crate::Index`] looks for a pointer first: behind the one that it found last.
#[derive(Clone, Copy, Debug)]
pub struct PointerCursor {
    pub(crate) next: usize,
}

impl PointerCursor {
    /// A cursor at the first pointer of a document. Takes no memory.
    pub fn new() -> PointerCursor
        ensures { result.next ≡ 0 }
    {
        PointerCursor { next: 0 }
    }
}

/// The greatest number that is kept of a target.
const GREATEST: usize = u32::MAX as usize;

/// What tells that the pointer at a place names the record with a number, or `None` where 32 bits do not hold both.
#[inline(always)]
pub(crate) fn short_target(place: usize, number: usize) -> Option<Target>
    ensures told { IfSome result (λ target. (target.place ≡ place) × (target.number ≡ number)) }
    ensures kept { place < 4294967296 → number < 4294967296 → IsSome result }
    ensures left_out { (4294967296 ≤ place) ⊎ (4294967296 ≤ number) → result ≡ None }
{
    // Comparing the numbers is cheaper than two conversions that may fail.
    if place > GREATEST || number > GREATEST {
        return None;
    }
    Some(Target {
        place: place as u32,
        number: number as u32,
    })
}

/// The number that the target at an index tells, if it is that of the pointer at a place.
#[inline(always)]
fn number_kept(targets: &[Target], index: usize, place: usize) -> Option<usize>
    ensures within { IfSome result (λ _. index < length targets.now) }
    ensures told { (document : Trees) → AreTargets document targets.now → (number : ℕ) → result ≡ Some number → PointsAt document place number }
{
    let target = targets.get(index)?;
    if target.place as usize == place {
        Some(target.number as usize)
    } else {
        None
    }
}

/// The number of the record that the pointer at a place names, if it is told where the cursor stands, which then goes on.
#[inline(always)]
pub(crate) fn next_number(
    targets: &[Target],
    place: usize,
    cursor: &mut PointerCursor,
) -> Option<usize>
    ensures told { (document : Trees) → AreTargets document targets.now → (number : ℕ) → result ≡ Some number → PointsAt document place number }
    ensures goes_on { IsSome result → cursor.new.next ≡ cursor.old.next + 1 }
    ensures stays { result ≡ None → cursor.new.next ≡ cursor.old.next }
{
    let number = number_kept(targets, cursor.next, place)?;
    cursor.next += 1;
    Some(number)
}

/// How far from the cursor targets are searched before all are: structures that are visited in another order than the file's
/// seldom stand far apart.
const NEAR: usize = 32;

/// Moves a cursor to the first target near it that is not of a lower place than this one.
fn move_near(targets: &[Target], place: usize, cursor: &mut PointerCursor)
    ensures { cursor.old.next ≤ cursor.new.next + 32 }
{
    let end = targets.len().min(cursor.next.saturating_add(NEAR));
    if let Some(ahead) = targets.get(cursor.next..end) {
        let passed = ahead
            .iter()
            .position(|target: &Target| (target.place as usize) >= place)
            .unwrap_or(ahead.len());
        if passed > 0 {
            cursor.next = cursor.next.saturating_add(passed);
            return;
        }
    }
    let start = cursor.next.saturating_sub(NEAR);
    if let Some(behind) = targets.get(start..cursor.next) {
        let left = behind
            .iter()
            .rposition(|target: &Target| (target.place as usize) < place)
            .map_or(0, |last: usize| last + 1);
        cursor.next = start.saturating_add(left);
    }
}

/// What [`next_number`] answers, for a cursor that stands elsewhere. It is moved first, behind the pointers of lower places that stand near
/// it, or behind all.
pub(crate) fn searched_number(
    targets: &[Target],
    place: usize,
    cursor: &mut PointerCursor,
) -> Option<usize>
    ensures { (document : Trees) → AreTargets document targets.now → (number : ℕ) → result ≡ Some number → PointsAt document place number }
{
    move_near(targets, place, cursor);
    if let Some(number) = next_number(targets, place, cursor) {
        return Some(number);
    }
    cursor.next = targets.partition_point(|target: &Target| -> bool {
        (target.place as usize) < place
    });
    next_number(targets, place, cursor)
}
