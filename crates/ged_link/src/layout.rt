// How many slots the names of a document are given, and which of them those of each first byte are given.
ghost use Rattle.std.specs.Prelude.{◌≡◌, ◌<◌, ℕ, [], IfOk, None, fold, length, replicate};
ghost use Rattle.ged_link.specs.Slots.{kept_in};
ghost use Rattle.ged_link.specs.inner.Layout.{counted_at, no_names, room, begun};

use crate::slots::{Region, Slots};
use std::alloc::{AllocError, Global};

/// What is told of the names that begin with one byte and spell a number.
#[derive(Clone, Copy)]
pub(crate) struct Tally {
    count: u32,
    /// The greatest of the numbers behind it, by which they ask for their slots.
    greatest: u32,
}

/// The tally of a byte that no name begins with.
const NO_NAMES: Tally = Tally {
    count: 0,
    greatest: 0,
};

/// The tallies of no names, one for each first byte.
pub(crate) fn no_tallies(alloc: Global) -> Result<Vec<Tally>, AllocError>
    ensures { IfOk result (λ tallies. tallies.items ≡ replicate 256 no_names) }
{
    vec![in alloc; NO_NAMES; 256]
}

/// Counts a name that spells a number by its first byte, with the number behind that.
#[inline(always)]
pub(crate) fn count_name(tallies: &mut Vec<Tally>, first: u8, number: u32)
    ensures { tallies.new.items ≡ counted_at tallies.old.items first number }
{
    let first = usize::from(first);
    if first < tallies.len() {
        let before = tallies[first];
        tallies[first] = Tally {
            count: before.count.saturating_add(1),
            greatest: before.greatest.max(number),
        };
    }
}

/// How many slots the names of a first byte are given: one for each number up to the greatest, as long as these are few for so
/// many names. Records that were deleted leave numbers free, but seldom every second one.
fn room_for(tally: Tally) -> u32
    ensures { result ≡ room tally }
{
    if tally.count == 0 {
        0
    } else {
        let enough = tally.count.saturating_mul(2).saturating_add(8);
        enough.min(tally.greatest.saturating_add(1))
    }
}

/// The region of the names of each first byte, and the number of slots of all.
fn regions_of(alloc: Global, tallies: &[Tally]) -> Result<(Vec<Region>, u32), AllocError>
    ensures { IfOk result (λ regions. (regions.0.items, regions.1) ≡ fold begun ([], 0) tallies.now) }
{
    let mut regions = Vec::with_capacity(alloc, tallies.len())?;
    let mut size: u32 = 0;
    for tally in tallies {
        let room = room_for(*tally);
        regions.push(Region { start: size, room })?;
        size = size.saturating_add(room);
    }
    Ok((regions, size))
}

/// Free slots for the names that were counted. Takes memory for at most two slots for each name, and eight for each first byte that
/// occurs, and for fewer where the numbers of the names are small.
pub(crate) fn slots_for(alloc: Global, tallies: &[Tally]) -> Result<Slots, AllocError>
    ensures free { IfOk result (λ slots. (name : _) → (number : ℕ) → 0 < number → kept_in slots name number ≡ None) }
    ensures sized { IfOk result (λ slots. (slots.regions.items, length slots.entries.items) ≡ fold begun ([], 0) tallies.now) }
{
    let (regions, size) = regions_of(alloc, tallies)?;
    Slots::new(alloc, regions, size as usize)
}
