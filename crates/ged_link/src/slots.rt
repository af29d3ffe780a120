// A table in which a record is found by the slot that its name asks for.
ghost use Rattle.std.specs.Prelude.{◌≡◌, ◌<◌, ℕ, true, IfOk, IfSome, Some, None, is_none, length, slice_index_or};
ghost use Rattle.ged_link.specs.Slots.{number_read, brought_into, empty, no_region, slot_within, slot_in, kept_in};
ghost use Rattle.ged_link.specs.inner.Slots.{kept_at, KeepsIn};

use crate::index::RecordPlace;
use std::alloc::{AllocError, Global};
use std::mem::size_of;

/// A record under the number that its name spells ([`crate::names::number_of`]), or under 0 where none is kept.
#[derive(Clone, Copy)]
pub(crate) struct Entry {
    pub(crate) name: u64,
    pub(crate) number: u32,
    pub(crate) place: u32,
}

const _: () = prove!(size_of::<Entry>() == 16);

/// An entry that keeps no record.
const EMPTY: Entry = Entry {
    name: 0,
    number: 0,
    place: 0,
};

/// The slots of the names that begin with one byte.
#[derive(Clone, Copy)]
pub(crate) struct Region {
    pub(crate) start: u32,
    /// How many slots there are.
    pub(crate) room: u32,
}

/// The region of a byte that no name begins with.
const NO_REGION: Region = Region { start: 0, room: 0 };

/// Most of the records whose names are short, each in the slot that its name asks for: in the region of its first
/// letter, as far along as the number after the letter says, counted round the region. So names such as `I1`, `I2` and `F1`, or
/// `I0500001` and `I0500002`, stand next to each other.
///
/// Two names may ask for one slot. The entry says whose it is; what finds no slot, or does not fit 32 bits, is kept elsewhere.
#[derive(Drop)]
pub(crate) struct Slots {
    /// The region of each first byte.
    pub(crate) regions: Vec<Region>,
    pub(crate) entries: Vec<Entry>,
}

/// The number that bytes spell as decimal digits, in 32 bits. A byte that is no digit counts by its low four bits.
pub(crate) fn read_number(digits: &[u8]) -> u32
    ensures { result ≡ number_read 0 digits.now }
{
    let mut number: u32 = 0;
    for digit in digits {
        number = number.wrapping_mul(10).wrapping_add(u32::from(*digit % 16));
    }
    number
}

/// A number brought into a region of so many slots.
#[inline(always)]
fn bring_into(room: u32, number: u32) -> u32
    ensures { result ≡ brought_into room number }
{
    if number < room {
        number
    } else if room == 0 {
        0
    } else {
        number % room
    }
}

impl Slots {
    /// No records, in so many slots.
    pub(crate) fn new(alloc: Global, regions: Vec<Region>, size: usize) -> Result<Slots, AllocError>
        ensures free { IfOk result (λ slots. (name : _) → (number : ℕ) → 0 < number → kept_in slots name number ≡ None) }
        ensures sized { IfOk result (λ slots. (slots.regions ≡ regions) × (length slots.entries.items ≡ size)) }
    {
        let entries = vec![in alloc; EMPTY; size]?;
        Ok(Slots { regions, entries })
    }

    /// The slot that a name asks for, by its first byte and the number behind that.
    #[inline(always)]
    pub(crate) fn slot_behind(&self, first: u8, number: u32) -> usize
        ensures { result ≡ slot_within (slice_index_or self.now.regions.items first no_region) number }
    {
        let region = self
            .regions
            .get(usize::from(first))
            .copied()
            .unwrap_or(NO_REGION);
        region.start as usize + bring_into(region.room, number) as usize
    }

    /// The slot that a name asks for.
    #[inline(always)]
    pub(crate) fn slot(&self, name: &str) -> usize
        ensures { result ≡ slot_in self.now.regions.items name.now }
    {
        match name.as_bytes() {
            [first, digits @ ..] => self.slot_behind(*first, read_number(digits)),
            [] => 0,
        }
    }

    /// The record that is kept for a name, which spells this number.
    #[inline(always)]
    pub(crate) fn find(&self, name: &str, number: u64) -> Option<RecordPlace>
        ensures { result ≡ kept_in self.now name.now number }
    {
        self.find_at(self.slot(name), number)
    }

    /// The record that is kept in a slot for a name that spells this number.
    #[inline(always)]
    pub(crate) fn find_at(&self, slot: usize, number: u64) -> Option<RecordPlace>
        ensures { result ≡ kept_at self.now slot number }
    {
        let entry = self.entries.get(slot).copied().unwrap_or(EMPTY);
        if entry.name == number {
            Some(RecordPlace {
                number: entry.number as usize,
                place: entry.place as usize,
            })
        } else {
            None
        }
    }

    /// Keeps a record in the slot of its name, which spells this number, if the slot is free. The answer is whether it was, or
    /// whether it is the name's own already: true and false; `None` where neither is so, or 32 bits do not hold the record.
    #[inline(always)]
    pub(crate) fn keep(&mut self, slot: usize, number: u64, found: RecordPlace) -> Option<bool>
        requires { 0 < number }
        ensures kept { result ≡ Some true → KeepsIn self.old self.new slot number found }
        ensures free { slot < length self.old.entries.items → (slice_index_or self.old.entries.items slot empty).name ≡ 0
            → found.number < 4294967296 → found.place < 4294967296 → result ≡ Some true }
        ensures is_new { IfSome result (λ is_new. is_new ≡ is_none (kept_at self.old slot number)) }
        ensures same { result ≡ None → self.new ≡ self.old }
        ensures missed { result ≡ None → kept_at self.old slot number ≡ None }
    {
        if slot >= self.entries.len() {
            return None;
        }
        let before = self.entries[slot].name;
        if before == number {
            return Some(false);
        }
        if before != 0 {
            return None;
        }
        let Ok(record) = u32::try_from(found.number) else {
            return None;
        };
        let Ok(place) = u32::try_from(found.place) else {
            return None;
        };
        self.entries[slot] = Entry {
            name: number,
            number: record,
            place,
        };
        Some(true)
    }
}
