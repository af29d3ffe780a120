// How many structures stand below each structure of a table.
ghost use Rattle.std.specs.Prelude.{◌≡◌, ◌≤◌, ◌<◌, ◌+◌, ◌++◌, ◌∷◌, [], ℕ, List, IfOk, length, min, slice_set};
ghost use Rattle.std.specs.List.Sorted.{IsPermutation};
ghost use Rattle.ged_tree.specs.Rows.{AreSizes};
ghost use Rattle.ged_tree.specs.inner.Growing.{AreClosed, IsClosed, byte_at};
ghost use Rattle.ged_tree.specs.inner.Tables.{end_from, size_at};

use crate::room::{give_back, room_in_large_pages};
use crate::table::packed::KeptStructure;
use std::alloc::{AllocError, Global};

/// The byte that says of a size that it is too large for one.
const TOO_LARGE: u8 = 255;

/// Bytes are added in blocks of so many.
const BLOCK: usize = 4096;

/// A size that is too large for a byte.
#[derive(Clone, Copy)]
pub(crate) struct LargeSize {
    /// The place of the structure.
    pub(crate) place: u32,
    pub(crate) size: u32,
}

/// How many structures stand below each structure of a table.
#[derive(Drop)]
pub(crate) struct Sizes {
    /// For each structure how many stand below it, or [`TOO_LARGE`] where as many or more do.
    bytes: Vec<u8>,
    /// Those that are too large for a byte, in order of their places once they are sorted. One whose place or size does not fit
    /// is left out: it is counted when it is asked for.
    large: Vec<LargeSize>,
}

/// The first place from a place on whose level is not greater, found by the levels alone.
#[cold]
fn end_of_deeper(structures: &[KeptStructure], place: usize, level: u8) -> usize
    requires { place ≤ length structures.now }
    ensures { result ≡ end_from level structures.now place }
{
    let mut next = place;
    while next < structures.len() && structures[next].level() > level {
        next += 1;
    }
    next
}

impl Sizes {
    /// The first place past a structure and all below it, where the sizes from it on are kept.
    #[inline(always)]
    pub(crate) fn after(&self, structures: &[KeptStructure], place: usize) -> usize
        requires within { place < length structures.now }
        requires sizes { AreSizes structures.now self.now place }
        ensures { result ≡ place + 1 + size_at structures.now place }
    {
        let size = self.bytes[place];
        if size < TOO_LARGE {
            return place + 1 + size as usize;
        }
        self.after_large(structures, place)
    }

    /// The same, where the size may be among those that are too large for a byte.
    #[inline(never)]
    fn after_large(&self, structures: &[KeptStructure], place: usize) -> usize
        requires within { place < length structures.now }
        requires sizes { AreSizes structures.now self.now place }
        ensures { result ≡ place + 1 + size_at structures.now place }
    {
        let index = self.large.partition_point(|large: &LargeSize| -> bool {
            (large.place as usize) < place
        });
        if index < self.large.len() {
            let large = self.large[index];
            if large.place as usize == place {
                return place + 1 + large.size as usize;
            }
        }
        end_of_deeper(structures, place + 1, structures[place].level())
    }

    /// Those of no structure.
    pub(crate) fn new(alloc: Global) -> Sizes
        ensures bytes { result.bytes.items ≡ [] }
        ensures large { result.large.items ≡ [] }
    {
        Sizes {
            bytes: Vec::new(alloc),
            large: Vec::new(alloc),
        }
    }

    /// Takes room for the sizes of so many structures, in whole blocks. Grows.
    pub(crate) fn reserve(&mut self, count: usize) -> Result<(), AllocError>
        ensures bytes { self.new.bytes.items ≡ self.old.bytes.items }
        ensures large { self.new.large.items ≡ self.old.large.items }
    {
        self.bytes
            .reserve(room_in_large_pages(count.saturating_add(BLOCK)))
    }

    /// Has bytes for so many structures at least. Those that are added tell that no structure stands below. Grows.
    #[inline(always)]
    pub(crate) fn extend(&mut self, count: usize) -> Result<(), AllocError>
        ensures room { IfOk result (λ _. count ≤ length self.new.bytes.items) }
        ensures bytes { IfOk result (λ _. (place : ℕ) → byte_at self.new place ≡ byte_at self.old place) }
        ensures large { self.new.large.items ≡ self.old.large.items }
    {
        if count <= self.bytes.len() {
            return Ok(());
        }
        self.extend_block(count)
    }

    /// The same, where there are fewer. A whole block is added at least.
    #[cold]
    #[inline(never)]
    fn extend_block(&mut self, count: usize) -> Result<(), AllocError>
        requires { length self.now.bytes.items < count }
        ensures room { IfOk result (λ _. count ≤ length self.new.bytes.items) }
        ensures bytes { IfOk result (λ _. (place : ℕ) → byte_at self.new place ≡ byte_at self.old place) }
        ensures large { self.new.large.items ≡ self.old.large.items }
    {
        let room = (count - count % BLOCK).saturating_add(BLOCK);
        self.bytes.resize(room, 0)?;
        Ok(())
    }

    /// Has bytes for so many structures, and no more: what room is left is given back. Grows.
    pub(crate) fn fit(&mut self, count: usize) -> Result<(), AllocError>
        ensures count { IfOk result (λ _. length self.new.bytes.items ≡ count) }
        ensures bytes { IfOk result (λ _. (place : ℕ) → place < count → byte_at self.new place ≡ byte_at self.old place) }
        ensures large { self.new.large.items ≡ self.old.large.items }
    {
        self.bytes.resize(count, 0)?;
        give_back(&mut self.bytes);
        Ok(())
    }

    /// Keeps the size of a structure that has a byte. Grows.
    #[inline(always)]
    pub(crate) fn keep(&mut self, place: usize, size: usize) -> Result<(), AllocError>
        requires { place < length self.now.bytes.items }
        ensures bytes { IfOk result (λ _. self.new.bytes.items ≡ slice_set self.old.bytes.items place (min size 255)) }
        ensures small { size < 255 → self.new.large.items ≡ self.old.large.items }
        ensures listed { IfOk result (λ _. 255 ≤ size → size < 4294967296 → place < 4294967296
            → self.new.large.items ≡ self.old.large.items ++ record { place = place; size = size } ∷ []) }
        ensures closed { IfOk result (λ _. (levels : List ℕ) → AreClosed levels self.old.large.items
            → (255 ≤ size → IsClosed levels place size) → AreClosed levels self.new.large.items) }
    {
        if size < TOO_LARGE as usize {
            self.bytes[place] = size as u8;
            return Ok(());
        }
        self.keep_large(place, size)
    }

    /// The same of a size that is too large for a byte.
    #[cold]
    #[inline(never)]
    fn keep_large(&mut self, place: usize, size: usize) -> Result<(), AllocError>
        requires within { place < length self.now.bytes.items }
        requires large { 255 ≤ size }
        ensures bytes { IfOk result (λ _. self.new.bytes.items ≡ slice_set self.old.bytes.items place 255) }
        ensures listed { IfOk result (λ _. size < 4294967296 → place < 4294967296
            → self.new.large.items ≡ self.old.large.items ++ record { place = place; size = size } ∷ []) }
        ensures closed { IfOk result (λ _. (levels : List ℕ) → AreClosed levels self.old.large.items
            → (255 ≤ size → IsClosed levels place size) → AreClosed levels self.new.large.items) }
    {
        self.bytes[place] = TOO_LARGE;
        if let (Ok(place), Ok(size)) = (u32::try_from(place), u32::try_from(size)) {
            self.large.push(LargeSize { place, size })?;
        }
        Ok(())
    }

    /// Sorts those that are too large for a byte by their places, as [`Sizes::after`] searches them. Takes no memory.
    pub(crate) fn sort(&mut self)
        ensures bytes { self.new.bytes.items ≡ self.old.bytes.items }
        ensures large { IsPermutation self.old.large.items self.new.large.items }
    {
        self.large
            .sort_unstable_by_key(|large: &LargeSize| -> u32 { large.place });
    }
}
