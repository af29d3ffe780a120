// The sizes of a table's structures, found while the table grows.
ghost use Rattle.std.specs.Prelude.{◌≡◌, ◌≤◌, ◌<◌, ◌+◌, ◌++◌, ◌∷◌, [], ℕ, List, IfOk, length, max};
ghost use Rattle.ged_tree.specs.Rows.{AreSizes, kept_levels};
ghost use Rattle.ged_tree.specs.inner.Growing.{Closes, HasSizes, RiseByOne};
ghost use Rattle.ged_tree.specs.declared.table.packed.KeptStructure.{KeptStructure};

use crate::table::closing::Sizes;
use std::alloc::{AllocError, Global};

/// Room for each level that a byte can tell.
const ROOM: usize = 256;

/// The sizes of a table's structures, while the table grows.
///
/// A structure is open as long as all that follow it stand below it. One that is added ends all open ones of its own level and of
/// greater ones. Of these the last one has nothing below it, as its byte tells from the start: so where the level stays the same or
/// grows, as it does for most structures, no size is kept.
#[derive(Drop)]
pub(crate) struct GrowingSizes {
    /// Those of the structures that have ended. Bytes may be missing at the end, or be there for structures that are still to come.
    sizes: Sizes,
    /// For each level up to `last` the place of the structure that is open at it.
    places: [usize; ROOM],
    /// The level of the last structure.
    last: u8,
}

impl GrowingSizes {
    /// Those of no structure.
    pub(crate) fn new(alloc: Global) -> GrowingSizes
        ensures { HasSizes [] result }
    {
        GrowingSizes {
            sizes: Sizes::new(alloc),
            places: [0; ROOM],
            last: 0,
        }
    }

    /// Takes room for the sizes of so many structures. Grows.
    pub(crate) fn reserve(&mut self, count: usize) -> Result<(), AllocError>
        ensures { (levels : List ℕ) → HasSizes levels self.old → HasSizes levels self.new }
    {
        self.sizes.reserve(count)
    }

    /// Ends the structure that is kept for a level, where there are so many structures: all that follow it stand below it. Nothing is
    /// done where there is none at that place.
    #[inline(always)]
    fn close(&mut self, level: usize, count: usize) -> Result<(), AllocError>
        requires level { level < 256 }
        requires count { count ≤ length self.now.sizes.bytes.items }
        ensures closes { IfOk result (λ _. Closes self.old.places level (level + 1) count self.old.sizes self.new.sizes) }
        ensures room { IfOk result (λ _. count ≤ length self.new.sizes.bytes.items) }
        ensures places { self.new.places ≡ self.old.places }
    {
        let place = self.places[level];
        if place >= count {
            return Ok(());
        }
        self.sizes.keep(place, count - place - 1)?;
        Ok(())
    }

    /// Ends the structures that are kept for a level and the greater ones, where there are so many structures; but not the last one.
    #[inline(always)]
    fn close_from(&mut self, level: u8, count: usize) -> Result<(), AllocError>
        ensures closes { IfOk result (λ _. Closes self.old.places level (max level self.old.last) count self.old.sizes self.new.sizes) }
        ensures places { self.new.places ≡ self.old.places }
    {
        let last = self.last;
        if level >= last {
            return Ok(());
        }
        self.sizes.extend(count)?;
        let mut next = usize::from(level);
        while next < usize::from(last) {
            self.close(next, count)?;
            next += 1;
        }
        Ok(())
    }

    /// Adds a structure of this level, where there are so many before it. Grows.
    #[inline(always)]
    pub(crate) fn push(&mut self, level: u8, count: usize) -> Result<(), AllocError>
        ensures { (levels : List ℕ) → count ≡ length levels → HasSizes levels self.old
            → IfOk result (λ _. HasSizes (levels ++ level ∷ []) self.new) }
    {
        self.close_from(level, count)?;
        self.places[usize::from(level)] = count;
        self.last = level;
        Ok(())
    }

    /// The sizes of all structures, of which there are so many. The clause says that the sizes which are kept are true; that each one which
    /// fits is kept, as [`Sizes::keep`] says of one, no clause says of all. Grows.
    pub(crate) fn finish(mut self, count: usize) -> Result<Sizes, AllocError>
        ensures { (structures : List KeptStructure) → count ≡ length structures → RiseByOne 0 (kept_levels structures)
            → HasSizes (kept_levels structures) self → IfOk result (λ sizes. AreSizes structures sizes 0) }
    {
        self.close_from(0, count)?;
        let mut sizes = self.sizes;
        sizes.fit(count)?;
        sizes.sort();
        Ok(sizes)
    }
}
