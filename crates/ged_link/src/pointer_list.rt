// The list of pointers that is overwritten in its place by what they name, while they are followed.
ghost use Rattle.std.specs.Prelude.{◌≡◌, ◌<◌, ◌≤◌, ◌+◌, ◌⊎◌, ◌∷◌, List, OnOk, Some, slice_get};
ghost use Rattle.ged_line.specs.Bytes.{Bytes};
ghost use Rattle.ged_tree.specs.Trees.{Trees};
ghost use Rattle.ged_link.specs.Targets.{PointsAt, AreTargets};
ghost use Rattle.ged_link.specs.inner.PointerLists.{IsListedPointer, AreListedFirst, IsPointerList, HasRoom};

use crate::listed_pointer::NOT_LISTED;
use crate::targets::{Target, short_target};
use std::alloc::AllocError;

/// What the pointers that are followed name, and behind that what is listed of the others ([`crate::listed_pointer::list_pointer`]), in
/// one vector, so that the list takes no memory beside that of the targets.
///
/// The list may end before the pointers do: of the others nothing is listed.
#[derive(Drop)]
pub(crate) struct PointerList {
    pub(crate) targets: Vec<Target>,
    /// How many targets stand at the front.
    pub(crate) written: usize,
    /// Where the list of those that are left begins.
    pub(crate) read: usize,
}

impl PointerList {
    /// Of pointers that are listed, none of which is followed yet.
    pub(crate) fn new(listed: Vec<Target>) -> PointerList
        ensures { (document : Trees) (left : List (Bytes × Bytes)) → AreListedFirst listed.items left → IsPointerList document left result }
    {
        PointerList {
            targets: listed,
            written: 0,
            read: 0,
        }
    }

    /// What is listed of the next pointer.
    #[inline(always)]
    pub(crate) fn take_next(&mut self) -> Target
        ensures { (document : Trees) (tag name : Bytes) (left : List (Bytes × Bytes)) → IsPointerList document ((tag, name) ∷ left) self.old
            → IsListedPointer result tag name × (HasRoom self.new × IsPointerList document left self.new) }
    {
        let Some(listed) = self.targets.get(self.read).copied() else {
            return NOT_LISTED;
        };
        self.read += 1;
        listed
    }

    /// Adds that the pointer at a place, which was taken last, names the record with a number, if 32 bits hold both. Grows where the list
    /// has ended.
    #[inline(always)]
    pub(crate) fn put_target(&mut self, place: usize, number: usize) -> Result<(), AllocError>
        requires { HasRoom self.old }
        ensures told { OnOk result ((document : Trees) (left : List (Bytes × Bytes)) → PointsAt document place number
            → IsPointerList document left self.old → IsPointerList document left self.new) }
        ensures kept { OnOk result (place < 4294967296 → number < 4294967296 → (self.new.written ≡ self.old.written + 1)
            × (slice_get self.new.targets.items self.old.written ≡ Some (record { place = place; number = number }))) }
        ensures left_out { (4294967296 ≤ place) ⊎ (4294967296 ≤ number) → self.new ≡ self.old }
    {
        let Some(target) = short_target(place, number) else {
            return Ok(());
        };
        if self.written < self.read {
            self.targets[self.written] = target;
            self.written += 1;
            return Ok(());
        }
        self.targets.push(target)?;
        self.written += 1;
        self.read += 1;
        Ok(())
    }

    /// The targets alone.
    pub(crate) fn into_targets(self) -> Vec<Target>
        ensures { (document : Trees) (left : List (Bytes × Bytes)) → IsPointerList document left self → AreTargets document result.items }
    {
        let mut targets = self.targets;
        targets.truncate(self.written);
        targets
    }
}
