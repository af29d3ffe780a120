// What is wrong with the cross-references of a document.
ghost use Rattle.std.specs.Prelude.{◌≡◌};
ghost use Rattle.ged_link.specs.declared.fault.LinkFault.TheVariants.{Memory};

use std::alloc::AllocError;

/// Why the cross-references of a document are not resolved (FamilySearch GEDCOM 7.0, "Lines").
#[derive(Debug, Drop)]
pub enum LinkFault {
    /// The first record whose identifier an earlier record has begins on this line, counted from 1.
    Duplicate(u64),
    /// No identifier is repeated, and the first structure with a pointer that names no record begins on this line,
    /// counted from 1.
    Dangling(u64),
    /// A growth was refused.
    Memory(AllocError),
}

impl From<AllocError> for LinkFault {
    ghost from_gives = { λ error fault. fault ≡ Memory error };

    fn from(error: AllocError) -> LinkFault {
        LinkFault::Memory(error)
    }
}
