// What the structure tables find wrong with a document.

/// Why a structure is not as the tables ask (FamilySearch GEDCOM 7.0, "Structure Organization" and "Data types").
#[derive(Clone, Copy, Debug, PartialEq, Eq)]
pub enum SchemaFault {
    /// The payload of VERS below HEAD's GEDC is neither `7.0` nor `7.0.` and one or more digits.
    WrongVersion,
    /// Another payload is not of its row's kind.
    BadPayload,
    /// A pointer names a record of another tag than its row's kind asks for.
    WrongTarget,
    /// The first structure with its tag under one superstructure that is more than its row allows. It is told at that
    /// structure.
    TooMany,
    /// A structure has fewer substructures with a tag than the tag's row asks for. It is told at their superstructure.
    Missing,
    /// A link between a person and a family in one direction only, under [`crate::Profile::Strict`] alone.
    OneWayLink,
    /// A standard tag without a row, in a context other than [`crate::Context::Unchecked`], under
    /// [`crate::Profile::Strict`] alone.
    UnlistedTag,
}

/// A fault, and the line on which its structure begins, counted from 1. Lines of CONT are counted as well.
#[derive(Clone, Copy, Debug, PartialEq, Eq)]
pub struct SchemaAt {
    pub line: u64,
    pub fault: SchemaFault,
}

/// A fault and the place of its structure, counted from 0 in the order of the lines.
#[derive(Clone, Copy, Debug, PartialEq, Eq)]
pub(crate) struct FaultPlace {
    pub(crate) place: usize,
    pub(crate) fault: SchemaFault,
}
