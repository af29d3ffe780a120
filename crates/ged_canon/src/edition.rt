// The editions of the canonical form.

/// Which canonical form is meant. Both put substructures and records in the order of their tags, number the
/// cross-reference identifiers that are used, and leave out the word of the Gregorian calendar.
#[derive(Clone, Copy, Debug, PartialEq, Eq)]
pub enum Edition {
    /// Keeps leading zeros.
    First,
    /// Also leaves out the leading zeros of the Integers in dates, ages and counts (FamilySearch GEDCOM 7.0, "Integer").
    Second,
}
