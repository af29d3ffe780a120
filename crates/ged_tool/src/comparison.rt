// How two files are compared.
use crate::settings::Settings;

/// The form in which files are compared: they are the same where their bytes in it are equal.
#[derive(Clone, Copy, Debug, PartialEq, Eq)]
pub enum Form {
    /// The canonical form, as [`canonicalise_as`](crate::canonicalise_as) writes it. What a record's identifier is does not
    /// count, but which record each pointer names.
    Canonical,
    /// The tidy form, as [`tidy_as`](crate::tidy_as) writes it. Identifiers count too, so files are not the same where they
    /// differ in one.
    Tidy,
}

/// How two files are compared.
#[derive(Clone, Copy, Debug, PartialEq, Eq)]
pub struct Comparison {
    /// The profile under which both files have to be accepted, and the edition of their form.
    pub settings: Settings,
    /// The form in which they are compared.
    pub form: Form,
}
