// What a structure carries, as slices.

/// A payload by its first line, as slices.
#[derive(Clone, Copy, Debug, PartialEq, Eq)]
pub enum PayloadView<'a> {
    /// The void pointer, `@VOID@`.
    Void,
    /// The name of the record that is pointed at, without its `@`.
    Pointer(&'a str),
    /// The first line of a text.
    Text(&'a str),
}
