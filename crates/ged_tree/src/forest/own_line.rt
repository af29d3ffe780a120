// The line on which a structure begins, as slices.

/// What stands on a structure's own line from its tag on, as slices.
#[derive(Clone, Copy, Debug)]
pub struct OwnLine<'a> {
    /// The tag alone, which is never CONT.
    pub tag: &'a str,
    /// The tag and the first line of the payload, as the canonical spelling has them.
    pub rest: &'a str,
    /// Where the rest may begin in the file that the forest was read from, in bytes behind a byte order mark. It is a hint: a caller looks
    /// whether the rest stands there.
    pub start: usize,
    /// Whether the payload is a pointer that names a record.
    pub points: bool,
}
