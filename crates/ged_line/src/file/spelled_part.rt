// A part of a file's canonical spelling.

/// A part of a file's canonical spelling: bytes that were made, and behind them bytes of the file. Each may be empty.
#[derive(Drop)]
pub struct SpelledPart<'a> {
    /// What the file spells in another way.
    pub made: Vec<u8>,
    /// What stands in the file as it should be spelled.
    pub kept: &'a [u8],
}
