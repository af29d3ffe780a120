// A line as slices of a file, and the text that spells it there.
use crate::line::view::LineView;

/// A line of a file, as slices, and the whole text that spells it there, without its end.
#[derive(Drop)]
pub struct SpelledLine<'a> {
    pub line: LineView<'a>,
    pub text: &'a str,
}
