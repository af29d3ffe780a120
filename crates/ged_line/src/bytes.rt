// Bytes many at a time: line ends, characters that may not stand in a line, blocks of whole lines.
pub(crate) mod blocks;
pub(crate) mod characters;
pub(crate) mod cut;
pub(crate) mod line_ends;
