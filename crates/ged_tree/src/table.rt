// A document as a flat table of slices of its file: made in one pass, and asked by places.
pub(crate) mod bare_lines;
pub(crate) mod builder;
pub(crate) mod closing;
pub(crate) mod flat;
pub(crate) mod flatten;
pub(crate) mod growing;
pub(crate) mod line_reader;
pub(crate) mod packed;
pub(crate) mod structure;
