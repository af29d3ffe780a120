// The lines of a file, one after another.
pub(crate) mod answer;
pub(crate) mod line_views;
pub(crate) mod pieces;
pub(crate) mod respell;
pub(crate) mod spelled_line;
pub(crate) mod spelled_part;
pub(crate) mod whole_lines;
