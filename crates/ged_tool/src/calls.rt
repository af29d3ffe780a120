// The calls of the library: what is asked about a file's bytes.
pub(crate) mod accept;
pub(crate) mod canonicalise;
pub(crate) mod digest;
pub(crate) mod feed;
pub(crate) mod file_text;
pub(crate) mod judged_lines;
pub(crate) mod made;
pub(crate) mod same;
pub(crate) mod spell;
pub(crate) mod tidy;
