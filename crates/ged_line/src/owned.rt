// Lines and their parts that own their texts. They stand on the slices of `line` and `file`, which know nothing of them.
pub(crate) mod line;
pub(crate) mod lines;
pub(crate) mod names;
pub(crate) mod text;
pub(crate) mod write;
