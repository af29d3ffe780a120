// One line: what it shows as slices, how it is read and how it is written.
pub(crate) mod names;
pub(crate) mod read;
pub(crate) mod view;
pub(crate) mod write;
