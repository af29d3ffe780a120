// Runs: a command between a reader and a writer.
pub(crate) mod answer;
pub(crate) mod digest_file;
pub(crate) mod digest_line;
pub(crate) mod one_file;
pub(crate) mod reading;
pub(crate) mod told;
pub(crate) mod two_files;
pub(crate) mod whole_file;
pub(crate) mod written;
