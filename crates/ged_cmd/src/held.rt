// The number of a standard input that is closed.
use std::fs::{self, File};
use std::io::ErrorKind;
use std::rt::Files;

/// What holds the number of standard input where that is closed, so that no file that is opened later gets it and is read in its
/// place. It is the root folder, which is always there, and can't be read, neither by the number nor under a name that stands for the
/// number, such as `/dev/stdin`. That standard input is closed is told without a read of it, which could stop a program in the
/// background of a terminal. Where the system has no such names, one more number is held, which does no harm.
pub fn held_input<F: Files>(files: &F) -> Option<F::File> {
    match fs::symlink_metadata(files, "/dev/fd/0") {
        Err(error) if error.kind() == ErrorKind::NotFound => File::open(files, "/").ok(),
        _ => None,
    }
}
