//! The commands of the program `gedtool`: what its words ask for, done over any files, input, output and errors.
#![tactic(auto)]

mod arguments;
mod commands;
mod digest_words;
mod digests;
mod explanations;
mod grammar;
mod held;
mod help;
mod meanings;
mod names;
mod program;
mod shelf;
mod tells;
mod wanted;
mod words;

pub use held::held_input;
pub use program::{Streams, perform, words_of};
pub use shelf::{Disk, Shelf};
