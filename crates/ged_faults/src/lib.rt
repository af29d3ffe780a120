//! What can be wrong with a file of FamilySearch GEDCOM 7.0 or with what is asked of it, and the numbers by which a program tells it.
#![tactic(auto)]

mod faults;

pub use faults::{Fault, FileFault, Outcome, Which};
