//! Which files of FamilySearch GEDCOM 7.0 are accepted, what is told of those that are, and what is wrong with each of the others.
#![tactic(auto)]

mod accepted;
mod endings;
mod gathered;
mod laws;
mod noticed;
mod readers;
mod show;

pub use accepted::{Accepted, accept, accept_text};
pub use laws::{
    accepted_is_faultless, accepted_or_faulty, lines_from_one, one_accepted, one_file_fault,
    one_list_of_notices, one_verdict, strict_refuses_notices,
};
pub use noticed::{notices, verdict};
pub use show::{show_text, write_shown};
