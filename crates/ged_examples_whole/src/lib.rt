//! Asks `ged_tool`, `ged_devices` and `ged_explain` what rows of data say of them, and compares each whole call with all others that
//! have the same answer. It is no part of `gedtool`.
#![tactic(auto)]

mod agreement;
mod by_trees;
mod devices;
mod digests;
mod explaining;
mod fakes;
mod feeding;
mod large;
mod ranges;
mod respelling;
mod whole;

pub use agreement::{Answered, LIMIT, are_same, say_fault, say_outcome, written};
use ged_examples_answers::Answer;
use std::alloc::Global;
pub use whole::settings_of;

/// Answers a call on an argument; false where no module has a call of this name.
pub fn answer_call(alloc: Global, call: &str, argument: &[u8], answer: &mut Answer) -> bool {
    whole::answer(alloc, call, argument, answer)
        || devices::answer(alloc, call, argument, answer)
        || explaining::answer(alloc, call, argument, answer)
}
