//! Asks the libraries of this repository up to `ged_canon`, and `ged_document`, what rows of data say of them. It is no part of
//! `gedtool`.
#![tactic(auto)]

mod canon;
mod forests;
mod forms;
mod laws;
mod lines;
mod links;
mod made;
mod nodes;
mod parts;
mod questions;
mod tables;
mod trees;
mod values;
mod ways;

use ged_examples_answers::Answer;
use std::alloc::Global;

/// Answers a call on an argument; false where no module has a call of this name.
pub fn answer_call(alloc: Global, call: &str, argument: &[u8], answer: &mut Answer) -> bool {
    lines::answer(alloc, call, argument, answer)
        || laws::answer(call, argument, answer)
        || trees::answer(alloc, call, argument, answer)
        || values::answer(alloc, call, argument, answer)
        || tables::answer(alloc, call, argument, answer)
        || questions::answer(alloc, call, argument, answer)
        || canon::answer(alloc, call, argument, answer)
        || forms::answer(alloc, call, argument, answer)
}
