//! What the rows of the worked examples ask, and what calls are told as. It is no part of `gedtool`.
#![tactic(auto)]

mod answers;
mod questions;

pub use answers::Answer;
pub use questions::{Question, two_parts};
