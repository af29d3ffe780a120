//! Makes each call of the libraries of this repository that grows with each of its growths refused, and tells how it answers. It is no
//! part of `gedtool`.
#![tactic(auto)]

mod answers;
mod calls;
mod explained;
mod feeds;
mod files;
mod growths;
mod lines;
mod still;

pub use growths::{Marks, refuse_growths};
