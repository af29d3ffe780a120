//! One caller of each library, proved: what a program that stands on it looks like. The README of each library shows its part. No
//! part of the product.
#![tactic(auto)]

mod accepted;
mod canonical;
mod devices;
mod documents;
mod explanations;
mod faults;
mod files;
mod lines;
mod links;
mod tables;
mod trees;
mod values;

pub use accepted::notices_of;
pub use canonical::canonical_if_checked;
pub use devices::send;
pub use documents::keep_document;
pub use explanations::say_fault;
pub use faults::told_number;
pub use files::strict_canon;
pub use lines::{count_lines, respell};
pub use links::first_link;
pub use tables::{kind_below_person, table_fault};
pub use trees::count_records;
pub use values::year_of;
