//! What the faults and notices of `gedtool` mean, in words for people who keep family trees.
//!
//! [`meanings`] is the table of what each fault means. [`explain_fault`], [`explain_notice`] and [`explain_device`] make the
//! lines that say of one file where a fault or a notice stands, what belongs there, and what usually causes it. [`Explainer`] makes
//! those of many notices of one file.
#![tactic(auto)]

mod characters;
mod explainer;
mod explaining;
mod explanation;
mod faults;
mod kinds;
mod path;
mod pieces;
mod shown;
mod site;
mod table;
mod version;
mod wrong_lines;
mod wrong_links;
mod wrong_structures;
mod wrong_tables;

pub use characters::is_harmless;
pub use explainer::Explainer;
pub use explaining::{explain_device, explain_fault, explain_notice};
pub use faults::{Meaning, meaning_named, meaning_numbered, meaning_of, meanings};
pub use pieces::piece_at;
