//! The structures of a FamilySearch GEDCOM 7.0 file, as trees that own their texts.
//!
//! A [`Document`] owns its structures as [`Node`]s, so it outlives the file that it was read from, and a caller can build
//! one. It is a [`Forest`](ged_tree::Forest), by which the calls of other crates read it.
#![tactic(auto)]

mod accepted;
mod building;
mod canon;
mod copying;
mod document;
mod forest;
mod laws;
mod lines;
mod node;
mod paths;
mod walks;

pub use accepted::ToDocument;
pub use building::build;
pub use canon::{canonical, canonical_in, write_document};
pub use copying::document_of;
pub use document::Document;
pub use laws::{known_by_trees, one_place};
pub use lines::to_lines;
pub use node::{Node, RecordNode};
pub use paths::line_of;
