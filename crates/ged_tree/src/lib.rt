//! The structures of a FamilySearch GEDCOM 7.0 file, as a flat table.
//!
//! A [`Flat`] lists the structures as slices of a file. It is a [`Forest`], by which the structures are read at their
//! places.
#![tactic(auto)]

mod fault;
mod forest;
mod judge;
mod laws;
mod payload;
mod room;
mod table;

pub use fault::{BuildFault, TreeAt, TreeFault};
pub use forest::continuations::FurtherLines;
pub use forest::own_line::OwnLine;
pub use forest::payload::PayloadView;
pub use forest::{Forest, end_of_all, next_in_run};
pub use judge::Judge;
pub use laws::documents::{
    are_lines, document_or_fault, faulty_file_fails, faulty_has_none, none_shared,
    one_fault_in_file, one_first_fault, one_list, pass_is_document,
};
pub use laws::files::{
    faulty_file_has_none, file_fault_is_build_fault, first_fault_stays, same_lines_one_document,
};
pub use laws::places::{
    begins_on_line, counted_lines, listed_at_place, next_line, one_document, one_for_each_place,
};
pub use laws::whole_files::document_or_fault_of_file;
pub use payload::{Payload, TextLines};
pub use room::{give_back, room_in_large_pages};
pub use table::bare_lines::BareLines;
pub use table::flat::Flat;
pub use table::flatten::{flatten, flatten_text_with, flatten_with};
pub use table::line_reader::LineReader;
