//! The lines of a FamilySearch GEDCOM 7.0 file, as bytes and as values.
//!
//! The borrowed form is the core: [`view_line`] reads one line as slices, and [`write_view`] writes it. The owned
//! types are copies of what a view shows.
#![tactic(auto)]

mod bytes;
mod fault;
mod file;
mod laws;
mod line;
mod owned;

pub use bytes::characters::is_plain;
pub use fault::{LineAt, LineFault, ParseFault, RespellFault};
pub use file::line_views::{LineViews, first_line, text_behind_mark, view_lines};
pub use file::pieces::{Pieces, behind_mark, split_pieces};
pub use file::respell::{respell_lines, respell_parts};
pub use file::spelled_line::SpelledLine;
pub use file::spelled_part::SpelledPart;
pub use file::whole_lines::{further_lines, one_whole_front, split_whole, whole_pieces_stay};
pub use laws::{line_or_fault, one_cut, one_line, one_reading, spelling_spells, written_is_read};
pub use line::names::{is_same_tag, tag_order};
pub use line::read::{view_line, view_text};
pub use line::view::{LineView, ValueView};
pub use line::write::{write_head, write_parts, write_view};
pub use owned::line::{Line, LineValue, parse_line};
pub use owned::lines::{Lines, read_lines};
pub use owned::names::{Tag, Xref};
pub use owned::text::Text;
pub use owned::write::{write_line, write_lines};
