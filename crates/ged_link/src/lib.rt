//! Cross-references: the records that pointers name, and links in one direction only.
#![tactic(auto)]

mod fault;
mod groups;
mod index;
mod keys;
mod laws;
mod layout;
mod link_lists;
mod links;
mod listed_pointer;
mod listing;
mod names;
mod naming_order;
mod notices;
mod pairs;
mod places;
mod pointer_list;
mod pointer_tag;
mod pointers;
mod record_reader;
mod record_type;
mod records_by_text;
mod resolving;
mod slots;
mod targets;
mod text_slots;

pub use fault::LinkFault;
pub use index::Index;
pub use laws::{
    identifiers_have_places, one_link_fault, one_record_has_name, one_way_has_place,
    resolved_is_faultless, resolved_or_fault,
};
pub use notices::{Notice, NoticeKind, first_one_way, one_way};
pub use places::RecordCursor;
pub use record_reader::RecordReader;
pub use record_type::RecordType;
pub use resolving::{resolve, resolve_with};
pub use targets::PointerCursor;
