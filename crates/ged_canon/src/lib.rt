//! The canonical form of a FamilySearch GEDCOM 7.0 file, and the laws that make it one.
#![tactic(auto)]

mod edition;
mod laws;
mod normal;
mod spelled;
mod writer;

pub use edition::Edition;
pub use laws::{
    editions_agree, editions_agree_in_place, equal_normal_forms, equal_tidy_forms, equivalence,
    normal_form_exists, normal_form_is_accepted, normal_form_is_unique, normal_form_of_tidy, steps,
    steps_in_place, tidy_form_exists, tidy_form_is_unique,
};
pub use normal::{is_normal, is_normal_in};
pub use spelled::SpelledForm;
pub use spelled::reader::FormReader;
pub use writer::alike::{IndexedDocument, have_same_form};
pub use writer::document::{canonical_bytes, canonical_bytes_in, spell_canonical_in};
pub use writer::tidy::{spell_tidy_in, tidy_bytes_in};
