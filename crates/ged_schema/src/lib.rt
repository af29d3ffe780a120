//! The structure tables of FamilySearch GEDCOM 7.0: which structures may stand where, how often, and with which
//! payload.
//!
//! [`rows`] and [`lookup`] give the tables. [`check`] judges a document by them, [`unlisted`] tells the standard tags that
//! they do not list where they stand, and [`check_as`] also refuses notices where a [`Profile`] asks for that.
#![tactic(auto)]

mod checking;
mod context;
mod context_rows;
mod fault;
mod laws;
mod line_walk;
mod lookups;
mod notices;
mod payloads;
mod profile;
mod quick_check;
mod rule;
mod slots;
mod tables;

pub use checking::check;
pub use context::Context;
pub use context_rows::ContextRows;
pub use fault::{SchemaAt, SchemaFault};
pub use laws::{
    checked_or_fault, distinct_tags, fault_of_unchecked, no_fault_of_checked, none_is_unlisted,
    one_first_fault, one_listing, one_notice, unlisted_has_place,
};
pub use line_walk::LineWalk;
pub use lookups::{context_below, lookup, lookup_name};
pub use notices::{Coverage, first_unlisted, unlisted};
pub use profile::{Profile, check_as, check_coverage, check_walked};
pub use rule::Rule;
pub use tables::rows;
