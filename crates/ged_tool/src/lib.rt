//! Whole commands on files of FamilySearch GEDCOM 7.0, and the run of one between a reader and a writer.
#![tactic(auto)]

mod calls;
mod comparison;
mod laws;
mod limit;
mod runs;
mod settings;

pub use calls::accept::{accept, accept_as};
pub use calls::canonicalise::{canonicalise, canonicalise_as};
pub use calls::digest::{digest, digest_as};
pub use calls::feed::Feed;
pub use calls::same::{SameFault, same, same_as, same_by};
pub use calls::tidy::{tidy, tidy_as};
pub use comparison::{Comparison, Form};
pub use ged_accept::{
    Accepted, accepted_is_faultless, accepted_or_faulty, lines_from_one, notices, one_accepted,
    one_file_fault, one_list_of_notices, one_verdict, show_text, strict_refuses_notices,
};
pub use ged_canon::Edition;
pub use ged_devices::{Failed, Input, Output, Sink, Source};
pub use ged_faults::{Fault, FileFault, Outcome, Which};
pub use ged_schema::Profile;
pub use laws::{
    headline, lines_keep_the_file, same_have_one_digest, same_in_each_form, same_is_an_equivalence,
    tidy_headline,
};
pub use limit::GREATEST_LIMIT;
pub use runs::answer::{Command, answer};
pub use runs::digest_file::run_digest;
pub use runs::one_file::{run, run_as, run_told};
pub use runs::told::Told;
pub use runs::two_files::{run_same, run_same_as, run_same_told};
pub use settings::Settings;
