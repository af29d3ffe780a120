//! The values that payloads of FamilySearch GEDCOM 7.0 spell: dates, periods, times, ages, names and words of a set.
//!
//! A reader answers the parts of a value as slices of the text, and `None` exactly where the text spells none. No call
//! takes memory, and none has a limit on the length of a text.
#![tactic(auto)]

mod age;
mod cut;
mod date;
mod default;
mod enumerations;
mod exact;
mod kind;
mod laws;
mod name;
mod quick;
mod quick_time;
mod restrictions;
mod split;
mod time;
mod value;
mod words;
mod zeros;

pub use age::{Age, Bound, read_age};
pub use date::{Calendar, Date};
pub use default::{Words, without_default};
pub use exact::{ExactDate, read_exact_date};
pub use kind::{Given, Kind, fits};
pub use laws::{leaving_out, one_reading, two_texts};
pub use name::{PersonName, read_name};
pub use split::first_word;
pub use time::{Time, read_time};
pub use value::{DateValue, Period, read_date, read_period};
pub use zeros::{fitting_without_zeros, leaving_out_zeros, trim_zeros, trimming};
