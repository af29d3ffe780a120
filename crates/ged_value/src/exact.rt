// Exact dates: a day, a month and a year of the Gregorian calendar.
ghost use Rattle.std.specs.Prelude.{◌≡◌};
ghost use Rattle.std.specs.Option.{option_map};
ghost use Rattle.ged_value.specs.inner.Texts.{texts};
ghost use Rattle.ged_value.specs.Reading.{Reads};
ghost use Rattle.ged_value.specs.Exact.{ExactText, is_exact as tests_exact};
ghost use Rattle.ged_value.specs.inner.ExactReading.{exact_at as reads_exact};
ghost use Rattle.ged_value.specs.ExactViews.{exact_parts};

use crate::date::{Calendar, is_day, is_month};
use crate::split::words_of;
use crate::words::is_integer;

/// A day, a month and a year of the Gregorian calendar, as the text spells them (FamilySearch GEDCOM 7.0, "Date").
#[derive(Clone, Copy, Debug, PartialEq, Eq)]
pub struct ExactDate<'a> {
    /// The digits of the day in its month, which may begin with zeros.
    pub day: &'a str,
    /// One of the words from `JAN` to `DEC`.
    pub month: &'a str,
    /// The digits of the year, which may begin with zeros.
    pub year: &'a str,
}

/// Whether the month is of the Gregorian calendar, the day of the month, and the year a number.
fn is_exact(date: &ExactDate<'_>) -> bool
    ensures { result ≡ tests_exact (exact_parts date.now) }
{
    is_month(Calendar::Gregorian, date.month)
        && is_day(Calendar::Gregorian, date.month, date.day)
        && is_integer(date.year)
}

fn exact_at<'a>(words: &[&'a str]) -> Option<ExactDate<'a>>
    ensures { option_map exact_parts result ≡ reads_exact (texts words.now) }
{
    let [day, month, year] = words else {
        return None;
    };
    let date = ExactDate {
        day: *day,
        month: *month,
        year: *year,
    };
    is_exact(&date).then_some(date)
}

/// The exact date that a text spells: a day, a month and a year with one space between them. `None` where the text
/// is anything else, as with a calendar's word or an epoch. Takes no memory (FamilySearch GEDCOM 7.0, "Date").
pub fn read_exact_date(text: &str) -> Option<ExactDate<'_>>
    ensures { Reads result exact_parts (λ date. ExactText date text.now) }
{
    match words_of(text) {
        Some(words) => exact_at(words.as_slice()),
        None => None,
    }
}
