// One date: its calendar, day, month, year and epoch.
ghost use Rattle.std.specs.Prelude.{◌≡◌};
ghost use Rattle.std.specs.Option.{option_map};
ghost use Rattle.ged_value.specs.Words.{is_one_of};
ghost use Rattle.ged_value.specs.Texts.{bytes_of};
ghost use Rattle.ged_value.specs.inner.Texts.{texts};
ghost use Rattle.ged_value.specs.Dates.{is_reserved};
ghost use Rattle.ged_value.specs.inner.Months.{calendar_words, keywords};
ghost use Rattle.ged_value.specs.inner.Months.{months_of_31, months_of_30, french_days, french_months, hebrew_months};
ghost use Rattle.ged_value.specs.Dates.{roman_days, greatest_day, is_month, is_day};
ghost use Rattle.ged_value.specs.Dates.{is_calendar, is_day_and_month, is_epoch, is_date};
ghost use Rattle.ged_value.specs.inner.DateReading.{standard_calendar, calendar_at, parts_at, date_at};
ghost use Rattle.ged_value.specs.Views.{calendar_name, date_parts};

use crate::words::{is_extension_tag, is_integer, is_standard_tag, small_number};

/// A calendar of the standard, or one of an extension (FamilySearch GEDCOM 7.0, "Date").
#[derive(Clone, Copy, Debug, PartialEq, Eq)]
pub enum Calendar<'a> {
    /// `GREGORIAN`, the calendar of a date that names none.
    Gregorian,
    /// `JULIAN`.
    Julian,
    /// `FRENCH_R`, the French Republican calendar.
    FrenchR,
    /// `HEBREW`.
    Hebrew,
    /// The calendar that an extension tag names, with its underscore.
    Extension(&'a str),
}

/// A date, as slices of the text that it was read from (FamilySearch GEDCOM 7.0, "Date").
///
/// A number is one digit or more, of any length. Its leading zeros have no meaning.
#[derive(Clone, Copy, Debug, PartialEq, Eq)]
pub struct Date<'a> {
    /// The Gregorian calendar where the text names none.
    pub calendar: Calendar<'a>,
    /// A number from 1 to the greatest day of the month. Leap years aren't looked at, each Hebrew month is given 30
    /// days, and of the months of an extension's calendar no greatest day is known. A day stands only with a month.
    pub day: Option<&'a str>,
    /// A month of the calendar. In an extension's calendar any tag may be one that is no keyword, no calendar of the
    /// standard and not `BCE`.
    pub month: Option<&'a str>,
    /// A number, which may be 0.
    pub year: &'a str,
    /// `BCE` under the Gregorian and the Julian calendar, `BCE` or an extension tag under an extension's. The others
    /// have no epoch.
    pub epoch: Option<&'a str>,
}

fn has_31_days(month: &str) -> bool
    ensures { result ≡ is_one_of months_of_31 month.now }
{
    matches!(month, "JAN" | "MAR" | "MAY" | "JUL" | "AUG" | "OCT" | "DEC")
}

fn has_30_days(month: &str) -> bool
    ensures { result ≡ is_one_of months_of_30 month.now }
{
    matches!(month, "APR" | "JUN" | "SEP" | "NOV")
}

fn is_french_month(month: &str) -> bool
    ensures { result ≡ is_one_of french_months month.now }
{
    matches!(
        month,
        "VEND"
            | "BRUM"
            | "FRIM"
            | "NIVO"
            | "PLUV"
            | "VENT"
            | "GERM"
            | "FLOR"
            | "PRAI"
            | "MESS"
            | "THER"
            | "FRUC"
    )
}

fn is_hebrew_month(month: &str) -> bool
    ensures { result ≡ is_one_of hebrew_months month.now }
{
    matches!(
        month,
        "TSH"
            | "CSH"
            | "KSL"
            | "TVT"
            | "SHV"
            | "ADR"
            | "ADS"
            | "NSN"
            | "IYR"
            | "SVN"
            | "TMZ"
            | "AAV"
            | "ELL"
    )
}

/// The greatest day of a month of the Gregorian and the Julian calendar.
fn roman_days(month: &str) -> Option<u8>
    ensures { result ≡ roman_days month.now }
{
    if has_31_days(month) {
        Some(31)
    } else if has_30_days(month) {
        Some(30)
    } else if month == "FEB" {
        Some(29)
    } else {
        None
    }
}

/// The greatest day of a month of the French Republican calendar.
fn french_days(month: &str) -> Option<u8>
    ensures { result ≡ french_days month.now }
{
    if is_french_month(month) {
        Some(30)
    } else if month == "COMP" {
        Some(6)
    } else {
        None
    }
}

/// The greatest day of a month, or `None` where the calendar has no such month. Each Hebrew month is given 30 days, and
/// of the months of an extension's calendar no greatest day is known.
fn greatest_day(calendar: Calendar<'_>, month: &str) -> Option<u8>
    ensures { result ≡ greatest_day (calendar_name calendar.entry) month.now }
{
    match calendar {
        Calendar::Gregorian | Calendar::Julian => roman_days(month),
        Calendar::FrenchR => french_days(month),
        Calendar::Hebrew => is_hebrew_month(month).then_some(30),
        Calendar::Extension(_) => None,
    }
}

/// A word that stands before a date or between two.
fn is_keyword(word: &str) -> bool
    ensures { result ≡ is_one_of keywords word.now }
{
    matches!(
        word,
        "FROM" | "TO" | "BET" | "AND" | "BEF" | "AFT" | "ABT" | "CAL" | "EST"
    )
}

/// The calendar of the standard that a word names.
fn standard_calendar(word: &str) -> Option<Calendar<'_>>
    ensures { option_map calendar_name result ≡ standard_calendar word.now }
{
    match word {
        "GREGORIAN" => Some(Calendar::Gregorian),
        "JULIAN" => Some(Calendar::Julian),
        "FRENCH_R" => Some(Calendar::FrenchR),
        "HEBREW" => Some(Calendar::Hebrew),
        _ => None,
    }
}

fn is_calendar_word(word: &str) -> bool
    ensures { result ≡ is_one_of calendar_words word.now }
{
    standard_calendar(word).is_some()
}

/// A word that is no month of an extension's calendar, as it has a meaning of its own.
fn is_reserved(word: &str) -> bool
    ensures { result ≡ is_reserved word.now }
{
    is_keyword(word) || is_calendar_word(word) || word == "BCE"
}

pub(crate) fn is_month(calendar: Calendar<'_>, month: &str) -> bool
    ensures { result ≡ is_month (calendar_name calendar.entry) month.now }
{
    match calendar {
        Calendar::Extension(_) => {
            is_extension_tag(month) || is_standard_tag(month) && !is_reserved(month)
        }
        _ => greatest_day(calendar, month).is_some(),
    }
}

pub(crate) fn is_day(calendar: Calendar<'_>, month: &str, day: &str) -> bool
    ensures { result ≡ is_day (calendar_name calendar.entry) month.now day.now }
{
    if !is_integer(day) {
        return false;
    }
    let day = small_number(day);
    match greatest_day(calendar, month) {
        Some(greatest) => 1 <= day && day <= u16::from(greatest),
        None => 1 <= day,
    }
}

fn is_epoch(calendar: Calendar<'_>, epoch: &str) -> bool
    ensures { result ≡ is_epoch (calendar_name calendar.entry) epoch.now }
{
    match calendar {
        Calendar::Gregorian | Calendar::Julian => epoch == "BCE",
        Calendar::FrenchR | Calendar::Hebrew => false,
        Calendar::Extension(_) => epoch == "BCE" || is_extension_tag(epoch),
    }
}

fn is_calendar(calendar: Calendar<'_>) -> bool
    ensures { result ≡ is_calendar (calendar_name calendar.entry) }
{
    match calendar {
        Calendar::Extension(tag) => is_extension_tag(tag),
        _ => true,
    }
}

/// The calendar has the month, and the month the day. A day stands only with a month.
fn is_day_and_month(calendar: Calendar<'_>, day: Option<&str>, month: Option<&str>) -> bool
    ensures { result ≡ is_day_and_month (calendar_name calendar.entry) (option_map bytes_of day.entry)
        (option_map bytes_of month.entry) }
{
    match (day, month) {
        (None, None) => true,
        (Some(_), None) => false,
        (None, Some(month)) => is_month(calendar, month),
        (Some(day), Some(month)) => is_month(calendar, month) && is_day(calendar, month, day),
    }
}

/// The parts are those of a date.
fn is_date(date: &Date<'_>) -> bool
    ensures { result ≡ is_date (date_parts date.now) }
{
    is_calendar(date.calendar)
        && is_day_and_month(date.calendar, date.day, date.month)
        && is_integer(date.year)
        && match date.epoch {
            Some(epoch) => is_epoch(date.calendar, epoch),
            None => true,
        }
}

/// The calendar that a word names.
fn calendar_at(word: &str) -> Option<Calendar<'_>>
    ensures { option_map calendar_name result ≡ calendar_at word.now }
{
    let extension = is_extension_tag(word).then_some(Calendar::Extension(word));
    standard_calendar(word).or(extension)
}

/// The parts behind the calendar. A last word that is no number is the epoch; so the number of words tells the rest.
fn parts_at<'a>(calendar: Calendar<'a>, words: &[&'a str]) -> Option<Date<'a>>
    ensures { option_map date_parts result
        ≡ parts_at (calendar_name calendar.entry) (texts words.now) }
{
    let (day, month, year, epoch) = match words {
        [year] => (None, None, *year, None),
        [month, year] if is_integer(year) => (None, Some(*month), *year, None),
        [year, epoch] => (None, None, *year, Some(*epoch)),
        [day, month, year] if is_integer(year) => (Some(*day), Some(*month), *year, None),
        [month, year, epoch] => (None, Some(*month), *year, Some(*epoch)),
        [day, month, year, epoch] => (Some(*day), Some(*month), *year, Some(*epoch)),
        _ => return None,
    };
    Some(Date {
        calendar,
        day,
        month,
        year,
        epoch,
    })
}

/// The date that the words spell.
pub(crate) fn date_at<'a>(words: &[&'a str]) -> Option<Date<'a>>
    ensures { option_map date_parts result ≡ date_at (texts words.now) }
{
    let (first, others) = words.split_first()?;
    let date = match calendar_at(first) {
        Some(calendar) => parts_at(calendar, others)?,
        None => parts_at(Calendar::Gregorian, words)?,
    };
    is_date(&date).then_some(date)
}
