// Periods and date values.
ghost use Rattle.std.specs.Prelude.{◌≡◌, codes};
ghost use Rattle.std.specs.Option.{option_map};
ghost use Rattle.ged_value.specs.inner.Texts.{texts};
ghost use Rattle.ged_value.specs.inner.WordReading.{around};
ghost use Rattle.ged_value.specs.Reading.{Reads};
ghost use Rattle.ged_value.specs.Values.{PeriodText, DateValueText, between};
ghost use Rattle.ged_value.specs.inner.DateReading.{date_at};
ghost use Rattle.ged_value.specs.inner.ValueReading.{keyword_at, behind, both_dates, period_from, period_at, value_at, dates_at};
ghost use Rattle.ged_value.specs.Views.{date_parts};
ghost use Rattle.ged_value.specs.ValueViews.{period_parts, value_parts};

use crate::date::{Date, date_at};
use crate::split::{around, words_of};

/// The time over which something went on, by the dates at its ends (FamilySearch GEDCOM 7.0, "Date").
#[derive(Clone, Copy, Debug, PartialEq, Eq)]
pub enum Period<'a> {
    /// The empty text.
    Empty,
    /// `TO`: it ended on the date, and began earlier.
    To(Date<'a>),
    /// `FROM`: it began on the date, and ended later.
    From(Date<'a>),
    /// `FROM` and `TO`: it began on the first date and ended on the second.
    FromTo(Date<'a>, Date<'a>),
}

/// A date with what is known of it, or a period (FamilySearch GEDCOM 7.0, "Date").
#[derive(Clone, Copy, Debug, PartialEq, Eq)]
pub enum DateValue<'a> {
    /// A period, the empty one among them.
    Span(Period<'a>),
    /// A date without a keyword.
    Plain(Date<'a>),
    /// `BET` and `AND`: no earlier than the first date and no later than the second.
    Between(Date<'a>, Date<'a>),
    /// `AFT`: no earlier than the date.
    After(Date<'a>),
    /// `BEF`: no later than the date.
    Before(Date<'a>),
    /// `ABT`: near the date.
    About(Date<'a>),
    /// `CAL`: the date, which is calculated from other data.
    Calculated(Date<'a>),
    /// `EST`: near the date, which is calculated from other data.
    Estimated(Date<'a>),
}

/// A keyword that stands before a single date.
#[derive(Clone, Copy)]
enum Keyword {
    After,
    Before,
    About,
    Calculated,
    Estimated,
}

/// The keyword that a word is.
fn keyword_at(word: &str) -> Option<Keyword>
    ensures { result ≡ keyword_at word.now }
{
    match word {
        "AFT" => Some(Keyword::After),
        "BEF" => Some(Keyword::Before),
        "ABT" => Some(Keyword::About),
        "CAL" => Some(Keyword::Calculated),
        "EST" => Some(Keyword::Estimated),
        _ => None,
    }
}

/// The date value of a keyword and the date behind it.
fn behind(keyword: Keyword, date: Date<'_>) -> DateValue<'_>
    ensures { value_parts result ≡ behind keyword (date_parts date.entry) }
{
    match keyword {
        Keyword::After => DateValue::After(date),
        Keyword::Before => DateValue::Before(date),
        Keyword::About => DateValue::About(date),
        Keyword::Calculated => DateValue::Calculated(date),
        Keyword::Estimated => DateValue::Estimated(date),
    }
}

/// The dates that the words of two sides spell.
fn both_dates<'a>(before: &[&'a str], after: &[&'a str]) -> Option<(Date<'a>, Date<'a>)>
    ensures { option_map (λ dates. (date_parts dates.0, date_parts dates.1)) result
        ≡ both_dates (date_at (texts before.now)) (date_at (texts after.now)) }
{
    Some((date_at(before)?, date_at(after)?))
}

/// The dates before and after a word, if it stands there.
fn dates_at<'a>(words: &[&'a str], word: &str) -> Option<(Date<'a>, Date<'a>)>
    ensures { option_map (λ dates. (date_parts dates.0, date_parts dates.1)) result
        ≡ dates_at (around word.now (texts words.now)) }
{
    let (before, after) = around(words, word)?;
    both_dates(before, after)
}

/// The period of the words behind `FROM`.
fn period_from<'a>(words: &[&'a str]) -> Option<Period<'a>>
    ensures { option_map period_parts result ≡ period_from (texts words.now) }
{
    match around(words, "TO") {
        Some((before, after)) => {
            let (start, end) = both_dates(before, after)?;
            Some(Period::FromTo(start, end))
        }
        None => date_at(words).map(Period::From),
    }
}

/// The period that the words spell.
fn period_at<'a>(words: &[&'a str]) -> Option<Period<'a>>
    ensures { option_map period_parts result ≡ period_at (texts words.now) }
{
    let (first, others) = words.split_first()?;
    match *first {
        "TO" => date_at(others).map(Period::To),
        "FROM" => period_from(others),
        "" => others.is_empty().then_some(Period::Empty),
        _ => None,
    }
}

/// The date value of the words behind `BET`.
fn between_at<'a>(words: &[&'a str]) -> Option<DateValue<'a>>
    ensures { option_map value_parts result
        ≡ option_map (λ dates. between dates.0 dates.1) (dates_at (around (codes "AND") (texts words.now))) }
{
    let (first, last) = dates_at(words, "AND")?;
    Some(DateValue::Between(first, last))
}

/// The date value that the words spell.
fn value_at<'a>(words: &[&'a str]) -> Option<DateValue<'a>>
    ensures { option_map value_parts result ≡ value_at (texts words.now) }
{
    let (first, others) = words.split_first()?;
    if let Some(keyword) = keyword_at(first) {
        return Some(behind(keyword, date_at(others)?));
    }
    match *first {
        "BET" => between_at(others),
        "" | "TO" | "FROM" => period_at(words).map(DateValue::Span),
        _ => date_at(words).map(DateValue::Plain),
    }
}

/// The period that a text spells, or `None` exactly where it spells none: the empty text, or one or two dates behind
/// `FROM` and `TO`. The parts are slices of the text. Takes no memory (FamilySearch GEDCOM 7.0, "Date").
pub fn read_period(text: &str) -> Option<Period<'_>>
    ensures { Reads result period_parts (λ parts. PeriodText parts text.now) }
{
    period_at(words_of(text)?.as_slice())
}

/// The date value that a text spells, or `None` exactly where it spells none: a period, a date, or a date or two behind
/// keywords, with single spaces between the words. The parts are slices of the text. Takes no memory (FamilySearch
/// GEDCOM 7.0, "Date").
pub fn read_date(text: &str) -> Option<DateValue<'_>>
    ensures { Reads result value_parts (λ parts. DateValueText parts text.now) }
{
    value_at(words_of(text)?.as_slice())
}
