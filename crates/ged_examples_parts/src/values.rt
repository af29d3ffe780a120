// Calls of `ged_value`.
use ged_examples_answers::Answer;
use ged_value::{
    Age, Bound, Calendar, Date, DateValue, ExactDate, Given, Kind, Period, PersonName, Time,
    first_word, fits, fitting_without_zeros, leaving_out, leaving_out_zeros, one_reading, read_age,
    read_date, read_exact_date, read_name, read_period, read_time, trim_zeros, trimming, two_texts,
    without_default,
};
use std::alloc::{AllocError, Global};

/// Answers a call on an argument; false where this module has no call of this name.
pub(crate) fn answer(alloc: Global, call: &str, argument: &[u8], answer: &mut Answer) -> bool {
    let Ok(text) = str::from_utf8(argument) else {
        return false;
    };
    answer_value(call, text, answer)
        || answer_kind(call, text, answer)
        || answer_words(alloc, call, text, answer)
}

/// The calls that read a value.
fn answer_value(call: &str, text: &str, answer: &mut Answer) -> bool {
    match call {
        "read_date" => say_value(answer, read_date(text)),
        "read_period" => say_period(answer, read_period(text)),
        "read_exact_date" => say_exact(answer, read_exact_date(text)),
        "read_time" => say_time(answer, read_time(text)),
        "read_age" => say_age(answer, read_age(text)),
        "read_name" => say_name(answer, read_name(text)),
        _ => return false,
    }
    true
}

/// Says a part, if it is there, with a space before it where others stand before it.
fn say_part(answer: &mut Answer, name: &str, text: Option<&str>) {
    let Some(text) = text else {
        return;
    };
    if !answer.as_slice().is_empty() {
        answer.say(" ");
    }
    answer.say(name);
    answer.say("=");
    answer.say(text)
}

fn say_date(answer: &mut Answer, date: Date<'_>) {
    let (name, calendar) = match date.calendar {
        Calendar::Gregorian => ("calendar", "Gregorian"),
        Calendar::Julian => ("calendar", "Julian"),
        Calendar::FrenchR => ("calendar", "FrenchR"),
        Calendar::Hebrew => ("calendar", "Hebrew"),
        Calendar::Extension(tag) => ("extension", tag),
    };
    say_part(answer, name, Some(calendar));
    say_part(answer, "day", date.day);
    say_part(answer, "month", date.month);
    say_part(answer, "year", Some(date.year));
    say_part(answer, "epoch", date.epoch)
}

/// Says a word, and one date or two behind it.
fn say_dates(answer: &mut Answer, word: &str, date: Date<'_>, last: Option<Date<'_>>) {
    answer.say(word);
    say_date(answer, date);
    if let Some(date) = last {
        say_date(answer, date);
    }
}

fn say_period(answer: &mut Answer, period: Option<Period<'_>>) {
    match period {
        Some(Period::Empty) => answer.say("Empty"),
        Some(Period::To(date)) => say_dates(answer, "To", date, None),
        Some(Period::From(date)) => say_dates(answer, "From", date, None),
        Some(Period::FromTo(start, end)) => say_dates(answer, "FromTo", start, Some(end)),
        None => answer.say("None"),
    }
}

fn say_value(answer: &mut Answer, value: Option<DateValue<'_>>) {
    let Some(value) = value else {
        return answer.say("None");
    };
    match value {
        DateValue::Span(period) => {
            answer.say("Span ");
            say_period(answer, Some(period))
        }
        DateValue::Plain(date) => say_dates(answer, "Plain", date, None),
        DateValue::Between(first, last) => say_dates(answer, "Between", first, Some(last)),
        DateValue::After(date) => say_dates(answer, "After", date, None),
        DateValue::Before(date) => say_dates(answer, "Before", date, None),
        DateValue::About(date) => say_dates(answer, "About", date, None),
        DateValue::Calculated(date) => say_dates(answer, "Calculated", date, None),
        DateValue::Estimated(date) => say_dates(answer, "Estimated", date, None),
    }
}

fn say_exact(answer: &mut Answer, date: Option<ExactDate<'_>>) {
    let Some(date) = date else {
        return answer.say("None");
    };
    say_part(answer, "day", Some(date.day));
    say_part(answer, "month", Some(date.month));
    say_part(answer, "year", Some(date.year))
}

fn say_time(answer: &mut Answer, time: Option<Time<'_>>) {
    let Some(time) = time else {
        return answer.say("None");
    };
    say_part(answer, "hour", Some(time.hour));
    say_part(answer, "minute", Some(time.minute));
    say_part(answer, "second", time.second);
    say_part(answer, "fraction", time.fraction);
    say_part(answer, "zone", time.utc.then_some("utc"))
}

fn say_age(answer: &mut Answer, age: Option<Age<'_>>) {
    let Some(age) = age else {
        return answer.say("None");
    };
    let bound = match age.bound {
        Some(Bound::Less) => Some("Less"),
        Some(Bound::Greater) => Some("Greater"),
        None => None,
    };
    say_part(answer, "bound", bound);
    say_part(answer, "years", age.years);
    say_part(answer, "months", age.months);
    say_part(answer, "weeks", age.weeks);
    say_part(answer, "days", age.days)
}

fn say_name(answer: &mut Answer, name: Option<PersonName<'_>>) {
    match name {
        Some(PersonName::Plain(text)) => say_part(answer, "plain", Some(text)),
        Some(
            PersonName::Parts {
                before,
                surname,
                after,
            },
        ) => {
            say_part(answer, "before", Some(before));
            say_part(answer, "surname", Some(surname));
            say_part(answer, "after", Some(after))
        }
        None => answer.say("None"),
    }
}

/// The calls that ask about a kind, whose word stands first in the text.
fn answer_kind(call: &str, text: &str, answer: &mut Answer) -> bool {
    let (word, line) = text.split_once(' ').unwrap_or((text, ""));
    let Some((_, kind)) = KINDS.iter().find(|(name, _)| *name == word) else {
        return false;
    };
    let kind = *kind;
    match call {
        "word" => answer.say(kind.word()),
        "fits" => answer.say_truth(fits(kind, Given::One(line))),
        "fits/many" => answer.say_truth(fits(kind, Given::Many)),
        "fits/pointer" => answer.say_truth(fits(kind, Given::Pointer)),
        "fits/void" => answer.say_truth(fits(kind, Given::Void)),
        _ => return false,
    }
    true
}

/// The kinds by their words.
const KINDS: [(&str, Kind); 24] = [
    ("Nothing", Kind::Nothing),
    ("Text", Kind::Text),
    ("Free", Kind::Free),
    ("EventFlag", Kind::EventFlag),
    ("Integer", Kind::Integer),
    ("Version", Kind::Version),
    ("DateValue", Kind::DateValue),
    ("DatePeriod", Kind::DatePeriod),
    ("DateExact", Kind::DateExact),
    ("Time", Kind::Time),
    ("Age", Kind::Age),
    ("Name", Kind::Name),
    ("EnumAny", Kind::EnumAny),
    ("SexEnum", Kind::SexEnum),
    ("PediEnum", Kind::PediEnum),
    ("StatEnum", Kind::StatEnum),
    ("NameTypeEnum", Kind::NameTypeEnum),
    ("ResnList", Kind::ResnList),
    ("ToFam", Kind::ToFam),
    ("ToIndi", Kind::ToIndi),
    ("ToSubm", Kind::ToSubm),
    ("ToSnote", Kind::ToSnote),
    ("ToSour", Kind::ToSour),
    ("ToObje", Kind::ToObje),
];

/// The calls that ask about words.
fn answer_words(alloc: Global, call: &str, text: &str, answer: &mut Answer) -> bool {
    match call {
        "trim_zeros" => answer.say(trim_zeros(text)),
        "trim_zeros/words" => say_trimmed(answer, text),
        "first_word" => say_first(answer, text),
        "without_default" => say_words(answer, text),
        "Words" => show_words(alloc, answer, text),
        "days" => say_days(alloc, answer, text),
        "value_laws" => state_laws(answer),
        _ => return false,
    }
    true
}

fn say_trimmed(answer: &mut Answer, text: &str) {
    for word in text.split(' ') {
        answer.say(trim_zeros(word));
        answer.say("\n");
    }
}

fn say_first(answer: &mut Answer, text: &str) {
    let (word, behind) = first_word(text);
    answer.say(word);
    answer.say("\n");
    answer.say(behind.unwrap_or("None"));
}

fn say_words(answer: &mut Answer, text: &str) {
    for word in without_default(text) {
        answer.say(word);
        answer.say("\n");
    }
}

/// Shows the words of a text that are left behind the first.
fn show_words(alloc: Global, answer: &mut Answer, text: &str) {
    let mut words = without_default(text);
    let _ = words.next();
    match format!(in alloc; "{words:?}") {
        Ok(shown) => answer.say(shown.as_str()),
        Err(AllocError) => answer.lack_memory(),
    }
}

/// Says for each month behind a calendar's word how many days it takes.
fn say_days(alloc: Global, answer: &mut Answer, text: &str) {
    let (calendar, months) = text.split_once(' ').unwrap_or((text, ""));
    for month in months.split(' ') {
        say_part(answer, month, Some(""));
        match days_of(alloc, calendar, month) {
            Ok(days) => answer.say_optional(days),
            Err(AllocError) => answer.lack_memory(),
        }
    }
}

/// How many days a month takes, of those from 0 to 99: all from 1 on to the greatest, and the month stands without a day as
/// well. `None` where it takes any others, or none.
fn days_of(alloc: Global, calendar: &str, month: &str) -> Result<Option<u64>, AllocError> {
    let mut days = 0u64;
    for day in 0..100u64 {
        if is_day(alloc, calendar, day, month)? {
            if days.saturating_add(1) != day {
                return Ok(None);
            }
            days = day;
        }
    }
    Ok(is_dated(alloc, &[calendar, " ", month, " 1900"])?.then_some(days))
}

fn is_day(alloc: Global, calendar: &str, day: u64, month: &str) -> Result<bool, AllocError> {
    let day = day.to_string(alloc)?;
    is_dated(alloc, &[calendar, " ", day.as_str(), " ", month, " 1900"])
}

/// Whether these parts of a text make a date.
fn is_dated(alloc: Global, parts: &[&str]) -> Result<bool, AllocError> {
    let mut text = String::new(alloc);
    for part in parts {
        text.push_str(part)?;
    }
    Ok(read_date(text.as_str()).is_some())
}

/// Calls each law of the definitions once: their contracts are proved, and they do nothing.
fn state_laws(answer: &mut Answer) {
    one_reading();
    two_texts();
    leaving_out();
    trimming();
    leaving_out_zeros();
    fitting_without_zeros();
    answer.say("stated")
}
