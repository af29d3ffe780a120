// Times of day.
ghost use Rattle.std.specs.Prelude.{◌≡◌};
ghost use Rattle.std.specs.Option.{option_map};
ghost use Rattle.ged_value.specs.Texts.{bytes_of};
ghost use Rattle.ged_value.specs.Reading.{Reads};
ghost use Rattle.ged_value.specs.Times.{TimeText, is_hour as tests_hour, is_sixtieth as tests_sixtieth, is_second as tests_second, is_time as tests_time};
ghost use Rattle.ged_value.specs.inner.TimeReading.{second_at as reads_second, clock_at as reads_clock};
ghost use Rattle.ged_value.specs.TimeViews.{time_parts};

use crate::cut::cut_at;
use crate::words::{is_integer, small_number};

/// A time of day, as the text spells it (FamilySearch GEDCOM 7.0, "Time").
#[derive(Clone, Copy, Debug, PartialEq, Eq)]
pub struct Time<'a> {
    /// One or two digits from `0` to `23`.
    pub hour: &'a str,
    /// Two digits from `00` to `59`.
    pub minute: &'a str,
    /// Two digits from `00` to `59`.
    pub second: Option<&'a str>,
    /// The digits behind the second's point, of which there is at least one. There is none without a second.
    pub fraction: Option<&'a str>,
    /// Whether the text ends with `Z`, for UTC.
    pub utc: bool,
}

/// 0 to 23, in one or two digits.
fn is_hour(digits: &str) -> bool
    ensures { result ≡ tests_hour digits.now }
{
    if !is_integer(digits) {
        return false;
    }
    digits.len() <= 2 && small_number(digits) <= 23
}

/// 00 to 59, in two digits.
fn is_sixtieth(digits: &str) -> bool
    ensures { result ≡ tests_sixtieth digits.now }
{
    if !is_integer(digits) {
        return false;
    }
    digits.len() == 2 && small_number(digits) <= 59
}

/// A fraction stands only behind a second.
fn is_second(second: Option<&str>, fraction: Option<&str>) -> bool
    ensures { result ≡ tests_second (option_map bytes_of second.entry) (option_map bytes_of fraction.entry) }
{
    match (second, fraction) {
        (None, None) => true,
        (None, Some(_)) => false,
        (Some(second), None) => is_sixtieth(second),
        (Some(second), Some(fraction)) => is_sixtieth(second) && is_integer(fraction),
    }
}

fn is_time(time: &Time<'_>) -> bool
    ensures { result ≡ tests_time (time_parts time.now) }
{
    is_hour(time.hour) && is_sixtieth(time.minute) && is_second(time.second, time.fraction)
}

/// The second and its fraction, of the text behind a minute's `:`.
fn second_at(text: Option<&str>) -> (Option<&str>, Option<&str>)
    ensures { (option_map bytes_of result.0, option_map bytes_of result.1) ≡ reads_second (option_map bytes_of text.entry) }
{
    match text {
        Some(text) => {
            let (second, fraction) = cut_at(text, b'.');
            (Some(second), fraction)
        }
        None => (None, None),
    }
}

/// The time that a text before its `Z` spells.
fn clock_at(text: &str, utc: bool) -> Option<Time<'_>>
    ensures { option_map time_parts result ≡ reads_clock utc text.now }
{
    let (hour, others) = cut_at(text, b':');
    let (minute, others) = cut_at(others?, b':');
    let (second, fraction) = second_at(others);
    let time = Time {
        hour,
        minute,
        second,
        fraction,
        utc,
    };
    is_time(&time).then_some(time)
}

/// The time that a text spells: `hour:minute`, then `:second` or nothing, then behind a second `.` and its fraction or
/// nothing, then `Z` or nothing. `None` where the text is anything else or a part is out of its range. Takes no memory
/// (FamilySearch GEDCOM 7.0, "Time").
pub fn read_time(text: &str) -> Option<Time<'_>>
    ensures { Reads result time_parts (λ time. TimeText time text.now) }
{
    let (clock, zone) = cut_at(text, b'Z');
    match zone {
        None => clock_at(clock, false),
        Some("") => clock_at(clock, true),
        Some(_) => None,
    }
}
