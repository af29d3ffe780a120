// Quick tests for the dates that most payloads are. Where one answers `false`, nothing is said: the reader decides.
ghost use Rattle.std.specs.Prelude.{◌≡◌, ◌≤◌, ◌∷◌, ◌++◌, ◌&&◌, ℕ, [], IsTrue, if◌then◌else◌, codes, length, take};
ghost use Rattle.std.specs.Bool.{OnTrue};
ghost use Rattle.std.specs.Option.{IfSome};
ghost use Rattle.ged_value.specs.Words.{is_integer, is_one_of};
ghost use Rattle.ged_value.specs.Exact.{ExactParts, ExactText};
ghost use Rattle.ged_value.specs.Values.{ValueParts, DateValueText};
ghost use Rattle.ged_value.specs.inner.Quick.{IsBeforeYear, IsWordAndYear, IsMonthAndYear, is_day_to, IsDayTo, IsUnnamedDate, IsBehindCalendar, IsDateText, IsBehindKeyword, AreDatesAround, IsValueText, lone_keywords};

use crate::words::two_digits;

/// The words of three letters that may stand before a year, each at the slot of its letters: the months of the Gregorian
/// calendar with their greatest days, and with 0 the keywords that make a date value of the one date behind them. The slots
/// that no word has repeat January, so that each row is true.
static WORDS: [(u8, u8, u8, u8); 32] = [
    (b'A', b'B', b'T', 0),
    (b'O', b'C', b'T', 31),
    (b'J', b'A', b'N', 31),
    (b'J', b'A', b'N', 31),
    (b'A', b'F', b'T', 0),
    (b'J', b'A', b'N', 31),
    (b'M', b'A', b'Y', 31),
    (b'J', b'U', b'L', 31),
    (b'F', b'E', b'B', 29),
    (b'D', b'E', b'C', 31),
    (b'J', b'U', b'N', 30),
    (b'A', b'P', b'R', 30),
    (b'J', b'A', b'N', 31),
    (b'J', b'A', b'N', 31),
    (b'B', b'E', b'F', 0),
    (b'J', b'A', b'N', 31),
    (b'N', b'O', b'V', 30),
    (b'E', b'S', b'T', 0),
    (b'J', b'A', b'N', 31),
    (b'C', b'A', b'L', 0),
    (b'J', b'A', b'N', 31),
    (b'J', b'A', b'N', 31),
    (b'J', b'A', b'N', 31),
    (b'J', b'A', b'N', 31),
    (b'J', b'A', b'N', 31),
    (b'J', b'A', b'N', 31),
    (b'J', b'A', b'N', 31),
    (b'J', b'A', b'N', 31),
    (b'M', b'A', b'R', 31),
    (b'S', b'E', b'P', 30),
    (b'J', b'A', b'N', 31),
    (b'A', b'U', b'G', 31),
];

/// The greatest day of the month that three letters name, or 0 where they are a keyword. It is read from a table rather than
/// told by a match: a jump that hangs on the word is one that the processor seldom foresees. The weights put no two words on
/// one slot, and nothing else rests on them.
fn word_days(first: u8, second: u8, third: u8) -> Option<u8>
    ensures { IfSome result (λ days. IsBeforeYear days (first ∷ second ∷ third ∷ [])) }
{
    let slot = (usize::from(second) * 2 + usize::from(third) * 3) / 2 % WORDS.len();
    let (one, two, three, days) = WORDS[slot];
    if first == one && second == two && third == three {
        Some(days)
    } else {
        None
    }
}

/// Whether four bytes are digits.
fn are_digits(first: u8, second: u8, third: u8, fourth: u8) -> bool
    ensures { result ≡ is_integer (first ∷ second ∷ third ∷ fourth ∷ []) }
{
    first.is_ascii_digit()
        && second.is_ascii_digit()
        && third.is_ascii_digit()
        && fourth.is_ascii_digit()
}

/// Whether the bytes are a year in four digits.
fn is_year(bytes: &[u8]) -> bool
    ensures { OnTrue result (IsTrue (is_integer bytes.now)) }
{
    match bytes {
        [first, second, third, fourth] => are_digits(*first, *second, *third, *fourth),
        _ => false,
    }
}

/// The days of the word, where the bytes are a month or a keyword and such a year.
fn days_of(bytes: &[u8]) -> Option<u8>
    ensures { IfSome result (λ days. IsWordAndYear days bytes.now) }
{
    match bytes {
        [first, second, third, b' ', year @ ..] if is_year(year) => {
            word_days(*first, *second, *third)
        }
        _ => None,
    }
}

/// Whether the bytes are a month and such a year.
fn is_month_and_year(bytes: &[u8]) -> bool
    ensures { OnTrue result ((days : ℕ) × IsMonthAndYear days bytes.now) }
{
    match days_of(bytes) {
        Some(days) => 0 < days,
        None => false,
    }
}

/// One of two bytes, chosen without a jump.
fn either(which: bool, first: u8, second: u8) -> u8
    ensures { result ≡ (if which then first else second) }
{
    if which { first } else { second }
}

/// Whether two digits are a number from 1 to the greatest day of a month.
fn is_day_number(ten: u8, one: u8, greatest: u8) -> bool
    ensures { result ≡ is_day_to greatest (ten ∷ one ∷ []) }
{
    match two_digits(ten, one) {
        Some(day) => 1 <= day && day <= greatest,
        None => false,
    }
}

/// Whether all three are true. As arguments of a call they are computed first, and no jump hangs on one.
fn are_all(first: bool, second: bool, third: bool) -> bool
    ensures { result ≡ (first && (second && third)) }
{
    first && second && third
}

/// Whether so many of the bytes, from the first on, are a day in one digit or two and a space. The same is asked however many
/// they are, so that no jump hangs on it, not even where there are none.
fn is_day(bytes: &[u8], count: usize, greatest: u8) -> bool
    requires { (3 ≤ length bytes.now) × (count ≤ 3) }
    ensures { OnTrue result (IsDayTo greatest (take count bytes.now)) }
{
    let (first, second, third) = (bytes[0], bytes[1], bytes[2]);
    let two = count == 3;
    let day = is_day_number(
        either(two, first, b'0'),
        either(two, second, first),
        greatest,
    );
    are_all(2 <= count, either(two, third, second) == b' ', day)
}

/// Whether the bytes are an exact date with a year in four digits. What stands before its last eight bytes is the day.
fn is_exact(bytes: &[u8]) -> bool
    ensures { OnTrue result ((date : ExactParts) × ExactText date bytes.now) }
{
    if bytes.len() < 8 || 11 < bytes.len() {
        return false;
    }
    let (front, back) = bytes.split_at(bytes.len() - 8);
    match days_of(back) {
        Some(days) => is_day(bytes, front.len(), days),
        None => false,
    }
}

/// Whether the bytes are a year in four digits, a month and such a year, or a day, a month and such a year.
#[inline(always)]
fn is_unnamed_date(bytes: &[u8]) -> bool
    ensures { OnTrue result (IsUnnamedDate bytes.now) }
{
    is_exact(bytes) || is_month_and_year(bytes) || is_year(bytes)
}

/// What stands behind a word that the bytes begin with.
#[inline(always)]
fn behind<'a>(bytes: &'a [u8], word: &[u8]) -> Option<&'a [u8]>
    ensures { IfSome result (λ others. bytes.now ≡ word.now ++ others.now) }
{
    bytes.strip_prefix(word)
}

/// What stands behind the word of the calendar, where the bytes begin with it, or else the bytes.
#[inline(always)]
fn behind_calendar(bytes: &[u8]) -> &[u8]
    ensures { IsBehindCalendar bytes.now result.now }
{
    match behind(bytes, b"GREGORIAN ") {
        Some(date) => date,
        None => bytes,
    }
}

/// Whether the bytes are such a date, alone or behind the word of the calendar. A call of its own, so that rare values don't
/// repeat the test in place.
#[inline(never)]
fn is_date(bytes: &[u8]) -> bool
    ensures { OnTrue result (IsDateText bytes.now) }
{
    is_unnamed_date(behind_calendar(bytes))
}

/// Whether three letters are a keyword that makes a date value of the one date behind it.
fn is_lone_keyword(first: u8, second: u8, third: u8) -> bool
    ensures { OnTrue result (IsTrue (is_one_of lone_keywords (first ∷ second ∷ third ∷ []))) }
{
    match word_days(first, second, third) {
        Some(days) => days == 0,
        None => false,
    }
}

/// What stands behind such a word, where the bytes begin with one, or else the bytes.
#[inline(always)]
fn behind_keyword(bytes: &[u8]) -> &[u8]
    ensures { IsBehindKeyword bytes.now result.now }
{
    match bytes {
        [first, second, third, b' ', date @ ..] if is_lone_keyword(*first, *second, *third) => date,
        _ => bytes,
    }
}

/// Whether the bytes are such a date, or a keyword and such a date.
fn is_value_of_one(bytes: &[u8]) -> bool
    ensures { OnTrue result (IsValueText bytes.now) }
{
    is_date(behind_keyword(bytes))
}

/// What stands before and behind a word, where it stands somewhere. Words to be sought begin with a space, so no other
/// place is tried.
#[inline(always)]
fn around<'a>(bytes: &'a [u8], word: &[u8]) -> Option<(&'a [u8], &'a [u8])>
    ensures { IfSome result (λ parts. bytes.now ≡ parts.0.now ++ (word.now ++ parts.1.now)) }
{
    for place in 0..bytes.len() {
        if bytes[place] == b' ' {
            if let Some(back) = behind(&bytes[place..], word) {
                return Some((&bytes[..place], back));
            }
        }
    }
    None
}

/// Whether the bytes are two such dates with a word between them. The first date's calendar is passed over before the
/// word is sought.
#[inline(always)]
fn are_dates_around(bytes: &[u8], word: &[u8]) -> bool
    ensures { OnTrue result (AreDatesAround word.now bytes.now) }
{
    match around(behind_calendar(bytes), word) {
        Some((front, back)) => is_unnamed_date(front) && is_date(back),
        None => false,
    }
}

/// Whether `AND` stands between two such dates. A call of its own, so that other values save no registers for the search.
#[inline(never)]
fn are_dates_around_and(bytes: &[u8]) -> bool
    ensures { OnTrue result (AreDatesAround (codes " AND ") bytes.now) }
{
    are_dates_around(bytes, b" AND ")
}

/// Whether `TO` stands between two such dates. A call of its own too.
#[inline(never)]
fn are_dates_around_to(bytes: &[u8]) -> bool
    ensures { OnTrue result (AreDatesAround (codes " TO ") bytes.now) }
{
    are_dates_around(bytes, b" TO ")
}

/// Whether the bytes are two such dates behind `BET` and `AND`.
#[inline(always)]
fn is_between(bytes: &[u8]) -> bool
    ensures { OnTrue result (IsValueText bytes.now) }
{
    match behind(bytes, b"BET ") {
        Some(dates) => are_dates_around_and(dates),
        None => false,
    }
}

/// Whether the bytes are such a date behind `FROM`, or two behind `FROM` and `TO`.
#[inline(always)]
fn is_period(bytes: &[u8]) -> bool
    ensures { OnTrue result (IsValueText bytes.now) }
{
    match behind(bytes, b"FROM ") {
        Some(dates) => are_dates_around_to(dates) || is_date(dates),
        None => false,
    }
}

/// Whether the bytes are a year in four digits, alone or behind a month or a keyword, or an exact date. Of all that end in a
/// word and a year the same is asked, with no jump on which of them they are. A call of its own, which needs no registers saved.
#[inline(never)]
fn is_frequent_value(bytes: &[u8]) -> bool
    ensures { OnTrue result (IsValueText bytes.now) }
{
    if bytes.len() < 8 || 11 < bytes.len() {
        return is_year(bytes);
    }
    let (front, back) = bytes.split_at(bytes.len() - 8);
    match days_of(back) {
        Some(days) => {
            let dated = is_day(bytes, front.len(), days);
            front.is_empty() || dated
        }
        None => false,
    }
}

/// Whether the bytes are one such date or two, alone or behind keywords. A call of its own, so that the frequent values cost no more
/// for it.
#[inline(never)]
fn is_long_value(bytes: &[u8]) -> bool
    ensures { OnTrue result (IsValueText bytes.now) }
{
    is_between(bytes) || is_period(bytes) || is_value_of_one(bytes)
}

/// The same, where most values are told by the first test.
fn is_value(bytes: &[u8]) -> bool
    ensures { OnTrue result (IsValueText bytes.now) }
{
    is_frequent_value(bytes) || is_long_value(bytes)
}

/// Whether a text is a year, a month and a year, or a day, a month and a year of the Gregorian calendar, alone, behind a
/// keyword other than `TO`, or twice behind `BET` and `AND` or `FROM` and `TO`. Other calendars, epochs, years that aren't in
/// four digits, and days of three digits and more are left to the reader.
pub(crate) fn is_plain_value(text: &str) -> bool
    ensures { OnTrue result ((value : ValueParts) × DateValueText value text.now) }
{
    is_value(text.as_bytes())
}

/// Whether a text is a day in one digit or two, a month and a year in four digits.
pub(crate) fn is_plain_exact(text: &str) -> bool
    ensures { OnTrue result ((date : ExactParts) × ExactText date text.now) }
{
    is_exact(text.as_bytes())
}
