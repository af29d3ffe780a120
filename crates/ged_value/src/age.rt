// Ages.
ghost use Rattle.std.specs.Prelude.{◌≡◌, ◌<◌};
ghost use Rattle.std.specs.Option.{option_map};
ghost use Rattle.ged_value.specs.Texts.{bytes_of};
ghost use Rattle.ged_value.specs.inner.Texts.{texts};
ghost use Rattle.ged_value.specs.Reading.{Reads};
ghost use Rattle.ged_value.specs.Ages.{AgeText};
ghost use Rattle.ged_value.specs.inner.AgeReading.{before_last, number_before, unit_at, sign_at, age_at};
ghost use Rattle.ged_value.specs.AgeViews.{age_parts};
ghost use Rattle.ged_value.specs.inner.AgeViews.{unit_seen, sign_seen};

use crate::split::words_of;
use crate::words::is_integer;

/// How the real age compares with the numbers of an age (FamilySearch GEDCOM 7.0, "Age").
#[derive(Clone, Copy, Debug, PartialEq, Eq)]
pub enum Bound {
    /// `<`: it was less.
    Less,
    /// `>`: it was greater.
    Greater,
}

/// An age, as slices of the text that it was read from (FamilySearch GEDCOM 7.0, "Age").
///
/// Each number is one digit or more, of any length, without the letter behind it. The empty text has none of the parts;
/// every other has a number at least.
#[derive(Clone, Copy, Debug, PartialEq, Eq)]
pub struct Age<'a> {
    pub bound: Option<Bound>,
    pub years: Option<&'a str>,
    pub months: Option<&'a str>,
    pub weeks: Option<&'a str>,
    pub days: Option<&'a str>,
}

/// The word without the letter at its end.
fn before_last(word: &str, letter: char) -> Option<&str>
    requires { letter < 128 }
    ensures { option_map bytes_of result ≡ before_last letter word.now }
{
    word.strip_suffix(letter)
}

/// The digits before the letter that ends the word.
fn number_before(word: &str, letter: char) -> Option<&str>
    requires { letter < 128 }
    ensures { option_map bytes_of result ≡ number_before letter word.now }
{
    let digits = before_last(word, letter)?;
    is_integer(digits).then_some(digits)
}

/// A first word of digits and the letter, if it stands there, and the words behind it.
fn unit_at<'w, 'a>(words: &'w [&'a str], letter: char) -> (Option<&'a str>, &'w [&'a str])
    requires { letter < 128 }
    ensures { unit_seen result ≡ unit_at letter (texts words.now) }
{
    match words.split_first() {
        Some((first, others)) => match number_before(first, letter) {
            Some(digits) => (Some(digits), others),
            None => (None, words),
        },
        None => (None, words),
    }
}

/// A first word `<` or `>`, if it stands there, and the words behind it.
fn sign_at<'w, 'a>(words: &'w [&'a str]) -> (Option<Bound>, &'w [&'a str])
    ensures { sign_seen result ≡ sign_at (texts words.now) }
{
    match words.split_first() {
        Some((first, others)) => match *first {
            "<" => (Some(Bound::Less), others),
            ">" => (Some(Bound::Greater), others),
            _ => (None, words),
        },
        None => (None, words),
    }
}

/// The age that the words spell.
fn age_at<'a>(words: &[&'a str]) -> Option<Age<'a>>
    ensures { option_map age_parts result ≡ age_at (texts words.now) }
{
    let (bound, words) = sign_at(words);
    let (years, others) = unit_at(words, 'y');
    let (months, others) = unit_at(others, 'm');
    let (weeks, others) = unit_at(others, 'w');
    let (days, others) = unit_at(others, 'd');
    let age = Age {
        bound,
        years,
        months,
        weeks,
        days,
    };
    (!words.is_empty() && others.is_empty()).then_some(age)
}

/// The age that a text spells, or `None` exactly where it spells none: the empty text, or an optional `<` or `>` and
/// one to four numbers with their letters, in the order `y`, `m`, `w`, `d`, with single spaces between the words. The
/// parts are slices of the text. Takes no memory (FamilySearch GEDCOM 7.0, "Age").
pub fn read_age(text: &str) -> Option<Age<'_>>
    ensures { Reads result age_parts (λ parts. AgeText parts text.now) }
{
    if text.is_empty() {
        return Some(Age {
            bound: None,
            years: None,
            months: None,
            weeks: None,
            days: None,
        });
    }
    age_at(words_of(text)?.as_slice())
}
