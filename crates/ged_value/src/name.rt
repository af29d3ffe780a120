// Names of persons.
ghost use Rattle.std.specs.Prelude.{◌≡◌, ◌++◌, ◌∷◌, IsTrue};
ghost use Rattle.std.specs.List.{list_all};
ghost use Rattle.std.specs.Option.{option_map};
ghost use Rattle.ged_value.specs.Reading.{Reads};
ghost use Rattle.ged_value.specs.Names.{NameParts, NameText, is_name_part as tests_name_part};
ghost use Rattle.ged_value.specs.Words.{Bytes};
ghost use Rattle.ged_value.specs.inner.NameReading.{is_name_byte as tests_name_byte, name_at as reads_name};
ghost use Rattle.ged_value.specs.NameViews.{name_parts};

use crate::cut::cut_at;

/// The name of a person, as the text spells it (FamilySearch GEDCOM 7.0, "Personal Name").
#[derive(Clone, Copy, Debug, PartialEq, Eq)]
pub enum PersonName<'a> {
    /// A name without `/`, which may be empty.
    Plain(&'a str),
    /// A name about a surname, which stands between two `/`.
    Parts {
        /// What stands before the first `/`, with its blanks.
        before: &'a str,
        /// What stands between the two `/`.
        surname: &'a str,
        /// What stands behind the second `/`, with its blanks.
        after: &'a str,
    },
}

fn is_name_byte(byte: u8) -> bool
    ensures { result ≡ tests_name_byte byte }
{
    byte >= b' ' && byte != b'/'
}

fn are_name_bytes(bytes: &[u8]) -> bool
    ensures { result ≡ list_all tests_name_byte bytes.now }
{
    bytes.iter().all(|byte| is_name_byte(*byte))
}

/// Whether every character is U+0020 or above, and none is `/`.
fn is_name_part(text: &str) -> bool
    ensures { result ≡ tests_name_part text.now }
{
    are_name_bytes(text.as_bytes())
}

/// What stands behind the bytes at the front of a text that may all stand in one part of a name.
fn behind_name_part(bytes: &[u8]) -> &[u8]
    ensures { (part : Bytes) × IsTrue (tests_name_part part) × (bytes.now ≡ part ++ result.now) }
{
    match bytes {
        [first, more @ ..] if is_name_byte(*first) => behind_name_part(more),
        rest => rest,
    }
}

/// Whether a text is a surname, a `/`, and what may stand behind a surname.
fn is_surname_and_more(bytes: &[u8]) -> bool
    ensures { IsTrue result → (surname : Bytes) × (after : Bytes) × IsTrue (tests_name_part surname) × IsTrue (tests_name_part after)
        × (bytes.now ≡ surname ++ 47 ∷ after) }
{
    match behind_name_part(bytes) {
        [b'/', after @ ..] => are_name_bytes(after),
        _ => false,
    }
}

/// A quick test for names, which looks at each byte once. Where it answers `false`, nothing is said: [`read_name`] decides.
pub(crate) fn is_plain_name(text: &str) -> bool
    ensures { IsTrue result → (name : NameParts) × NameText name text.now }
{
    match behind_name_part(text.as_bytes()) {
        [b'/', more @ ..] => is_surname_and_more(more),
        rest => rest.is_empty(),
    }
}

/// The one answer of [`read_name`].
fn name_at(text: &str) -> Option<PersonName<'_>>
    ensures { option_map name_parts result ≡ reads_name text.now }
{
    let (before, others) = cut_at(text, b'/');
    let Some(others) = others else {
        return is_name_part(before).then_some(PersonName::Plain(before));
    };
    let (surname, after) = cut_at(others, b'/');
    let after = after?;
    let is_name = is_name_part(before) && is_name_part(surname) && is_name_part(after);
    is_name.then_some(PersonName::Parts {
        before,
        surname,
        after,
    })
}

/// The name that a text spells: without `/` it is the whole text, with two of them their surroundings. `None` where it
/// has one `/` or more than two, or a character below U+0020, as a tab. Takes no memory (FamilySearch GEDCOM 7.0,
/// "Personal Name").
pub fn read_name(text: &str) -> Option<PersonName<'_>>
    ensures { Reads result name_parts (λ name. NameText name text.now) }
{
    name_at(text)
}
