// The words of enumeration sets, each of which is open to extension tags. The tests of kinds are functions of their own, so that whoever
// chooses between them saves no registers for the others.
ghost use Rattle.std.specs.Prelude.{◌≡◌};
ghost use Rattle.ged_value.specs.Words.{is_one_of};
ghost use Rattle.ged_value.specs.Enumerations.{sexes, pedigrees, statuses, name_types, restrictions, is_of_set, is_of_any_set as tests_any_set};

use crate::words::{is_extension_tag, is_integer, is_standard_tag};

fn is_sex(word: &str) -> bool
    ensures { result ≡ is_one_of sexes word.now }
{
    matches!(word, "M" | "F" | "X" | "U")
}

/// How a child belongs to a family.
fn is_pedigree(word: &str) -> bool
    ensures { result ≡ is_one_of pedigrees word.now }
{
    matches!(word, "ADOPTED" | "BIRTH" | "FOSTER" | "SEALING" | "OTHER")
}

/// How certain it is that a child belongs to a family.
fn is_status(word: &str) -> bool
    ensures { result ≡ is_one_of statuses word.now }
{
    matches!(word, "CHALLENGED" | "DISPROVEN" | "PROVEN")
}

fn is_name_type(word: &str) -> bool
    ensures { result ≡ is_one_of name_types word.now }
{
    matches!(
        word,
        "AKA" | "BIRTH" | "IMMIGRANT" | "MAIDEN" | "MARRIED" | "PROFESSIONAL" | "OTHER"
    )
}

pub(crate) fn is_restriction(word: &str) -> bool
    ensures { result ≡ is_one_of restrictions word.now }
{
    matches!(word, "CONFIDENTIAL" | "LOCKED" | "PRIVACY")
}

#[inline(never)]
pub(crate) fn is_sex_or_tag(word: &str) -> bool
    ensures { result ≡ is_of_set sexes word.now }
{
    is_sex(word) || is_extension_tag(word)
}

#[inline(never)]
pub(crate) fn is_pedigree_or_tag(word: &str) -> bool
    ensures { result ≡ is_of_set pedigrees word.now }
{
    is_pedigree(word) || is_extension_tag(word)
}

#[inline(never)]
pub(crate) fn is_status_or_tag(word: &str) -> bool
    ensures { result ≡ is_of_set statuses word.now }
{
    is_status(word) || is_extension_tag(word)
}

#[inline(never)]
pub(crate) fn is_name_type_or_tag(word: &str) -> bool
    ensures { result ≡ is_of_set name_types word.now }
{
    is_name_type(word) || is_extension_tag(word)
}

/// Whether a text may be a word of some set: a standard tag, digits or an extension tag.
#[inline(never)]
pub(crate) fn is_of_any_set(word: &str) -> bool
    ensures { result ≡ tests_any_set word.now }
{
    is_standard_tag(word) || is_integer(word) || is_extension_tag(word)
}
