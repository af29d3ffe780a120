// Lists of restrictions.
ghost use Rattle.std.specs.Prelude.{◌≡◌, ◌↔◌, IsTrue};
ghost use Rattle.ged_value.specs.Enumerations.{is_of_set, restrictions};
ghost use Rattle.ged_value.specs.inner.RestrictionReading.{AreRestrictions, trim_start as trims_start, trim_end as trims_end};

use crate::enumerations::is_restriction;
use crate::words::is_extension_tag;

/// The text without the spaces that it begins with.
fn trim_start(text: &str) -> &str
    ensures { result.now ≡ trims_start text.now }
{
    text.trim_start_matches(' ')
}

/// The text without the spaces that it ends with.
fn trim_end(text: &str) -> &str
    ensures { result.now ≡ trims_end text.now }
{
    text.trim_end_matches(' ')
}

/// Whether a word is a restriction of the standard or an extension tag.
fn is_item(word: &str) -> bool
    ensures { result ≡ is_of_set restrictions word.now }
{
    is_restriction(word) || is_extension_tag(word)
}

/// Whether a text is one or more items, separated by commas with any number of spaces before and after each
/// (FamilySearch GEDCOM 7.0, "List").
#[inline(never)]
pub(crate) fn are_restrictions(text: &str) -> bool
    ensures { IsTrue result ↔ AreRestrictions text.now }
{
    let mut rest = text;
    while let Some((item, others)) = rest.split_once(',') {
        if !is_item(trim_end(item)) {
            return false;
        }
        rest = trim_start(others);
    }
    is_item(rest)
}
