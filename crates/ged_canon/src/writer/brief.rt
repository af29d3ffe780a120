// The lines of payloads, and what can be left out in them.
ghost use Rattle.std.specs.Prelude.{◌≡◌, ◌↔◌, ◌&&◌, ◌++◌, ◌∷◌, if◌then◌else◌, Some, IfOk, OnOk, IsTrue, string_bytes, ◌<◌};
ghost use Rattle.std.specs.List.{list_all};
ghost use Rattle.std.specs.Str.{bytes_eq};
ghost use Rattle.ged_line.specs.Bytes.{space};
ghost use Rattle.ged_value.specs.Words.{words_of};
ghost use Rattle.ged_value.specs.Default.{default_word};
ghost use Rattle.ged_value.specs.Zeros.{has_leading_zero as begins_with_zero, trim_zeros as trims_zeros};
ghost use Rattle.ged_value.specs.ZeroKinds.{has_integers as tests_integers};
ghost use Rattle.ged_schema.specs.Rows.{as_row};
ghost use Rattle.ged_canon.specs.Steps.{has_calendar as tests_calendar};
ghost use Rattle.ged_canon.specs.Normal.{IsBrief, IsBriefPayload};
ghost use Rattle.ged_canon.specs.inner.Working.{is_second, may_shorten, is_brief_word as tests_word, brief_line as spells_brief};
ghost use Rattle.ged_tree.specs.Trees.{trees_count};
ghost use Rattle.ged_tree.specs.Places.{structure_at};

use crate::edition::Edition;
use crate::writer::letters::has_g;
use ged_schema::Rule;
use ged_tree::{Forest, PayloadView};
use ged_value::{Kind, first_word, trim_zeros};
use std::alloc::{AllocError, Global};

/// Whether a payload of the kind may begin with the name of a calendar.
#[inline(always)]
fn has_calendar(kind: Kind) -> bool
    ensures { result ≡ tests_calendar kind }
{
    matches!(kind, Kind::DateValue | Kind::DatePeriod)
}

/// Whether a payload of the kind may have numbers with leading zeros.
#[inline(always)]
fn has_integers(kind: Kind) -> bool
    ensures { result ≡ tests_integers kind }
{
    matches!(
        kind,
        Kind::Integer | Kind::DateValue | Kind::DatePeriod | Kind::DateExact | Kind::Age
    )
}

/// Whether a word has leading zeros that the second edition leaves out.
fn has_leading_zero(word: &str) -> bool
    ensures { result ≡ begins_with_zero word.now }
{
    trim_zeros(word) != word
}

/// What payloads of a kind are written without.
#[derive(Clone, Copy)]
struct LeftOut {
    /// The word of the default calendar.
    calendar: bool,
    /// Leading zeros.
    zeros: bool,
}

/// What an edition leaves out in payloads at a place with this rule.
#[inline(always)]
fn left_out_at(edition: Edition, rule: &Rule) -> LeftOut
    ensures calendar { result.calendar ≡ tests_calendar rule.now.kind }
    ensures zeros { result.zeros ≡ (is_second edition && tests_integers rule.now.kind) }
{
    let zeros = match edition {
        Edition::First => false,
        Edition::Second => has_integers(rule.kind),
    };
    LeftOut {
        calendar: has_calendar(rule.kind),
        zeros,
    }
}

/// Whether a word is left out as a whole.
fn is_left_out(word: &str, left_out: LeftOut) -> bool
    ensures { result ≡ (left_out.calendar && bytes_eq word.now default_word) }
{
    left_out.calendar && word == "GREGORIAN"
}

/// Whether a word stays as it is.
fn is_brief_word(word: &str, left_out: LeftOut) -> bool
    ensures { result ≡ tests_word left_out.calendar left_out.zeros word.now }
{
    !is_left_out(word, left_out) && !(left_out.zeros && has_leading_zero(word))
}

/// Whether all words of a line stay. No word is read where none is left out, nor where only GREGORIAN is and no byte is a G.
fn are_brief_words(line: &str, left_out: LeftOut) -> bool
    ensures { result ≡ list_all (tests_word left_out.calendar left_out.zeros) (words_of line.now) }
{
    if !left_out.calendar && !left_out.zeros {
        return true;
    }
    if !left_out.zeros && !has_g(line.as_bytes()) {
        return true;
    }
    let mut rest = Some(line);
    while let Some(left) = rest {
        let (word, behind) = first_word(left);
        if !is_brief_word(word, left_out) {
            return false;
        }
        rest = behind;
    }
    true
}

/// Whether there are payloads at a place with this rule in which something can be left out.
#[inline(always)]
pub(crate) fn may_be_shortened(edition: Edition, rule: &Rule) -> bool
    ensures { result ≡ may_shorten edition (Some (as_row rule.now)) }
{
    let left_out = left_out_at(edition, rule);
    left_out.calendar || left_out.zeros
}

/// Whether nothing can be left out in a line of a payload at a place with this rule.
pub(crate) fn is_brief_line(edition: Edition, rule: &Rule, line: &str) -> bool
    ensures { IsTrue result ↔ IsBrief edition (Some (as_row rule.now)) line.now }
{
    are_brief_words(line, left_out_at(edition, rule))
}

/// A word without the zeros that are left out.
fn trimmed(word: &str, left_out: LeftOut) -> &str
    ensures { result.now ≡ (if left_out.zeros then trims_zeros word.now else word.now) }
{
    if left_out.zeros {
        trim_zeros(word)
    } else {
        word
    }
}

/// Appends a word, after a space where it isn't the first.
fn append_word(line: &mut String, word: &str, is_first: bool) -> Result<(), AllocError>
    ensures { OnOk result (string_bytes line.new ≡ (if is_first then string_bytes line.old ++ word.now else string_bytes line.old ++ space ∷ word.now)) }
{
    if !is_first {
        line.push(' ')?;
    }
    line.push_str(word)
}

/// The line of a payload at a place with this rule, with nothing that can be left out. Grows.
pub(crate) fn brief_line(
    alloc: Global,
    edition: Edition,
    rule: &Rule,
    line: &str,
) -> Result<String, AllocError>
    ensures { IfOk result (λ brief. string_bytes brief ≡ spells_brief edition (Some (as_row rule.now)) line.now) }
{
    let left_out = left_out_at(edition, rule);
    let mut brief = String::with_capacity(alloc, line.len())?;
    let mut is_first = true;
    let mut rest = Some(line);
    while let Some(left) = rest {
        let (word, behind) = first_word(left);
        if !is_left_out(word, left_out) {
            append_word(&mut brief, trimmed(word, left_out), is_first)?;
            is_first = false;
        }
        rest = behind;
    }
    Ok(brief)
}

/// Whether nothing can be left out in the payload of the structure at a place, which has this rule.
pub(crate) fn is_brief_at<F: Forest>(
    forest: &F,
    edition: Edition,
    rule: &Rule,
    place: usize,
) -> bool
    requires { place < trees_count (F.trees forest.now) }
    ensures { IsTrue result ↔ IsBriefPayload edition (Some (as_row rule.now)) (structure_at (F.trees forest.now) place).payload }
{
    match forest.payload(place) {
        PayloadView::Text(line) if forest.further(place) == 0 => is_brief_line(edition, rule, line),
        _ => true,
    }
}
