// The kinds of payloads.
ghost use Rattle.std.specs.Prelude.{◌≡◌, ◌↔◌, IsTrue};
ghost use Rattle.ged_value.specs.Exact.{ExactParts, ExactText};
ghost use Rattle.ged_value.specs.Times.{TimeParts, TimeText};
ghost use Rattle.ged_value.specs.Values.{ValueParts, PeriodParts, DateValueText, PeriodText};
ghost use Rattle.ged_value.specs.Ages.{AgeParts, AgeText};
ghost use Rattle.ged_value.specs.Names.{NameParts, NameText};
ghost use Rattle.ged_value.specs.Kinds.{IsVersion, FitsLine, Fits, kind_word, takes_lines as tests_lines, takes_links as tests_links};

use crate::age::read_age;
use crate::enumerations::{
    is_name_type_or_tag, is_of_any_set, is_pedigree_or_tag, is_sex_or_tag, is_status_or_tag,
};
use crate::exact::read_exact_date;
use crate::name::{is_plain_name, read_name};
use crate::quick::{is_plain_exact, is_plain_value};
use crate::quick_time::is_plain_time;
use crate::restrictions::are_restrictions;
use crate::time::read_time;
use crate::value::{read_date, read_period};
use crate::words::is_integer;

/// What a payload may be. Unless a kind says otherwise, its payloads are texts of one line, and neither pointers nor
/// texts of several lines (FamilySearch GEDCOM 7.0, "Data types").
#[derive(Clone, Copy, Debug, PartialEq, Eq)]
pub enum Kind {
    /// The empty payload.
    Nothing,
    /// Any text, also the empty one, of any number of lines.
    Text,
    /// Any text of any number of lines, a pointer, or the void pointer.
    Free,
    /// The empty payload, or `Y`.
    EventFlag,
    /// One or more digits.
    Integer,
    /// `7.0`, or `7.0.` and one or more digits.
    Version,
    /// What [`read_date`] reads.
    DateValue,
    /// What [`read_period`] reads.
    DatePeriod,
    /// What [`read_exact_date`] reads.
    DateExact,
    /// What [`read_time`] reads.
    Time,
    /// What [`read_age`] reads.
    Age,
    /// What [`read_name`] reads.
    Name,
    /// A standard tag, one or more digits, or an extension tag: a word of some enumeration set.
    EnumAny,
    /// `M`, `F`, `X`, `U`, or an extension tag.
    SexEnum,
    /// `ADOPTED`, `BIRTH`, `FOSTER`, `SEALING`, `OTHER`, or an extension tag.
    PediEnum,
    /// `CHALLENGED`, `DISPROVEN`, `PROVEN`, or an extension tag.
    StatEnum,
    /// `AKA`, `BIRTH`, `IMMIGRANT`, `MAIDEN`, `MARRIED`, `PROFESSIONAL`, `OTHER`, or an extension tag.
    NameTypeEnum,
    /// One or more of `CONFIDENTIAL`, `LOCKED`, `PRIVACY` and extension tags, separated by commas with any number of
    /// spaces before and after each.
    ResnList,
    /// The void pointer, or a pointer to a record with the tag `FAM`.
    ToFam,
    /// The void pointer, or a pointer to a record with the tag `INDI`.
    ToIndi,
    /// The void pointer, or a pointer to a record with the tag `SUBM`.
    ToSubm,
    /// The void pointer, or a pointer to a record with the tag `SNOTE`.
    ToSnote,
    /// The void pointer, or a pointer to a record with the tag `SOUR`.
    ToSour,
    /// The void pointer, or a pointer to a record with the tag `OBJE`.
    ToObje,
}

impl Kind {
    /// The kind's name, as its variant is spelled. Takes no memory.
    pub fn word(self) -> &'static str
        ensures { result.now ≡ kind_word self }
    {
        match self {
            Kind::Nothing => "Nothing",
            Kind::Text => "Text",
            Kind::Free => "Free",
            Kind::EventFlag => "EventFlag",
            Kind::Integer => "Integer",
            Kind::Version => "Version",
            Kind::DateValue => "DateValue",
            Kind::DatePeriod => "DatePeriod",
            Kind::DateExact => "DateExact",
            Kind::Time => "Time",
            Kind::Age => "Age",
            Kind::Name => "Name",
            Kind::EnumAny => "EnumAny",
            Kind::SexEnum => "SexEnum",
            Kind::PediEnum => "PediEnum",
            Kind::StatEnum => "StatEnum",
            Kind::NameTypeEnum => "NameTypeEnum",
            Kind::ResnList => "ResnList",
            Kind::ToFam => "ToFam",
            Kind::ToIndi => "ToIndi",
            Kind::ToSubm => "ToSubm",
            Kind::ToSnote => "ToSnote",
            Kind::ToSour => "ToSour",
            Kind::ToObje => "ToObje",
        }
    }
}

/// A payload, as far as its kind depends on it.
#[derive(Clone, Copy, Debug, PartialEq, Eq)]
pub enum Given<'a> {
    /// The void pointer.
    Void,
    /// A pointer to a record.
    Pointer,
    /// A text of one line, which is empty for the empty payload.
    One(&'a str),
    /// A text of several lines.
    Many,
}

#[inline(never)]
fn is_version(text: &str) -> bool
    ensures { IsTrue result ↔ IsVersion text.now }
{
    match text.strip_prefix("7.0.") {
        Some(digits) => is_integer(digits),
        None => text == "7.0",
    }
}

/// Whether [`read_date`] reads the text. Each reader is called apart from [`fits`], which needs no room for what is read.
#[inline(never)]
fn reads_date(text: &str) -> bool
    ensures { IsTrue result ↔ ((value : ValueParts) × DateValueText value text.now) }
{
    read_date(text).is_some()
}

/// Whether [`read_period`] reads the text.
#[inline(never)]
fn reads_period(text: &str) -> bool
    ensures { IsTrue result ↔ ((period : PeriodParts) × PeriodText period text.now) }
{
    read_period(text).is_some()
}

/// Whether [`read_exact_date`] reads the text.
#[inline(never)]
fn reads_exact_date(text: &str) -> bool
    ensures { IsTrue result ↔ ((date : ExactParts) × ExactText date text.now) }
{
    read_exact_date(text).is_some()
}

/// Whether [`read_time`] reads the text.
#[inline(never)]
fn reads_time(text: &str) -> bool
    ensures { IsTrue result ↔ ((time : TimeParts) × TimeText time text.now) }
{
    read_time(text).is_some()
}

/// Whether [`read_age`] reads the text.
#[inline(never)]
fn reads_age(text: &str) -> bool
    ensures { IsTrue result ↔ ((age : AgeParts) × AgeText age text.now) }
{
    read_age(text).is_some()
}

/// Whether [`read_name`] reads the text.
#[inline(never)]
fn reads_name(text: &str) -> bool
    ensures { IsTrue result ↔ ((name : NameParts) × NameText name text.now) }
{
    read_name(text).is_some()
}

/// Whether a text is the name of a person. Most pass the quick test.
#[inline(never)]
fn is_name(text: &str) -> bool
    ensures { IsTrue result ↔ ((name : NameParts) × NameText name text.now) }
{
    is_plain_name(text) || reads_name(text)
}

/// Whether a text is a date value. Most pass the quick test.
#[inline(never)]
fn is_date_value(text: &str) -> bool
    ensures { IsTrue result ↔ ((value : ValueParts) × DateValueText value text.now) }
{
    is_plain_value(text) || reads_date(text)
}

/// Whether a text is an exact date. Most pass the quick test.
#[inline(never)]
fn is_exact_date(text: &str) -> bool
    ensures { IsTrue result ↔ ((date : ExactParts) × ExactText date text.now) }
{
    is_plain_exact(text) || reads_exact_date(text)
}

/// Whether a text is a time. Most pass the quick test.
#[inline(never)]
fn is_time(text: &str) -> bool
    ensures { IsTrue result ↔ ((time : TimeParts) × TimeText time text.now) }
{
    is_plain_time(text) || reads_time(text)
}

fn takes_lines(kind: Kind) -> bool
    ensures { result ≡ tests_lines kind }
{
    matches!(kind, Kind::Text | Kind::Free)
}

#[tactic(auto, unfolding(crate::specs::Kinds::target))]
fn takes_links(kind: Kind) -> bool
    ensures { result ≡ tests_links kind }
{
    matches!(
        kind,
        Kind::Free
            | Kind::ToFam
            | Kind::ToIndi
            | Kind::ToSubm
            | Kind::ToSnote
            | Kind::ToSour
            | Kind::ToObje
    )
}

/// Whether a text of one line is of a kind. It hands the text on to one reader in each case, and has no work of its own to save values for.
#[inline(never)]
fn fits_line(kind: Kind, text: &str) -> bool
    ensures { IsTrue result ↔ FitsLine kind text.now }
{
    match kind {
        Kind::Nothing => text.is_empty(),
        Kind::Text | Kind::Free => true,
        Kind::EventFlag => text.is_empty() || text == "Y",
        Kind::Integer => is_integer(text),
        Kind::Version => is_version(text),
        Kind::DateValue => is_date_value(text),
        Kind::DatePeriod => reads_period(text),
        Kind::DateExact => is_exact_date(text),
        Kind::Time => is_time(text),
        Kind::Age => reads_age(text),
        Kind::Name => is_name(text),
        Kind::EnumAny => is_of_any_set(text),
        Kind::SexEnum => is_sex_or_tag(text),
        Kind::PediEnum => is_pedigree_or_tag(text),
        Kind::StatEnum => is_status_or_tag(text),
        Kind::NameTypeEnum => is_name_type_or_tag(text),
        Kind::ResnList => are_restrictions(text),
        Kind::ToFam | Kind::ToIndi | Kind::ToSubm | Kind::ToSnote | Kind::ToSour | Kind::ToObje =>
            false,
    }
}

/// Whether a payload is of a kind. The record that a pointer names isn't looked at. Takes no memory.
#[inline(always)]
pub fn fits(kind: Kind, given: Given<'_>) -> bool
    ensures { IsTrue result ↔ Fits kind given.entry }
{
    match given {
        Given::One(text) => fits_line(kind, text),
        Given::Many => takes_lines(kind),
        Given::Pointer | Given::Void => takes_links(kind),
    }
}
