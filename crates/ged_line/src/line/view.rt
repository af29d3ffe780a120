// A line as slices of a file.
ghost use Rattle.std.specs.Prelude.{◌≡◌, true, false, option_map, MatchOption};
ghost use Rattle.ged_line.specs.Lines.{line_parts, is_line, is_value as tests_value, may_be_xref};
ghost use Rattle.ged_line.specs.Names.{is_tag as tests_tag};
ghost use Rattle.ged_line.specs.Views.{viewed_value};

use crate::bytes::characters::is_line_text;
use crate::line::names::{is_tag, is_xref};
use std::marker::Model;

/// What stands in a line after its tag, as slices (FamilySearch GEDCOM 7.0, "Lines").
#[derive(Clone, Copy, Debug, PartialEq, Eq)]
pub enum ValueView<'a> {
    /// No value, or an empty one.
    Empty,
    /// The void pointer, `@VOID@`.
    Void,
    /// The name of the record that is pointed at, without its `@`.
    Pointer(&'a str),
    /// A text, not empty, with a leading `@` once.
    Text(&'a str),
}

/// A line, as slices. Contracts see it as they see a [`crate::Line`].
#[derive(Drop)]
pub struct LineView<'a> {
    level: u8,
    xref: Option<&'a str>,
    tag: &'a str,
    value: ValueView<'a>,
}

impl<'a> Model for LineView<'a> {
    ghost use Rattle.std.specs.Prelude.{◌≡◌, true, option_map};
    ghost use Rattle.ged_line.specs.Lines.{LineParts, line_parts, is_line};

    ghost Value = { LineParts };

    ghost use Rattle.ged_line.specs.Views.{viewed_value};

    ghost view = { λ v. line_parts v.level (option_map (λ x. x.now) v.xref) v.tag.now (viewed_value v.value) };

    ghost invariant = { λ v. is_line (line_parts v.level (option_map (λ x. x.now) v.xref) v.tag.now (viewed_value v.value)) ≡ true };
}

impl<'a> LineView<'a> {
    /// The line of these parts, or `None` where there is none: the level is above 99, a name is no tag or no
    /// cross-reference identifier, or a text is empty or has a character that may not stand in a line.
    /// Takes no memory.
    pub fn new(
        level: u8,
        xref: Option<&'a str>,
        tag: &'a str,
        value: ValueView<'a>,
    ) -> Option<LineView<'a>>
        ensures { MatchOption result
            (is_line (line_parts level (option_map (λ x. x.now) xref.entry) tag.now (viewed_value value.entry)) ≡ false)
            (λ line. (line ≡ line_parts level (option_map (λ x. x.now) xref.entry) tag.now (viewed_value value.entry))
            × (is_line line ≡ true)) }
    {
        if level > 99 || !is_tag(tag) || !is_xref_or_none(xref) || !is_value(value) {
            return None;
        }
        Some(LineView {
            level,
            xref,
            tag,
            value,
        })
    }

    /// The line of parts that are known to be a line's.
    pub(crate) fn of_parts(
        level: u8,
        xref: Option<&'a str>,
        tag: &'a str,
        value: ValueView<'a>,
    ) -> LineView<'a>
        requires { is_line (line_parts level (option_map (λ x. x.now) xref) tag.now (viewed_value value)) ≡ true }
        ensures { result ≡ line_parts level (option_map (λ x. x.now) xref.entry) tag.now (viewed_value value.entry) }
    {
        LineView {
            level,
            xref,
            tag,
            value,
        }
    }

    /// The level, from 0 to 99. Takes no memory.
    pub fn level(&self) -> u8
        ensures level { result ≡ self.now.level }
        ensures line { is_line self.now ≡ true }
    {
        self.level
    }

    /// The line's own cross-reference identifier, without its `@`. Takes no memory.
    pub fn xref(&self) -> Option<&'a str>
        ensures xref { option_map (λ x. x.now) result ≡ self.now.xref }
        ensures name { may_be_xref self.now.xref ≡ true }
    {
        self.xref
    }

    /// The tag, standard or of an extension. Takes no memory.
    pub fn tag(&self) -> &'a str
        ensures tag { result.now ≡ self.now.tag }
        ensures name { tests_tag self.now.tag ≡ true }
    {
        self.tag
    }

    /// What stands behind the tag; of a text that is escaped, without the sign that escapes it. Takes no memory.
    pub fn value(&self) -> ValueView<'a>
        ensures value { viewed_value result ≡ self.now.value }
        ensures text { tests_value self.now.value ≡ true }
    {
        self.value
    }
}

fn is_xref_or_none(xref: Option<&str>) -> bool
    ensures { result ≡ may_be_xref (option_map (λ x. x.now) xref.entry) }
{
    match xref {
        Some(name) => is_xref(name),
        None => true,
    }
}

fn is_value(value: ValueView<'_>) -> bool
    ensures { result ≡ tests_value (viewed_value value.entry) }
{
    match value {
        ValueView::Empty | ValueView::Void => true,
        ValueView::Pointer(name) => is_xref(name),
        ValueView::Text(text) => is_line_text(text),
    }
}
