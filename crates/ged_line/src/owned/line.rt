// A line that owns its parts.
ghost use Rattle.std.specs.Prelude.{◌≡◌, true, false, IfOk, IfErr, MatchOption, option_map};
ghost use Rattle.std.specs.Option.{option_copied};
ghost use Rattle.ged_line.specs.Lines.{line_parts, is_line, may_be_xref, is_value as tests_value};
ghost use Rattle.ged_line.specs.Spelling.{LineText};
ghost use Rattle.ged_line.specs.Views.{viewed_value, held_value};
ghost use Rattle.ged_line.specs.Reading.{TellsParse};

use crate::bytes::characters::is_line_text;
use crate::fault::ParseFault;
use crate::line::read::view_line;
use crate::line::view::{LineView, ValueView};
use crate::owned::names::{Tag, Xref};
use crate::owned::text::Text;
use std::alloc::{AllocError, Global};
use std::marker::Model;

/// What stands in a line after its tag (FamilySearch GEDCOM 7.0, "Lines").
#[derive(Debug, Drop, PartialEq, Eq)]
pub enum LineValue {
    /// No value, or an empty one.
    Empty,
    /// The void pointer, `@VOID@`.
    Void,
    /// A pointer to the record of this cross-reference identifier.
    Pointer(Xref),
    /// A text, with a leading `@` once.
    Text(Text),
}

/// A line of a file (FamilySearch GEDCOM 7.0, "Lines").
#[derive(Debug, Drop, PartialEq, Eq)]
pub struct Line {
    level: u8,
    xref: Option<Xref>,
    tag: Tag,
    value: LineValue,
}

impl Model for Line {
    ghost use Rattle.std.specs.Prelude.{◌≡◌, true};
    ghost use Rattle.ged_line.specs.Lines.{LineParts, line_parts, is_line};

    ghost Value = { LineParts };

    ghost use Rattle.ged_line.specs.Views.{held_value};
    ghost use Rattle.ged_line.specs.inner.Views.{holder_of};

    ghost view = { λ l. line_parts l.level l.xref l.tag (held_value l.value) };

    ghost invariant = { λ l. is_line (line_parts l.level l.xref l.tag (held_value l.value)) ≡ true };

    ghost inverse = { λ l. record { level = l.level; xref = l.xref; tag = l.tag; value = holder_of l.value } };
}

impl Line {
    /// The line of these parts, or `None` where the level is above 99, or a text is empty or has a CR, LF or another
    /// character that may not stand in a line; the parts are then dropped. Takes no memory.
    pub fn new(level: u8, xref: Option<Xref>, tag: Tag, value: LineValue) -> Option<Line>
        ensures { MatchOption result
            (is_line (line_parts level xref tag (held_value value)) ≡ false)
            (λ line. (line ≡ line_parts level xref tag (held_value value))
            × (is_line line ≡ true)) }
    {
        if level > 99 || !is_value(&value) {
            return None;
        }
        Some(Line {
            level,
            xref,
            tag,
            value,
        })
    }

    /// The level, from 0 to 99. Takes no memory.
    pub fn level(&self) -> u8
        ensures level { result ≡ self.now.level }
        ensures line { is_line self.now ≡ true }
    {
        self.level
    }

    /// The line's own cross-reference identifier. Takes no memory.
    pub fn xref(&self) -> Option<&Xref>
        ensures { option_copied result ≡ self.now.xref }
    {
        self.xref.as_ref()
    }

    /// The tag, standard or of an extension. Takes no memory.
    pub fn tag(&self) -> &Tag
        ensures { result.now ≡ self.now.tag }
    {
        &self.tag
    }

    /// What stands behind the tag. Takes no memory.
    pub fn value(&self) -> &LineValue
        ensures { held_value result.now ≡ self.now.value }
    {
        &self.value
    }

    /// The line as slices of its parts. Takes no memory.
    pub fn as_view(&self) -> LineView<'_>
        ensures { result ≡ self.now }
    {
        LineView::of_parts(
            self.level,
            xref_view(&self.xref),
            self.tag.as_str(),
            value_view(&self.value),
        )
    }
}

fn is_value(value: &LineValue) -> bool
    ensures { result ≡ tests_value (held_value value.now) }
{
    match value {
        LineValue::Empty | LineValue::Void => true,
        LineValue::Pointer(name) => {
            // An identifier needs no test: that it is one is what `as_str` tells.
            let _name = name.as_str();
            true
        }
        LineValue::Text(text) => is_line_text(text.as_str()),
    }
}

fn xref_view(xref: &Option<Xref>) -> Option<&str>
    ensures { option_map (λ name. name.now) result ≡ xref.now }
{
    match xref {
        Some(name) => Some(name.as_str()),
        None => None,
    }
}

fn value_view(value: &LineValue) -> ValueView<'_>
    ensures { viewed_value result ≡ held_value value.now }
{
    match value {
        LineValue::Empty => ValueView::Empty,
        LineValue::Void => ValueView::Void,
        LineValue::Pointer(name) => ValueView::Pointer(name.as_str()),
        LineValue::Text(text) => ValueView::Text(text.as_str()),
    }
}

fn copy_xref(alloc: Global, xref: Option<&str>) -> Result<Option<Xref>, AllocError>
    requires { may_be_xref (option_map (λ name. name.now) xref) ≡ true }
    ensures { IfOk result (λ copy. copy ≡ option_map (λ name. name.now) xref.entry) }
{
    match xref {
        Some(name) => Ok(Some(Xref::of_name(alloc, name)?)),
        None => Ok(None),
    }
}

fn copy_value(alloc: Global, value: ValueView<'_>) -> Result<LineValue, AllocError>
    requires { tests_value (viewed_value value) ≡ true }
    ensures { IfOk result (λ copy. held_value copy ≡ viewed_value value.entry) }
{
    match value {
        ValueView::Empty => Ok(LineValue::Empty),
        ValueView::Void => Ok(LineValue::Void),
        ValueView::Pointer(name) => Ok(LineValue::Pointer(Xref::of_name(alloc, name)?)),
        ValueView::Text(text) => Ok(LineValue::Text(Text::from_str(alloc, text)?)),
    }
}

fn copy_line(alloc: Global, view: &LineView<'_>) -> Result<Line, AllocError>
    ensures { IfOk result (λ line. line ≡ view.now) }
{
    let level = view.level();
    let xref = copy_xref(alloc, view.xref())?;
    let tag = Tag::of_name(alloc, view.tag())?;
    let value = copy_value(alloc, view.value())?;
    Ok(Line {
        level,
        xref,
        tag,
        value,
    })
}

/// The line that a piece of a file is, as [`view_line`] reads it.
///
/// Grows, for a line; the fault of a piece that is none is found before the first growth.
pub fn parse_line(alloc: Global, piece: &[u8]) -> Result<Line, ParseFault>
    ensures found { IfOk result (λ line. LineText line piece.now) }
    ensures fault { IfErr result (λ fault. TellsParse fault piece.now) }
{
    match view_line(piece) {
        Ok(view) => match copy_line(alloc, &view) {
            Ok(line) => Ok(line),
            Err(error) => Err(ParseFault::Memory(error)),
        },
        Err(fault) => Err(ParseFault::Bad(fault)),
    }
}
