// A structure of a table with its text at hand, and what its line shows.
ghost use Rattle.std.specs.Prelude.{◌≡◌, ◌≤◌, ◌<◌, ◌+◌, ◌==◌, true, length, drop, decimal, option_map, slice_index};
ghost use Rattle.std.specs.List.{before_first};
ghost use Rattle.ged_line.specs.Lines.{LineParts, Value, is_value, xref_part};
ghost use Rattle.ged_line.specs.inner.LineTexts.{IsValuePart};
ghost use Rattle.ged_tree.specs.Rows.{IsSpelled, kept_level, kept_tag_length, line_shown};
ghost use Rattle.ged_tree.specs.inner.Rows.{HasTagAt, rest_of, shown_of};
ghost use Rattle.ged_tree.specs.Spelled.{from_tag, shown_value, shown_xref};
ghost use Rattle.ged_tree.specs.inner.Tables.{own_value};

use crate::forest::payload::PayloadView;
use crate::table::packed::KeptStructure;
use ged_line::LineView;
use memchr::memchr;

/// A structure of a table, with its text at hand.
#[derive(Clone, Copy)]
pub(crate) struct FlatStructure<'a> {
    /// The whole line on which it begins.
    pub(crate) text: &'a str,
    pub(crate) kept: KeptStructure,
}

impl<'a> FlatStructure<'a> {
    /// What [`FlatStructure::tag`] answers, where the place of the tag is not kept, which is rare: so this and the next two are
    /// functions of their own. They take the structure by value, so that nobody who calls them has to put it into memory. The text is
    /// known to spell a line, so searches for single bytes find its parts, and nothing is tested.
    #[cold]
    #[inline(never)]
    fn tag_of_line(self) -> &'a str
        requires { IsSpelled (shown_of self) }
        ensures { result.now ≡ (line_shown (shown_of self.entry)).tag }
    {
        before_byte(b' ', self.from_tag())
    }

    #[cold]
    #[inline(never)]
    fn xref_of_line(self) -> Option<&'a str>
        requires { IsSpelled (shown_of self) }
        ensures { option_map (λ name. name.now) result ≡ (line_shown (shown_of self.entry)).xref }
    {
        xref_at_front(self.behind_level())
    }

    #[cold]
    #[inline(never)]
    fn payload_of_line(self) -> PayloadView<'a>
        requires { IsSpelled (shown_of self) }
        ensures { own_value result ≡ (line_shown (shown_of self.entry)).value }
    {
        let rest = self.from_tag();
        let tag = before_byte(b' ', rest);
        payload_behind_tag(&rest[tag.len()..])
    }

    /// What stands in its text behind the level's space.
    fn behind_level(&self) -> &'a str
        requires { IsSpelled (shown_of self.now) }
        ensures { result.now ≡ drop (length (decimal (kept_level self.now.kept)) + 1) self.now.text.now }
    {
        &self.text[digits_of_level(self.kept.level()) + 1..]
    }

    /// What stands in its text from the tag on. An identifier has an `@` on either side, and a space behind it.
    fn from_tag(&self) -> &'a str
        requires { IsSpelled (shown_of self.now) }
        ensures { result.now ≡ from_tag (drop (length (decimal (kept_level self.now.kept)) + 1) self.now.text.now) }
    {
        let rest = self.behind_level();
        match xref_at_front(rest) {
            Some(name) => &rest[name.len() + 3..],
            None => rest,
        }
    }

    /// The tag and the value as the canonical spelling has them, where the place of the tag is kept.
    #[inline(always)]
    pub(crate) fn rest(&self) -> &'a str
        requires spelled { IsSpelled (shown_of self.now) }
        requires kept { 0 < kept_tag_length self.now.kept }
        ensures { result.now ≡ rest_of (line_shown (shown_of self.now)) }
    {
        let start = self.kept.tag_start as usize;
        rest_between(self.text, start, start + self.kept.tag_length() as usize)
    }

    #[inline(always)]
    pub(crate) fn tag(&self) -> &'a str
        requires { IsSpelled (shown_of self.now) }
        ensures { result.now ≡ (line_shown (shown_of self.now)).tag }
    {
        let length = self.kept.tag_length();
        if length == 0 {
            return self.tag_of_line();
        }
        let start = self.kept.tag_start as usize;
        let end = start + length as usize;
        &self.text[start..end]
    }

    pub(crate) fn xref(&self) -> Option<&'a str>
        requires { IsSpelled (shown_of self.now) }
        ensures { option_map (λ name. name.now) result ≡ (line_shown (shown_of self.now)).xref }
    {
        if self.kept.tag_length() == 0 {
            return self.xref_of_line();
        }
        let first = digits_of_level(self.kept.level()) + 1;
        let start = self.kept.tag_start as usize;
        if start == first {
            return None;
        }
        Some(&self.text[first + 1..start - 2])
    }

    #[inline(always)]
    pub(crate) fn payload(&self) -> PayloadView<'a>
        requires { IsSpelled (shown_of self.now) }
        ensures { own_value result ≡ (line_shown (shown_of self.now)).value }
    {
        let length = self.kept.tag_length();
        if length == 0 {
            return self.payload_of_line();
        }
        let end = self.kept.tag_start as usize + length as usize;
        payload_behind_tag(&self.text[end..])
    }
}

/// What stands on a line from the start of its tag on. The space that may stand alone behind the tag is left out.
#[inline(always)]
fn rest_between(text: &str, start: usize, end: usize) -> &str
    requires { (line : LineParts) × HasTagAt line text.now start end }
    ensures { (line : LineParts) → HasTagAt line text.now start end → result.now ≡ rest_of line }
{
    if text.len() == end + 1 {
        return &text[start..end];
    }
    &text[start..]
}

/// What stands up to a byte, or all where there is none. An identifier has no `@` in it, and a tag has no space.
fn before_byte(byte: u8, text: &str) -> &str
    requires { byte < 128 }
    ensures { result.now ≡ before_first (λ c. c == byte) text.now }
{
    match memchr(byte, text.as_bytes()) {
        Some(end) => &text[..end],
        None => text,
    }
}

/// The name of the identifier that the rest of a line begins with, behind the level's space.
fn xref_at_front(rest: &str) -> Option<&str>
    ensures { option_map (λ name. name.now) result ≡ shown_xref rest.now }
{
    match rest.as_bytes() {
        [b'@', ..] => Some(before_byte(b'@', &rest[1..])),
        _ => None,
    }
}

/// How many digits spell a level.
#[inline(always)]
pub(crate) fn digits_of_level(level: u8) -> usize
    requires { level ≤ 99 }
    ensures digits { result ≡ length (decimal level) }
    ensures few { result ≤ 2 }
{
    if level < 10 { 1 } else { 2 }
}

/// Where the tag of a line begins in the text that spells the line, in bytes.
pub(crate) fn start_of_tag(line: &LineView<'_>) -> usize
    ensures { result ≡ length (decimal line.now.level) + 1 + length (xref_part line.now.xref) }
{
    let first = digits_of_level(line.level()) + 1;
    match line.xref() {
        Some(name) => first + name.len() + 3,
        None => first,
    }
}

/// The payload that begins behind a tag, with the space before it.
#[inline(always)]
fn payload_behind_tag(part: &str) -> PayloadView<'_>
    requires { (value : Value) × (is_value value ≡ true) × IsValuePart value part.now }
    ensures { own_value result ≡ shown_value part.now }
{
    if part.len() < 2 {
        return PayloadView::Text("");
    }
    match part.as_bytes() {
        [_, b'@', b'@', ..] => PayloadView::Text(&part[2..]),
        [_, b'@', ..] => reference_of(part),
        _ => PayloadView::Text(&part[1..]),
    }
}

/// The reference that stands behind a tag, with the space before it.
fn reference_of(part: &str) -> PayloadView<'_>
    requires value { (value : Value) × (is_value value ≡ true) × IsValuePart value part.now }
    requires long { 2 ≤ length part.now }
    requires first { slice_index part.now 1 ≡ 64 }
    requires second { ¬ (slice_index part.now 2 ≡ 64) }
    ensures { own_value result ≡ shown_value part.now }
{
    let name = &part[2..part.len() - 1];
    if name == "VOID" {
        PayloadView::Void
    } else {
        PayloadView::Pointer(name)
    }
}
