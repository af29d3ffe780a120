// What a structure carries.
ghost use Rattle.std.specs.Prelude.{◌≡◌, ◌<◌, IfOk, MatchOption, [], length};
ghost use Rattle.std.specs.List.{list_all};
ghost use Rattle.ged_line.specs.Characters.{is_plain as tests_plain};
ghost use Rattle.ged_tree.specs.Trees.{further_lines, line_count};
ghost use Rattle.ged_tree.specs.Documents.{is_payload_at};
ghost use Rattle.ged_tree.specs.Views.{payload_of};
ghost use Rattle.ged_tree.specs.declared.payload.Payload.TheVariants.{Text as TextPayload};

use crate::forest::payload::PayloadView;
use ged_line::{Text, Xref, is_plain};
use std::alloc::{AllocError, Global};
use std::marker::Model;

/// The lines of a text, of which there is at least one; the empty text is one empty line.
#[derive(Debug, Drop)]
pub struct TextLines {
    lines: Vec<Text>,
}

impl Model for TextLines {
    ghost use Rattle.std.specs.Prelude.{List, length, ◌<◌};
    ghost use Rattle.ged_line.specs.Bytes.{Bytes};

    ghost Value = { List Bytes };

    ghost view = { λ t. t.lines.items };

    ghost invariant = { λ t. 0 < length t.lines.items };
}

impl TextLines {
    /// The text of these lines, or `None` where there is no line. Takes no memory.
    pub fn new(lines: Vec<Text>) -> Option<TextLines>
        ensures { MatchOption result (lines.items ≡ []) (λ text. text ≡ lines.items) }
    {
        if lines.is_empty() {
            return None;
        }
        Some(TextLines { lines })
    }

    /// The lines. Takes no memory.
    pub fn into_lines(self) -> Vec<Text>
        ensures lines { result.items ≡ self }
        ensures some { 0 < length self }
    {
        let TextLines { lines } = self;
        lines
    }

    /// The lines, of which there is at least one. Takes no memory.
    pub fn as_slice(&self) -> &[Text]
        ensures lines { result.now ≡ self.now }
        ensures some { 0 < length self.now }
    {
        self.lines.as_slice()
    }

    /// A copy of the lines. Grows; an error where a growth was refused.
    pub fn copy(&self, alloc: Global) -> Result<TextLines, AllocError>
        ensures { IfOk result (λ copy. copy ≡ self.now) }
    {
        let mut lines = Vec::new(alloc);
        for line in &self.lines {
            lines.push(line.copy(alloc)?)?;
        }
        Ok(TextLines { lines })
    }
}

/// The payload of a structure (FamilySearch GEDCOM 7.0, "Structures").
#[derive(Debug, Drop)]
pub enum Payload {
    /// The void pointer, `@VOID@`.
    Void,
    /// A pointer to the record of this cross-reference identifier.
    Pointer(Xref),
    /// A text. A structure without a payload has the empty one.
    Text(TextLines),
}

impl Payload {
    /// The payload by its first line. Takes no memory.
    pub fn view(&self) -> PayloadView<'_>
        ensures { payload_of result (further_lines self.now) ≡ self.now }
    {
        match self {
            Payload::Void => PayloadView::Void,
            Payload::Pointer(name) => PayloadView::Pointer(name.as_str()),
            Payload::Text(text) => PayloadView::Text(text.as_slice()[0].as_str()),
        }
    }

    /// The lines past the first. Takes no memory.
    pub fn further_lines(&self) -> &[Text]
        ensures { result.now ≡ further_lines self.now }
    {
        match self {
            Payload::Text(text) => &text.as_slice()[1..],
            _ => &[],
        }
    }

    /// How many lines a structure with this payload has: its own, and one for each further line. Takes no memory.
    pub fn line_count(&self) -> u64
        ensures { result ≡ line_count self.now }
    {
        match self {
            Payload::Text(text) => text.as_slice().len() as u64,
            _ => 1,
        }
    }

    /// A copy of the payload. Grows; an error where a growth was refused.
    pub fn copy(&self, alloc: Global) -> Result<Payload, AllocError>
        ensures { IfOk result (λ copy. copy ≡ self.now) }
    {
        match self {
            Payload::Void => Ok(Payload::Void),
            Payload::Pointer(name) => Ok(Payload::Pointer(name.copy(alloc)?)),
            Payload::Text(text) => Ok(Payload::Text(text.copy(alloc)?)),
        }
    }

    /// Whether a structure at this level, from 0 on, may have the payload: a text of several lines needs room for its CONT lines
    /// one level deeper. Takes no memory (FamilySearch GEDCOM 7.0, "Lines").
    pub fn may_stand_at(&self, level: u8) -> bool
        ensures { result ≡ is_payload_at level self.now }
    {
        match self {
            Payload::Void => true,
            Payload::Pointer(name) => {
                // Read for the proof alone: by its contract the name is an identifier.
                let _name = name.as_str();
                true
            }
            Payload::Text(text) => may_be_text(text.as_slice(), level),
        }
    }
}

/// Whether the lines can be those of a text at a level.
fn may_be_text(lines: &[Text], level: u8) -> bool
    ensures { result ≡ is_payload_at level (TextPayload lines.now) }
{
    match lines {
        [] => false,
        [line] => is_plain(line.as_str()),
        _ => level < 99 && are_plain(lines),
    }
}

/// Whether no line has a line end or a banned character.
fn are_plain(lines: &[Text]) -> bool
    ensures { result ≡ list_all tests_plain lines.now }
{
    lines.iter().all(|line| is_plain(line.as_str()))
}
