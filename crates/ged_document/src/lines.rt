// The lines of a document.
ghost use Rattle.std.specs.Prelude.{◌≡◌, ◌<◌, ◌≤◌, ◌+◌, ◌++◌, IfOk, OnOk, None, true, length};
ghost use Rattle.std.specs.Option.{option_copied};
ghost use Rattle.std.specs.List.{list_all};
ghost use Rattle.ged_line.specs.Characters.{is_plain};
ghost use Rattle.ged_line.specs.Lines.{is_line, line_parts};
ghost use Rattle.ged_line.specs.Views.{held_value};
ghost use Rattle.ged_tree.specs.Trees.{trees_of, structure_of};
ghost use Rattle.ged_tree.specs.Documents.{is_document};
ghost use Rattle.ged_tree.specs.inner.Walks.{HasLinesAt, HaveLinesAt};
ghost use Rattle.ged_tree.specs.DocumentLines.{line_value, first_value, structure_lines, lines_of, document_lines};
ghost use Rattle.ged_tree.specs.inner.DocumentParts.{continued};
ghost use Rattle.ged_document.specs.Records.{record_trees};

use crate::copying::copy_tag;
use crate::document::Document;
use crate::node::{Node, RecordNode};
use ged_line::{Line, LineValue, Tag, Text, Xref};
use ged_tree::Payload;
use std::alloc::{AllocError, Global};

/// The lines of a document, TRLR's at their end. Grows (FamilySearch GEDCOM 7.0, "Lines" and "Structures").
pub fn to_lines(alloc: Global, document: &Document) -> Result<Vec<Line>, AllocError>
    ensures lines { IfOk result (λ lines. lines.items ≡ document_lines document.now) }
    ensures document { is_document document.now ≡ true }
{
    let mut lines = Vec::new(alloc);
    let (head, records) = document.parts();
    push_structure(alloc, 0, None, head, &mut lines)?;
    push_trees(alloc, head.children.as_slice(), 1, &mut lines)?;
    push_records(alloc, records, &mut lines)?;
    let tag = copy_tag(alloc, "TRLR")?;
    lines.push(known_line(0, None, tag, LineValue::Empty))?;
    Ok(lines)
}

fn push_records(
    alloc: Global,
    records: &[RecordNode],
    lines: &mut Vec<Line>,
) -> Result<(), AllocError>
    requires { HaveLinesAt 0 (record_trees records.now) }
    ensures { OnOk result (lines.new.items ≡ lines.old.items ++ lines_of 0 (record_trees records.now)) }
{
    for each in records {
        push_structure(alloc, 0, each.xref.as_ref(), &each.node, lines)?;
        push_trees(alloc, each.node.children.as_slice(), 1, lines)?;
    }
    Ok(())
}

fn push_trees(
    alloc: Global,
    nodes: &[Node],
    level: u8,
    lines: &mut Vec<Line>,
) -> Result<(), AllocError>
    requires small { level ≤ 100 }
    requires stand { HaveLinesAt level (trees_of nodes.now) }
    ensures { OnOk result (lines.new.items ≡ lines.old.items ++ lines_of level (trees_of nodes.now)) }
{
    for node in nodes {
        push_structure(alloc, level, None, node, lines)?;
        push_trees(alloc, node.children.as_slice(), level + 1, lines)?;
    }
    Ok(())
}

fn push_structure(
    alloc: Global,
    level: u8,
    xref: Option<&Xref>,
    node: &Node,
    lines: &mut Vec<Line>,
) -> Result<(), AllocError>
    requires stands { HasLinesAt level (structure_of (option_copied xref) node.now) }
    ensures { OnOk result (lines.new.items
        ≡ lines.old.items ++ structure_lines level (structure_of (option_copied xref.entry) node.now)) }
{
    let own = match xref {
        Some(name) => Some(name.copy(alloc)?),
        None => None,
    };
    let tag = node.tag.copy(alloc)?;
    let value = first_value_of(alloc, &node.payload)?;
    lines.push(known_line(level, own, tag, value))?;
    push_continued(alloc, level, node.payload.further_lines(), lines)
}

/// Pushes a CONT line for each further line of the payload of a structure at a level.
fn push_continued(
    alloc: Global,
    level: u8,
    texts: &[Text],
    lines: &mut Vec<Line>,
) -> Result<(), AllocError>
    requires shallow { level ≤ 99 }
    requires room { 0 < length texts.now → level < 99 }
    requires plain { list_all is_plain texts.now ≡ true }
    ensures { OnOk result (lines.new.items ≡ lines.old.items ++ continued (level + 1) texts.now) }
{
    for text in texts {
        let tag = copy_tag(alloc, "CONT")?;
        let value = value_of(alloc, text)?;
        lines.push(known_line(level + 1, None, tag, value))?;
    }
    Ok(())
}

fn first_value_of(alloc: Global, payload: &Payload) -> Result<LineValue, AllocError>
    ensures { IfOk result (λ value. held_value value ≡ first_value payload.now) }
{
    match payload {
        Payload::Void => Ok(LineValue::Void),
        Payload::Pointer(name) => Ok(LineValue::Pointer(name.copy(alloc)?)),
        Payload::Text(text) => value_of(alloc, &text.as_slice()[0]),
    }
}

fn value_of(alloc: Global, text: &Text) -> Result<LineValue, AllocError>
    ensures { IfOk result (λ value. held_value value ≡ line_value text.now) }
{
    if text.as_str().is_empty() {
        return Ok(LineValue::Empty);
    }
    Ok(LineValue::Text(text.copy(alloc)?))
}

/// The line of parts that are known to be a line's.
fn known_line(level: u8, xref: Option<Xref>, tag: Tag, value: LineValue) -> Line
    requires { is_line (line_parts level xref tag (held_value value)) ≡ true }
    ensures { result ≡ line_parts level xref tag (held_value value) }
{
    match Line::new(level, xref, tag, value) {
        Some(line) => line,
        None => unreachable!(),
    }
}
