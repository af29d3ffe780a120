// Documents that are made by hand. Their structures are told as in a file, with `;` between two of them and `/` between two
// lines of a payload, and no character is refused.
use crate::forests::say_forest;
use crate::trees::say_lines_of;
use ged_document::{Document, Node, RecordNode};
use ged_examples_answers::Answer;
use ged_line::{Tag, Text, Xref};
use ged_tree::{Payload, TextLines};
use std::alloc::{AllocError, Global};

/// Answers a call on a text; false where this module has no call of this name.
pub(crate) fn answer(alloc: Global, call: &str, text: &str, answer: &mut Answer) -> bool {
    match call {
        "Document::new" | "Document::new/to_lines" => match make_document(alloc, text) {
            Ok(Some(document)) => say_made(alloc, call, &document, answer),
            Ok(None) => answer.say("None"),
            Err(_) => answer.lack_memory(),
        },
        "TextLines::new" => {
            if let Some(lines) = answer.given(read_texts(alloc, text)) {
                match TextLines::new(lines) {
                    Some(made) => say_text_lines(alloc, made, answer),
                    None => answer.say("None"),
                }
            }
        }
        _ => return false,
    }
    true
}

fn say_made(alloc: Global, call: &str, document: &Document, answer: &mut Answer) {
    if call == "Document::new" {
        say_forest(document, answer);
    } else {
        say_lines_of(alloc, document, answer);
    }
}

/// The lines of a copy of the text that the lines of a text are, by both ways to have them.
fn say_text_lines(alloc: Global, made: TextLines, answer: &mut Answer) {
    if let Some(copy) = answer.given(made.copy(alloc)) {
        for line in copy.as_slice() {
            answer.say(line.as_str());
            answer.say("/");
        }
    }
    for line in made.into_lines() {
        answer.say(" ");
        answer.say(line.as_str());
    }
}

/// The lines of a text, each but the last with `/` behind it; the empty text has none.
fn read_texts(alloc: Global, text: &str) -> Result<Vec<Text>, AllocError> {
    let mut lines = Vec::new(alloc);
    for line in text.split_terminator('/') {
        lines.push(Text::from_str(alloc, line)?)?;
    }
    Ok(lines)
}

fn read_payload(alloc: Global, text: &str) -> Result<Option<Payload>, AllocError> {
    if text == "@VOID@" {
        return Ok(Some(Payload::Void));
    }
    if let Some(name) = name_between_signs(text)
        && let Some(xref) = Xref::read(alloc, name)?
    {
        return Ok(Some(Payload::Pointer(xref)));
    }
    let mut lines = read_texts(alloc, text)?;
    if lines.is_empty() {
        lines.push(Text::from_str(alloc, "")?)?;
    }
    Ok(TextLines::new(lines).map(Payload::Text))
}

fn name_between_signs(text: &str) -> Option<&str> {
    text.strip_prefix('@')?.strip_suffix('@')
}

/// A structure with what stands below it, and its level.
#[derive(Drop)]
struct Leveled {
    level: u32,
    record: RecordNode,
}

/// The structure of a line, with nothing below it.
fn read_structure(alloc: Global, line: &str) -> Result<Option<Leveled>, AllocError> {
    let Some((level, rest)) = line.split_once(' ') else {
        return Ok(None);
    };
    let Ok(level) = level.parse::<u32>() else {
        return Ok(None);
    };
    let (name, rest) = match rest.split_once(' ') {
        Some((first, behind)) if first.starts_with('@') => (name_between_signs(first), behind),
        _ => (None, rest),
    };
    let xref = match name {
        Some(name) => Xref::read(alloc, name)?,
        None => None,
    };
    let (tag, payload) = rest.split_once(' ').unwrap_or((rest, ""));
    let (Some(tag), Some(payload)) = (Tag::read(alloc, tag)?, read_payload(alloc, payload)?) else {
        return Ok(None);
    };
    let children = Vec::new(alloc);
    let node = Node {
        tag,
        payload,
        children,
    };
    let record = RecordNode { xref, node };
    Ok(Some(Leveled { level, record }))
}

/// Takes the structures right below a level from those behind it, of which the nearest is the last, and gives them in order.
fn take_below(
    alloc: Global,
    level: u32,
    behind: &mut Vec<Leveled>,
) -> Result<Vec<Node>, AllocError> {
    let mut children = Vec::new(alloc);
    for _ in 0..behind.len() {
        let Some(next) = behind.pop() else {
            break;
        };
        if next.level <= level {
            behind.push(next)?;
            break;
        }
        let Leveled { level: _, record } = next;
        let RecordNode { xref: _, node } = record;
        children.push(node)?;
    }
    Ok(children)
}

/// The document of structures, which are read from the last to the first; `None` also where one cannot be read.
fn make_document(alloc: Global, text: &str) -> Result<Option<Document>, AllocError> {
    let mut behind: Vec<Leveled> = Vec::new(alloc);
    for line in text.rsplit(';') {
        let Some(mut structure) = read_structure(alloc, line)? else {
            return Ok(None);
        };
        structure.record.node.children = take_below(alloc, structure.level, &mut behind)?;
        behind.push(structure)?;
    }
    let Some(head) = behind.pop() else {
        return Ok(None);
    };
    let mut records = Vec::new(alloc);
    for _ in 0..behind.len() {
        if let Some(record) = behind.pop() {
            records.push(record.record)?;
        }
    }
    Ok(Document::new(head.record.node, records))
}
