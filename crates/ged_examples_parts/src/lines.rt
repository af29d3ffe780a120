// Calls of `ged_line`, each under its name there.
use crate::parts::{Parts, read_parts, say_line, say_line_fault, say_view};
use ged_examples_answers::Answer;
use ged_line::{
    Line, LineAt, LineView, ParseFault, RespellFault, Tag, Text, Xref, behind_mark, first_line,
    is_plain, is_same_tag, parse_line, read_lines, respell_lines, respell_parts, split_pieces,
    tag_order, text_behind_mark, view_line, view_lines, view_text, write_head, write_line,
    write_lines, write_parts, write_view,
};
use std::alloc::Global;
use std::str;

/// Answers a call on an argument; false where this module has no call of this name.
pub(crate) fn answer(alloc: Global, call: &str, argument: &[u8], answer: &mut Answer) -> bool {
    if answer_of_piece(alloc, call, argument, answer)
        || answer_of_file(alloc, call, argument, answer)
    {
        return true;
    }
    let Ok(text) = str::from_utf8(argument) else {
        return false;
    };
    answer_of_text(alloc, call, text, answer)
        || answer_of_names(alloc, call, text, answer)
        || answer_of_parts(alloc, call, text, answer)
}

/// Calls about a piece of a file.
fn answer_of_piece(alloc: Global, call: &str, piece: &[u8], answer: &mut Answer) -> bool {
    match call {
        "view_line" | "write_view" => match view_line(piece) {
            Ok(view) => say_of_view(call, &view, answer),
            Err(fault) => say_line_fault(answer, fault),
        },
        "parse_line" | "write_line" | "Line::as_view" => match parse_line(alloc, piece) {
            Ok(line) => say_of_line(call, &line, answer),
            Err(ParseFault::Bad(fault)) => say_line_fault(answer, fault),
            Err(ParseFault::Memory(_)) => answer.lack_memory(),
        },
        _ => return false,
    }
    true
}

fn say_of_view(call: &str, view: &LineView<'_>, answer: &mut Answer) {
    if call == "view_line" {
        return say_view(answer, view);
    }
    let done = write_view(view, &mut answer.bytes);
    answer.note(done);
}

fn say_of_line(call: &str, line: &Line, answer: &mut Answer) {
    match call {
        "parse_line" => say_line(answer, line),
        "write_line" => {
            let done = write_line(line, &mut answer.bytes);
            answer.note(done);
        }
        _ => say_view(answer, &line.as_view()),
    }
}

fn say_line_at(answer: &mut Answer, at: LineAt) {
    say_line_fault(answer, at.fault);
    answer.say(" at ");
    answer.say_number(at.line);
}

/// Calls about a file.
fn answer_of_file(alloc: Global, call: &str, file: &[u8], answer: &mut Answer) -> bool {
    match call {
        "split_pieces" => say_pieces(file, answer),
        "read_lines" => say_lines(alloc, file, answer),
        "write_lines" => say_written(alloc, file, answer),
        "respell_lines" => match respell_lines(alloc, file) {
            Ok(text) => answer.say_bytes(&text),
            Err(RespellFault::At(at)) => say_line_at(answer, at),
            Err(RespellFault::Memory(_)) => answer.lack_memory(),
        },
        "respell_parts" => say_parts(alloc, file, answer),
        "view_lines" => say_levels(file, answer),
        "SpelledLine::text" => say_texts(file, answer),
        "text_behind_mark" => answer.say(text_behind_mark(file).unwrap_or("None")),
        "behind_mark" => answer.say_bytes(behind_mark(file)),
        _ => return false,
    }
    true
}

/// Of each part of the lines' canonical spelling how many bytes were made, and how many are kept.
fn say_parts(alloc: Global, file: &[u8], answer: &mut Answer) {
    match respell_parts(alloc, file) {
        Ok(parts) => {
            for part in &parts {
                answer.say_number(part.made.len() as u64);
                answer.say(" ");
                answer.say_number(part.kept.len() as u64);
                answer.say("\n");
            }
        }
        Err(RespellFault::At(at)) => say_line_at(answer, at),
        Err(RespellFault::Memory(_)) => answer.lack_memory(),
    }
}

fn say_pieces(file: &[u8], answer: &mut Answer) {
    for piece in split_pieces(file) {
        answer.say_bytes(piece);
        answer.say("\n");
    }
}

/// The parts of each line that is read, one line for each, and where reading stopped.
fn say_lines(alloc: Global, file: &[u8], answer: &mut Answer) {
    if let Some(read) = answer.given(read_lines(alloc, file)) {
        for line in &read.lines {
            say_line(answer, line);
            answer.say("\n");
        }
        if let Some(at) = read.stop {
            say_line_at(answer, at);
        }
    }
}

/// The lines that are read, as they are written.
fn say_written(alloc: Global, file: &[u8], answer: &mut Answer) {
    if let Some(read) = answer.given(read_lines(alloc, file)) {
        if let Some(written) = answer.given(write_lines(alloc, &read.lines)) {
            answer.say_bytes(&written);
        }
    }
}

/// The level of each line or its fault, one line for each.
fn say_levels(file: &[u8], answer: &mut Answer) {
    for told in view_lines(file) {
        match told {
            Ok(spelled) => answer.say_number(u64::from(spelled.line.level())),
            Err(fault) => say_line_fault(answer, fault),
        }
        answer.say("\n");
    }
}

/// The text of each line or its fault, one line for each.
fn say_texts(file: &[u8], answer: &mut Answer) {
    for told in view_lines(file) {
        match told {
            Ok(spelled) => answer.say(spelled.text),
            Err(fault) => say_line_fault(answer, fault),
        }
        answer.say("\n");
    }
}

/// Calls about a text.
fn answer_of_text(alloc: Global, call: &str, text: &str, answer: &mut Answer) -> bool {
    match call {
        "is_plain" => answer.say_truth(is_plain(text)),
        "view_text" if is_plain(text) => match view_text(text) {
            Ok(view) => say_view(answer, &view),
            Err(fault) => say_line_fault(answer, fault),
        },
        "first_line" => say_first_line(text, answer),
        "Text::copy" => {
            if let Some(own) = answer.given(String::from_str(alloc, text)) {
                say_copy_of_text(alloc, &Text::from_string(own), answer);
            }
        }
        _ => return false,
    }
    true
}

/// Whether a copy is the text, and both.
fn say_copy_of_text(alloc: Global, text: &Text, answer: &mut Answer) {
    if let Some(copy) = answer.given(text.copy(alloc)) {
        answer.say(if copy == *text { "equal " } else { "other " });
        answer.say(text.as_str());
        answer.say(" ");
        answer.say(copy.into_string().as_str());
    }
}

/// The first line of a text by its parts and by its text, and what is behind it.
fn say_first_line(text: &str, answer: &mut Answer) {
    let Some((told, behind)) = first_line(text) else {
        return answer.say("None");
    };
    match told {
        Ok(spelled) => {
            say_view(answer, &spelled.line);
            answer.say(" spelled=");
            answer.say(spelled.text);
        }
        Err(fault) => say_line_fault(answer, fault),
    }
    answer.say(" behind=");
    answer.say(behind);
}

/// Calls about a tag, an identifier, or two tags with a space between.
fn answer_of_names(alloc: Global, call: &str, text: &str, answer: &mut Answer) -> bool {
    match call {
        "Tag::read" | "Tag::copy" => match Tag::read(alloc, text) {
            Ok(Some(tag)) => say_of_tag(alloc, call, &tag, answer),
            Ok(None) => say_none_read(call, answer),
            Err(_) => answer.lack_memory(),
        },
        "Xref::read" | "Xref::copy" => match Xref::read(alloc, text) {
            Ok(Some(name)) => say_of_xref(alloc, call, &name, answer),
            Ok(None) => say_none_read(call, answer),
            Err(_) => answer.lack_memory(),
        },
        "Tag::order" | "tag_order" | "is_same_tag" => {
            if let Some((first, second)) = text.split_once(' ') {
                say_of_two_tags(alloc, call, first, second, answer);
            }
        }
        _ => return false,
    }
    true
}

/// What is told of a text that is no tag or identifier: nothing of its copy.
fn say_none_read(call: &str, answer: &mut Answer) {
    if call.ends_with("::read") {
        answer.say("None");
    }
}

fn say_of_tag(alloc: Global, call: &str, tag: &Tag, answer: &mut Answer) {
    if call == "Tag::read" {
        return answer.say(tag.as_str());
    }
    if let Some(copy) = answer.given(tag.copy(alloc)) {
        answer.say(if copy == *tag { "equal " } else { "other " });
        answer.say(copy.as_str());
    }
}

fn say_of_xref(alloc: Global, call: &str, name: &Xref, answer: &mut Answer) {
    if call == "Xref::read" {
        return answer.say(name.as_str());
    }
    if let Some(copy) = answer.given(name.copy(alloc)) {
        answer.say(if copy == *name { "equal " } else { "other " });
        answer.say(copy.as_str());
    }
}

/// What one of the calls tells of two tags. Only `Tag::order` has to be given tags.
fn say_of_two_tags(alloc: Global, call: &str, first: &str, second: &str, answer: &mut Answer) {
    match call {
        "tag_order" => answer.say_order(tag_order(first, second)),
        "is_same_tag" => answer.say_truth(is_same_tag(first, second)),
        _ => {
            let tag = answer.given(Tag::read(alloc, first)).flatten();
            let other = answer.given(Tag::read(alloc, second)).flatten();
            if let (Some(tag), Some(other)) = (tag, other) {
                answer.say_order(tag.order(&other));
            }
        }
    }
}

/// Calls about the parts of a line.
fn answer_of_parts(alloc: Global, call: &str, text: &str, answer: &mut Answer) -> bool {
    let Some(parts) = read_parts(text) else {
        return false;
    };
    match call {
        "Line::new" => match parts.into_line(alloc) {
            Ok(Some(line)) => say_line(answer, &line),
            Ok(None) => answer.say("None"),
            Err(_) => answer.lack_memory(),
        },
        "LineView::new" => match view_of(parts) {
            Some(view) => say_view(answer, &view),
            None => answer.say("None"),
        },
        "write_parts" => {
            if let Some(view) = view_of(parts) {
                say_by_parts(&view, answer);
            }
        }
        "write_head" if parts.level <= 99 => {
            let done = write_head(parts.level, parts.xref, &mut answer.bytes);
            answer.note(done);
        }
        _ => return false,
    }
    true
}

fn view_of(parts: Parts<'_>) -> Option<LineView<'_>> {
    LineView::new(parts.level, parts.xref, parts.tag, parts.value)
}

fn say_by_parts(view: &LineView<'_>, answer: &mut Answer) {
    let (level, xref, tag, value) = (view.level(), view.xref(), view.tag(), view.value());
    let done = write_parts(level, xref, tag, value, &mut answer.bytes);
    answer.note(done);
}
