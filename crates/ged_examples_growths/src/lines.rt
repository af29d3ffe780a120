// The calls that grow and are made on one line.
use crate::calls::say_memory;
use crate::growths::Marks;
use ged_examples_answers::Answer;
use ged_line::{
    Line, LineView, ParseFault, Tag, ValueView, Xref, parse_line, view_line, write_line, write_view,
};
use std::alloc::{AllocError, Global};

/// Makes a call on a line, where that has what the call asks for.
pub(crate) fn call_of_line(
    alloc: Global,
    name: &str,
    piece: &[u8],
    marks: &mut Marks,
    answer: &mut Answer,
) {
    let Ok(view) = view_line(piece) else {
        return answer.say("no line");
    };
    match name {
        "Tag::read" => call_read_tag(alloc, &view, marks, answer),
        "Tag::copy" => call_copy_tag(alloc, &view, marks, answer),
        "Xref::read" => call_read_xref(alloc, &view, marks, answer),
        "Xref::copy" => call_copy_xref(alloc, &view, marks, answer),
        "parse_line" => call_parse_line(alloc, piece, marks, answer),
        "write_line" => call_write_line(alloc, piece, marks, answer),
        _ => call_write_view(alloc, &view, marks, answer),
    }
}

fn call_read_tag(alloc: Global, view: &LineView<'_>, marks: &mut Marks, answer: &mut Answer) {
    marks.begin();
    let made = Tag::read(alloc, view.tag());
    marks.end();
    match made {
        Ok(Some(tag)) => answer.say(tag.as_str()),
        Ok(None) => answer.say("no tag"),
        Err(_) => say_memory(answer, None),
    }
}

fn call_copy_tag(alloc: Global, view: &LineView<'_>, marks: &mut Marks, answer: &mut Answer) {
    let Some(Some(tag)) = answer.given(Tag::read(alloc, view.tag())) else {
        return answer.say("no tag");
    };
    marks.begin();
    let made = tag.copy(alloc);
    marks.end();
    match made {
        Ok(copy) if copy == tag => answer.say(copy.as_str()),
        Ok(_) => answer.say("another tag"),
        Err(_) => say_memory(answer, None),
    }
}

/// The name of a line's identifier or pointer, or of one that it could have.
fn name_of<'a>(view: &LineView<'a>) -> &'a str {
    match (view.xref(), view.value()) {
        (Some(name), _) => name,
        (None, ValueView::Pointer(name)) => name,
        _ => "N1",
    }
}

fn call_read_xref(alloc: Global, view: &LineView<'_>, marks: &mut Marks, answer: &mut Answer) {
    let name = name_of(view);
    marks.begin();
    let made = Xref::read(alloc, name);
    marks.end();
    match made {
        Ok(Some(xref)) => answer.say(xref.as_str()),
        Ok(None) => answer.say("no identifier"),
        Err(_) => say_memory(answer, None),
    }
}

fn call_copy_xref(alloc: Global, view: &LineView<'_>, marks: &mut Marks, answer: &mut Answer) {
    let Some(Some(xref)) = answer.given(Xref::read(alloc, name_of(view))) else {
        return answer.say("no identifier");
    };
    marks.begin();
    let made = xref.copy(alloc);
    marks.end();
    match made {
        Ok(copy) if copy == xref => answer.say(copy.as_str()),
        Ok(_) => answer.say("another identifier"),
        Err(_) => say_memory(answer, None),
    }
}

fn call_parse_line(alloc: Global, piece: &[u8], marks: &mut Marks, answer: &mut Answer) {
    marks.begin();
    let made = parse_line(alloc, piece);
    marks.end();
    match made {
        Ok(line) => {
            let done = write_line(&line, &mut answer.bytes);
            answer.note(done);
        }
        Err(ParseFault::Bad(_)) => answer.say("a fault"),
        Err(ParseFault::Memory(_)) => say_memory(answer, None),
    }
}

fn call_write_line(alloc: Global, piece: &[u8], marks: &mut Marks, answer: &mut Answer) {
    match parse_line(alloc, piece) {
        Ok(line) => write_one_line(alloc, &line, marks, answer),
        Err(ParseFault::Bad(_)) => answer.say("a fault"),
        Err(ParseFault::Memory(_)) => answer.lack_memory(),
    }
}

fn write_one_line(alloc: Global, line: &Line, marks: &mut Marks, answer: &mut Answer) {
    let Ok(mut out) = Vec::from_slice(alloc, KEPT) else {
        return answer.lack_memory();
    };
    marks.begin();
    let made = write_line(line, &mut out);
    marks.end();
    say_appended(answer, made, &out);
}

fn call_write_view(alloc: Global, view: &LineView<'_>, marks: &mut Marks, answer: &mut Answer) {
    let Ok(mut out) = Vec::from_slice(alloc, KEPT) else {
        return answer.lack_memory();
    };
    marks.begin();
    let made = write_view(view, &mut out);
    marks.end();
    say_appended(answer, made, &out);
}

/// Says what a call gave that appends to some bytes, which it must leave as they were where it finds no memory.
fn say_appended(answer: &mut Answer, made: Result<(), AllocError>, out: &[u8]) {
    if made.is_err() && out == KEPT {
        say_memory(answer, None);
    } else {
        answer.say_bytes(out);
    }
}

/// What stands in a vector before a call appends to it.
const KEPT: &[u8] = b"kept";
