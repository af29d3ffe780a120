// The calls that grow, each made once between two marks. What they are made of is taken before the first mark, and their
// answer is told behind the second: in some words that are the same for the same answer.
use crate::answers::call_of_answer;
use crate::explained::call_of_explained;
use crate::feeds::call_of_feed;
use crate::files::{call_of_accepted, call_of_file};
use crate::growths::Marks;
use crate::lines::call_of_line;
use crate::still::no_growth;
use ged_document::{Document, build, document_of, write_document};
use ged_examples_answers::Answer;
use ged_examples_whole::{say_fault, settings_of};
use ged_line::{Line, read_lines, write_lines};
use ged_link::Notice;
use ged_tool::{Fault, Which};
use ged_tree::{BuildFault, flatten};
use std::alloc::{AllocError, Global};
use std::io::Write;

/// The words for want of memory, where a call names none of two files, the first or the second; and as lines.
pub(crate) const MEMORY_WORDS: [(&str, &str); 3] = [
    ("memory", "memory\n"),
    ("memory first", "memory first\n"),
    ("memory second", "memory second\n"),
];

/// Says that a call found no memory, and for which file, where it names one of two.
pub(crate) fn say_memory(answer: &mut Answer, which: Option<Which>) {
    answer.say(match which {
        None => "memory",
        Some(Which::First) => "memory first",
        Some(Which::Second) => "memory second",
    });
}

/// Whether a call is made on each line of a file, and not on the file.
pub(crate) fn is_of_lines(call: &str) -> bool {
    [
        "Tag::read",
        "Tag::copy",
        "Xref::read",
        "Xref::copy",
        "parse_line",
        "write_line",
        "write_view",
    ]
    .contains(&call)
}

/// Makes a call, whose name may begin with words for settings, on a file or a line of one; false where there is no call of
/// this name.
pub(crate) fn make_call(
    alloc: Global,
    call: &str,
    bytes: &[u8],
    marks: &mut Marks,
    answer: &mut Answer,
) -> bool {
    let (settings, name) = settings_of(call);
    if is_of_lines(name) {
        call_of_line(alloc, name, bytes, marks, answer);
        return true;
    }
    if name == "no_growth" {
        no_growth(alloc, bytes, marks, answer);
        return true;
    }
    call_of_bytes(alloc, name, bytes, marks, answer)
        || call_of_explained(alloc, name, bytes, marks, answer)
        || call_of_file(alloc, settings, name, bytes, marks, answer)
        || call_of_answer(alloc, settings, name, bytes, marks, answer)
        || call_of_feed(alloc, settings, name, bytes, marks, answer)
        || call_of_accepted(alloc, settings, name, bytes, marks, answer)
}

/// Says what a call gave that answers bytes.
pub(crate) fn say_made_bytes(answer: &mut Answer, made: Result<Vec<u8>, AllocError>) {
    match made {
        Ok(bytes) => answer.say_bytes(&bytes),
        Err(_) => say_memory(answer, None),
    }
}

fn say_document(alloc: Global, answer: &mut Answer, document: &Document) {
    if let Some(bytes) = answer.given(write_document(alloc, document)) {
        answer.say_bytes(&bytes);
    }
}

/// Says what a call gave that answers a document.
pub(crate) fn say_made_document(
    alloc: Global,
    answer: &mut Answer,
    made: Result<Document, AllocError>,
) {
    match made {
        Ok(document) => say_document(alloc, answer, &document),
        Err(_) => say_memory(answer, None),
    }
}

fn say_lines(alloc: Global, answer: &mut Answer, lines: &[Line]) {
    if let Some(bytes) = answer.given(write_lines(alloc, lines)) {
        answer.say_bytes(&bytes);
    }
}

/// Says what a call gave that answers lines.
pub(crate) fn say_made_lines(
    alloc: Global,
    answer: &mut Answer,
    made: Result<Vec<Line>, AllocError>,
) {
    match made {
        Ok(lines) => say_lines(alloc, answer, &lines),
        Err(_) => say_memory(answer, None),
    }
}

fn say_notices(answer: &mut Answer, notices: &[Notice]) {
    for notice in notices {
        let (line, kind) = (notice.line, notice.kind);
        if write!(answer.bytes, "{line} {kind:?};").is_err() {
            answer.lack_memory();
        }
    }
}

/// Says what a call gave that answers notices.
pub(crate) fn say_made_notices(answer: &mut Answer, made: Result<Vec<Notice>, AllocError>) {
    match made {
        Ok(notices) => say_notices(answer, &notices),
        Err(_) => say_memory(answer, None),
    }
}

/// Says a fault that a call answered.
pub(crate) fn say_made_fault(answer: &mut Answer, fault: Fault) {
    match fault {
        Fault::Memory(_) => say_memory(answer, None),
        _ => say_fault(answer, fault),
    }
}

/// Says a fault of the file's structure that a call answered.
fn say_made_built(answer: &mut Answer, fault: &BuildFault) {
    match fault {
        BuildFault::At(_) => answer.say("a fault"),
        BuildFault::Memory(_) => say_memory(answer, None),
    }
}

/// Makes a call that reads or writes lines or structures; false where there is none of this name.
fn call_of_bytes(
    alloc: Global,
    name: &str,
    file: &[u8],
    marks: &mut Marks,
    answer: &mut Answer,
) -> bool {
    match name {
        "read_lines" => call_read_lines(alloc, file, marks, answer),
        "write_lines" => call_write_lines(alloc, file, marks, answer),
        "build" => call_build(alloc, file, marks, answer),
        "flatten" => call_flatten(alloc, file, marks, answer),
        _ => return false,
    }
    true
}

fn call_read_lines(alloc: Global, file: &[u8], marks: &mut Marks, answer: &mut Answer) {
    marks.begin();
    let made = read_lines(alloc, file);
    marks.end();
    match made {
        Ok(read) => match read.stop {
            None => say_lines(alloc, answer, &read.lines),
            Some(_) => answer.say("a fault"),
        },
        Err(_) => say_memory(answer, None),
    }
}

fn call_write_lines(alloc: Global, file: &[u8], marks: &mut Marks, answer: &mut Answer) {
    if let Some(read) = answer.given(read_lines(alloc, file)) {
        marks.begin();
        let made = write_lines(alloc, &read.lines);
        marks.end();
        say_made_bytes(answer, made);
    }
}

fn call_build(alloc: Global, file: &[u8], marks: &mut Marks, answer: &mut Answer) {
    if let Some(read) = answer.given(read_lines(alloc, file)) {
        marks.begin();
        let made = build(alloc, &read);
        marks.end();
        match made {
            Ok(document) => say_document(alloc, answer, &document),
            Err(fault) => say_made_built(answer, &fault),
        }
    }
}

fn call_flatten(alloc: Global, file: &[u8], marks: &mut Marks, answer: &mut Answer) {
    marks.begin();
    let made = flatten(alloc, file);
    marks.end();
    match made {
        Ok(flat) => {
            if let Some(document) = answer.given(document_of(alloc, &flat)) {
                say_document(alloc, answer, &document);
            }
        }
        Err(fault) => say_made_built(answer, &fault),
    }
}
