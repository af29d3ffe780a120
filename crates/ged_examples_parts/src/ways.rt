// Whether each way to a file's structures tells the same.
use crate::forests::say_forest;
use crate::trees::say_build_fault;
use ged_document::{Document, build, document_of, to_lines};
use ged_examples_answers::Answer;
use ged_line::{Lines, read_lines};
use ged_schema::LineWalk;
use ged_tree::{BuildFault, Flat, Forest, flatten, flatten_text_with};
use std::alloc::Global;
use std::str;

/// How many structures a file has or its fault, behind the name of each way that tells another answer.
pub(crate) fn say_each_way(alloc: Global, file: &[u8], answer: &mut Answer) {
    if let Some(lines) = answer.given(read_lines(alloc, file)) {
        match flatten(alloc, file) {
            Ok(flat) => say_of_accepted(alloc, file, &lines, &flat, answer),
            Err(fault) => say_of_refused(alloc, file, &lines, &fault, answer),
        }
    }
}

/// The fault of a file, behind the name of each other way that tells another answer.
fn say_of_refused(
    alloc: Global,
    file: &[u8],
    lines: &Lines,
    fault: &BuildFault,
    answer: &mut Answer,
) {
    let mut told = Answer::new(alloc);
    match build(alloc, lines) {
        Ok(_) => told.say("a document"),
        Err(other) => say_build_fault(&mut told, &other),
    }
    let mut wanted = Answer::new(alloc);
    say_build_fault(&mut wanted, fault);
    if told.differs(&wanted) {
        answer.say("build, ");
    }
    compare_as_text(alloc, file, &wanted, answer);
    answer.append(&wanted);
}

/// How many structures a table has, behind the name of each way that tells another document.
fn say_of_accepted(
    alloc: Global,
    file: &[u8],
    lines: &Lines,
    flat: &Flat<'_>,
    answer: &mut Answer,
) {
    let mut told = Answer::new(alloc);
    say_forest(flat, &mut told);
    compare_as_text(alloc, file, &told, answer);
    if let Some(copy) = answer.given(document_of(alloc, flat)) {
        compare(alloc, "document_of, ", &copy, &told, answer);
    }
    match build(alloc, lines) {
        Ok(document) => say_of_document(alloc, lines, &document, &told, answer),
        Err(BuildFault::At(_)) => answer.say("build, "),
        Err(BuildFault::Memory(_)) => answer.lack_memory(),
    }
    answer.say_number(flat.size() as u64);
    answer.say(" structures");
}

/// Names the ways by which a document does not tell what was told, and `to_lines` where it does not have the lines.
fn say_of_document(
    alloc: Global,
    lines: &Lines,
    document: &Document,
    told: &Answer,
    answer: &mut Answer,
) {
    compare(alloc, "build, ", document, told, answer);
    if let Some(copy) = answer.given(document.copy(alloc)) {
        compare(alloc, "Document::copy, ", &copy, told, answer);
    }
    if let Some(own) = answer.given(to_lines(alloc, document)) {
        if own.as_slice() != lines.lines.as_slice() {
            answer.say("to_lines, ");
        }
    }
}

/// Names a way by which a document does not tell what was told.
fn compare(alloc: Global, way: &str, document: &Document, told: &Answer, answer: &mut Answer) {
    let mut other = Answer::new(alloc);
    say_forest(document, &mut other);
    if other.differs(told) {
        answer.say(way);
    }
}

/// Names `flatten_text_with` where it does not tell of a file that is a text what `flatten` told.
fn compare_as_text(alloc: Global, file: &[u8], told: &Answer, answer: &mut Answer) {
    let Ok(text) = str::from_utf8(file) else {
        return;
    };
    let mut other = Answer::new(alloc);
    match flatten_text_with(alloc, text, &mut LineWalk::new()) {
        Ok(flat) => say_forest(&flat, &mut other),
        Err(fault) => say_build_fault(&mut other, &fault),
    }
    if other.differs(told) {
        answer.say("flatten_text_with, ");
    }
}
