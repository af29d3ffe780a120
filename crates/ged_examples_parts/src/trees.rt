// Calls of `ged_tree`, each under its name there.
use crate::forests::{say_bare_lines, say_forest, say_own_lines, say_steps};
use crate::made;
use crate::nodes::say_nodes;
use crate::parts::{line_fault_number, say_line_fault};
use crate::ways::say_each_way;
use ged_document::{Document, build, document_of, line_of, to_lines};
use ged_examples_answers::Answer;
use ged_line::{read_lines, split_pieces, view_line, write_line};
use ged_tree::{
    BuildFault, Flat, Forest, Judge, TreeFault, flatten, give_back, room_in_large_pages,
};
use std::alloc::{AllocError, Global};
use std::str;

/// Answers a call on an argument; false where this module has no call of this name.
pub(crate) fn answer(alloc: Global, call: &str, argument: &[u8], answer: &mut Answer) -> bool {
    match call {
        "flatten"
        | "document_of"
        | "own_line"
        | "bare_lines"
        | "next_in_run"
        | "size"
        | "document_of/size" => answer_of_table(alloc, call, argument, answer),
        "build" | "Document::copy" | "to_lines" | "Node::copy" => {
            answer_of_document(alloc, call, argument, answer);
        }
        "structures_by_each_way" => say_each_way(alloc, argument, answer),
        "Judge::line" => say_judgements(argument, answer),
        _ => return answer_of_other(alloc, call, argument, answer),
    }
    true
}

/// Calls whose names go on behind `::` or `/`.
fn answer_of_other(alloc: Global, call: &str, argument: &[u8], answer: &mut Answer) -> bool {
    if call.starts_with("line_of/") || call.starts_with("Document::of_file/") {
        answer_of_document(alloc, call, argument, answer);
        return true;
    }
    match str::from_utf8(argument) {
        Ok(text) if call == "room_in_large_pages" => say_room(text, answer),
        Ok(text) if call == "give_back" => say_given_back(alloc, text, answer),
        Ok(text) => return made::answer(alloc, call, text, answer),
        Err(_) => return false,
    }
    true
}

/// How many bytes to take room for, where so many are wanted as a text says.
fn say_room(text: &str, answer: &mut Answer) {
    match text.parse::<usize>() {
        Ok(bytes) => answer.say_number(room_in_large_pages(bytes) as u64),
        Err(_) => answer.say("no number"),
    }
}

/// How much room a vector of so many elements has that had room for twice as many, once it gave back what it did not fill.
fn say_given_back(alloc: Global, text: &str, answer: &mut Answer) {
    let count = text.parse::<usize>().unwrap_or(0);
    if let Some(mut filled) = answer.given(filled_half(alloc, count)) {
        give_back(&mut filled);
        answer.say("room for ");
        answer.say_number(filled.capacity() as u64);
    }
}

/// So many zeros, in room for twice as many.
fn filled_half(alloc: Global, count: usize) -> Result<Vec<u8>, AllocError> {
    let mut filled = Vec::with_capacity(alloc, count.saturating_mul(2))?;
    filled.resize(count, 0)?;
    Ok(filled)
}

/// The number of a fault, from 1 on in the order in which they are told.
fn tree_fault_number(fault: TreeFault) -> u64 {
    match fault {
        TreeFault::Line(fault) => line_fault_number(fault),
        TreeFault::LevelJump => 9,
        TreeFault::XrefNotAllowed => 10,
        TreeFault::MisplacedCont => 11,
        TreeFault::NoHeader => 12,
        TreeFault::SecondHeader => 13,
        TreeFault::TrailerNotEmpty => 14,
        TreeFault::AfterTrailer => 15,
        TreeFault::NoTrailer => 16,
    }
}

pub(crate) fn say_build_fault(answer: &mut Answer, fault: &BuildFault) {
    match fault {
        BuildFault::At(at) => answer.say_fault(tree_fault_number(at.fault), at.line),
        BuildFault::Memory(_) => answer.lack_memory(),
    }
}

/// Calls about a file's table.
fn answer_of_table(alloc: Global, call: &str, file: &[u8], answer: &mut Answer) {
    match flatten(alloc, file) {
        Ok(flat) => say_of_table(alloc, call, &flat, answer),
        Err(fault) => say_build_fault(answer, &fault),
    }
}

fn say_of_table(alloc: Global, call: &str, flat: &Flat<'_>, answer: &mut Answer) {
    match call {
        "flatten" => say_forest(flat, answer),
        "own_line" => say_own_lines(flat, answer),
        "bare_lines" => say_bare_lines(flat, answer),
        "next_in_run" => say_steps(flat, answer),
        "size" => answer.say_number(flat.size() as u64),
        _ => {
            if let Some(document) = answer.given(document_of(alloc, flat)) {
                say_of_document(alloc, call, &document, answer);
            }
        }
    }
}

/// Calls about the document of the lines that are read of a file.
fn answer_of_document(alloc: Global, call: &str, file: &[u8], answer: &mut Answer) {
    if let Some(lines) = answer.given(read_lines(alloc, file)) {
        match build(alloc, &lines) {
            Ok(document) => say_of_document(alloc, call, &document, answer),
            Err(fault) => say_build_fault(answer, &fault),
        }
    }
}

fn say_of_document(alloc: Global, call: &str, document: &Document, answer: &mut Answer) {
    match call {
        "build" | "document_of" => say_forest(document, answer),
        "Document::of_file/own_line" => say_own_lines(document, answer),
        "Document::of_file/next_in_run" => say_steps(document, answer),
        "Document::of_file/size" | "document_of/size" => answer.say_number(document.size() as u64),
        "Node::copy" => say_nodes(alloc, document, answer),
        "to_lines" => say_lines_of(alloc, document, answer),
        "Document::copy" => {
            if let Some(copy) = answer.given(document.copy(alloc)) {
                say_forest(&copy, answer);
            }
        }
        _ => match call.strip_prefix("line_of/") {
            Some(words) => say_line_of(alloc, words, document, answer),
            None => answer.say("no such call"),
        },
    }
}

/// The lines of a document, as they are written.
pub(crate) fn say_lines_of(alloc: Global, document: &Document, answer: &mut Answer) {
    if let Some(lines) = answer.given(to_lines(alloc, document)) {
        for line in &lines {
            let done = write_line(line, &mut answer.bytes);
            answer.note(done);
        }
    }
}

/// What a judge of a file's lines answers for each, and whether TRLR has come.
fn say_judgements(file: &[u8], answer: &mut Answer) {
    let mut judge = Judge::new();
    for piece in split_pieces(file) {
        match view_line(piece) {
            Ok(line) => match judge.line(&line) {
                Ok(()) => answer.say("Ok"),
                Err(fault) => {
                    answer.say("F ");
                    answer.say_number(tree_fault_number(fault));
                }
            },
            Err(fault) => say_line_fault(answer, fault),
        }
        answer.say(if judge.has_ended() { " ended\n" } else { "\n" });
    }
}

/// The line of the structure that a path of numbers leads to.
fn say_line_of(alloc: Global, words: &str, document: &Document, answer: &mut Answer) {
    let mut path = Vec::new(alloc);
    for word in words.split_terminator('/') {
        let Ok(number) = word.parse::<usize>() else {
            return answer.say("no path");
        };
        if path.push(number).is_err() {
            return answer.lack_memory();
        }
    }
    answer.say_optional(line_of(document, &path));
}
