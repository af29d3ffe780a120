// Calls about a file that any forest answers: they are asked of its flat table and of its document.
use crate::{canon, links, tables};
use ged_document::{Document, build};
use ged_examples_answers::{Answer, Question};
use ged_line::read_lines;
use ged_tree::{BuildFault, Forest, flatten};
use std::alloc::{AllocError, Global};

/// Answers a call on an argument; false where this module has no call of this name. The table's answer stands for both
/// where the document's is the same.
pub(crate) fn answer(alloc: Global, call: &str, argument: &[u8], answer: &mut Answer) -> bool {
    let question = Question::of(call);
    if !is_about_forests(question.name) {
        return false;
    }
    say_of_table(alloc, question, argument, answer);
    if !links::is_about_tables(question.name) {
        let mut told = Answer::new(alloc);
        say_of_tree(alloc, question, argument, &mut told);
        if told.differs(answer) {
            answer.say(" by the table, by the document ");
            answer.append(&told);
        }
    }
    if is_told_by_lines(question.name) {
        let mut told = Answer::new(alloc);
        say_by_lines(alloc, question, argument, &mut told);
        if told.differs(answer) {
            answer.say(" by the lines ");
            answer.append(&told);
        }
    }
    true
}

fn is_about_forests(name: &str) -> bool {
    links::has_call(name) || tables::has_call(name) || canon::has_call(name)
}

/// Whether what reads the lines of a file has an answer to a call, too.
fn is_told_by_lines(name: &str) -> bool {
    name == "check_tables" || links::has_call(name)
}

fn say_by_lines(alloc: Global, question: Question<'_>, file: &[u8], told: &mut Answer) {
    if links::has_call(question.name) {
        links::tell_listed(alloc, question, file, told)
    } else {
        tables::tell_walked(alloc, question, file, told)
    }
}

fn say_of_table(alloc: Global, question: Question<'_>, file: &[u8], told: &mut Answer) {
    if question.name == "check_walked" {
        tables::tell_walked(alloc, question, file, told);
        return;
    }
    match flatten(alloc, file) {
        Ok(flat) => tell(alloc, question, &flat, told),
        Err(BuildFault::At(_)) => told.say("no document"),
        Err(BuildFault::Memory(_)) => told.lack_memory(),
    }
}

fn say_of_tree(alloc: Global, question: Question<'_>, file: &[u8], told: &mut Answer) {
    match document_of_file(alloc, file) {
        Ok(Some(document)) => tell(alloc, question, &document, told),
        Ok(None) => told.say("no document"),
        Err(_) => told.lack_memory(),
    }
}

/// The document of a file's lines, or `None` where the file has a fault of lines or structure. Grows.
pub(crate) fn document_of_file(alloc: Global, file: &[u8]) -> Result<Option<Document>, AllocError> {
    let lines = read_lines(alloc, file)?;
    match build(alloc, &lines) {
        Ok(document) => Ok(Some(document)),
        Err(BuildFault::At(_)) => Ok(None),
        Err(BuildFault::Memory(error)) => Err(error),
    }
}

fn tell<F: Forest>(alloc: Global, question: Question<'_>, forest: &F, told: &mut Answer) {
    if links::has_call(question.name) {
        links::tell(alloc, question, forest, told)
    } else if tables::has_call(question.name) {
        tables::tell(alloc, question, forest, told)
    } else {
        canon::tell(alloc, question, forest, told)
    }
}
