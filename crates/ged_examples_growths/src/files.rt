// The calls that grow and are made on a whole file, or on the document of one.
ghost use Rattle.ged_link.specs.Indexes.{IsIndexOf};
ghost use Rattle.ged_schema.specs.Checked.{Checked};

use crate::calls::{
    say_made_bytes, say_made_document, say_made_fault, say_made_lines, say_made_notices, say_memory,
};
use crate::growths::Marks;
use ged_canon::{canonical_bytes_in, tidy_bytes_in};
use ged_document::{Document, ToDocument, canonical_in, document_of, to_lines, write_document};
use ged_examples_answers::Answer;
use ged_examples_whole::{LIMIT, say_outcome};
use ged_link::{Index, LinkFault, one_way, resolve};
use ged_schema::unlisted;
use ged_tool::{
    Accepted, Command, Comparison, Edition, Fault, Form, Input, Outcome, Output, SameFault,
    Settings, accept, accept_as, canonicalise_as, notices, run_as, run_same_as, same_as, same_by,
    show_text,
};
use ged_tree::{Flat, flatten};
use std::alloc::Global;

/// Makes a call that judges whole files; false where there is none of this name.
pub(crate) fn call_of_file(
    alloc: Global,
    settings: Settings,
    name: &str,
    file: &[u8],
    marks: &mut Marks,
    answer: &mut Answer,
) -> bool {
    match name {
        "accept" => call_accept(alloc, settings, file, marks, answer),
        "canonicalise" => call_canonicalise(alloc, settings, file, marks, answer),
        "same" => call_same(alloc, settings, Form::Canonical, file, marks, answer),
        "tidy_same" => call_same(alloc, settings, Form::Tidy, file, marks, answer),
        "run_lines" => call_run(alloc, settings, Command::Lines, file, marks, answer),
        "run_check" => call_run(alloc, settings, Command::Check, file, marks, answer),
        "run_show" => call_run(alloc, settings, Command::Show, file, marks, answer),
        "run_tidy" => call_run(alloc, settings, Command::Tidy, file, marks, answer),
        "run_canon" => call_run(alloc, settings, Command::Canon, file, marks, answer),
        "run_same" => call_run_same(alloc, settings, file, marks, answer),
        "resolve" => call_resolve(alloc, file, marks, answer),
        _ => return false,
    }
    true
}

/// Makes a call on an accepted file, its document or its index; false where there is none of this name.
pub(crate) fn call_of_accepted(
    alloc: Global,
    settings: Settings,
    name: &str,
    file: &[u8],
    marks: &mut Marks,
    answer: &mut Answer,
) -> bool {
    match accept(alloc, file) {
        Ok(accepted) => call_on_accepted(alloc, settings, name, &accepted, marks, answer),
        Err(fault) => {
            say_made_fault(answer, fault);
            true
        }
    }
}

fn call_on_accepted(
    alloc: Global,
    settings: Settings,
    name: &str,
    accepted: &Accepted<'_>,
    marks: &mut Marks,
    answer: &mut Answer,
) -> bool {
    call_of_table(alloc, name, accepted, marks, answer)
        || call_of_trees(alloc, settings, name, accepted, marks, answer)
}

/// Makes a call that is handed an accepted file; false where there is none of this name.
fn call_of_table(
    alloc: Global,
    name: &str,
    accepted: &Accepted<'_>,
    marks: &mut Marks,
    answer: &mut Answer,
) -> bool {
    match name {
        "Accepted::document" => {
            marks.begin();
            let made = accepted.document(alloc);
            marks.end();
            say_made_document(alloc, answer, made);
        }
        "notices" => {
            marks.begin();
            let made = notices(alloc, accepted);
            marks.end();
            say_made_notices(answer, made);
        }
        "show_text" => {
            marks.begin();
            let made = show_text(alloc, accepted);
            marks.end();
            say_made_bytes(answer, made);
        }
        _ => return false,
    }
    true
}

/// Makes a call that is handed a document, or a document and its index; false where there is none of this name.
fn call_of_trees(
    alloc: Global,
    settings: Settings,
    name: &str,
    accepted: &Accepted<'_>,
    marks: &mut Marks,
    answer: &mut Answer,
) -> bool {
    let (edition, index) = (settings.edition(), accepted.index());
    match accepted.document(alloc) {
        Ok(document) => {
            call_of_index(alloc, edition, name, &document, index, marks, answer)
                || call_of_document(alloc, name, &document, marks, answer)
        }
        Err(_) => {
            answer.lack_memory();
            true
        }
    }
}

/// Makes a call that is handed a document and its index; false where there is none of this name.
fn call_of_index(
    alloc: Global,
    edition: Edition,
    name: &str,
    document: &Document,
    index: &Index,
    marks: &mut Marks,
    answer: &mut Answer,
) -> bool
    requires index { IsIndexOf document.now index.now }
    requires checked { Checked document.now }
{
    match name {
        "canonical_in" => {
            marks.begin();
            let made = canonical_in(alloc, edition, document, index);
            marks.end();
            say_made_document(alloc, answer, made);
        }
        "canonical_bytes_in" => {
            marks.begin();
            let made = canonical_bytes_in(alloc, edition, document, index);
            marks.end();
            say_made_bytes(answer, made);
        }
        "tidy_bytes_in" => {
            marks.begin();
            let made = tidy_bytes_in(alloc, edition, document, index);
            marks.end();
            say_made_bytes(answer, made);
        }
        "one_way" => {
            marks.begin();
            let made = one_way(alloc, document, index);
            marks.end();
            say_made_notices(answer, made);
        }
        _ => return false,
    }
    true
}

/// Makes a call that is handed a document alone; false where there is none of this name.
fn call_of_document(
    alloc: Global,
    name: &str,
    document: &Document,
    marks: &mut Marks,
    answer: &mut Answer,
) -> bool {
    match name {
        "to_lines" => {
            marks.begin();
            let made = to_lines(alloc, document);
            marks.end();
            say_made_lines(alloc, answer, made);
        }
        "Document::copy" => {
            marks.begin();
            let made = document.copy(alloc);
            marks.end();
            say_made_document(alloc, answer, made);
        }
        "write_document" => {
            marks.begin();
            let made = write_document(alloc, document);
            marks.end();
            say_made_bytes(answer, made);
        }
        "unlisted" => {
            marks.begin();
            let made = unlisted(alloc, document);
            marks.end();
            say_made_notices(answer, made);
        }
        _ => return false,
    }
    true
}

/// The records of an index that have a name, each with its number and whether it is used.
fn say_index(answer: &mut Answer, document: &Document, index: &Index) {
    for record in document.records() {
        if let Some(xref) = &record.xref {
            let number = index.record_of(xref).unwrap_or(0);
            answer.say_number(number as u64);
            answer.say(" ");
            answer.say_truth(index.is_used(number));
            answer.say(";");
        }
    }
}

fn call_resolve(alloc: Global, file: &[u8], marks: &mut Marks, answer: &mut Answer) {
    match flatten(alloc, file) {
        Ok(flat) => resolve_table(alloc, &flat, marks, answer),
        Err(_) => answer.say("a fault"),
    }
}

fn resolve_table(alloc: Global, flat: &Flat<'_>, marks: &mut Marks, answer: &mut Answer) {
    marks.begin();
    let made = resolve(alloc, flat);
    marks.end();
    match made {
        Ok(index) => say_resolved(alloc, flat, &index, answer),
        Err(LinkFault::Memory(_)) => say_memory(answer, None),
        Err(_) => answer.say("a fault"),
    }
}

fn say_resolved(alloc: Global, flat: &Flat<'_>, index: &Index, answer: &mut Answer) {
    if let Some(document) = answer.given(document_of(alloc, flat)) {
        say_index(answer, &document, index);
    }
}

fn call_accept(
    alloc: Global,
    settings: Settings,
    file: &[u8],
    marks: &mut Marks,
    answer: &mut Answer,
) {
    marks.begin();
    let made = accept_as(alloc, settings, file);
    marks.end();
    match made {
        Ok(accepted) => say_made_document(alloc, answer, accepted.document(alloc)),
        Err(fault) => say_made_fault(answer, fault),
    }
}

fn call_canonicalise(
    alloc: Global,
    settings: Settings,
    file: &[u8],
    marks: &mut Marks,
    answer: &mut Answer,
) {
    marks.begin();
    let made = canonicalise_as(alloc, settings, file);
    marks.end();
    match made {
        Ok(bytes) => answer.say_bytes(&bytes),
        Err(fault) => say_made_fault(answer, fault),
    }
}

/// Another spelling of a file: without the end of its last line. A copy of the file would not be judged.
fn respelt(file: &[u8]) -> &[u8] {
    match file {
        [front @ .., b'\n'] => front,
        _ => file,
    }
}

/// Compares a file with another spelling of itself: as documents in the canonical form, by their forms in the tidy one.
fn call_same(
    alloc: Global,
    settings: Settings,
    form: Form,
    file: &[u8],
    marks: &mut Marks,
    answer: &mut Answer,
) {
    let other = respelt(file);
    marks.begin();
    let made = match form {
        Form::Canonical => same_as(alloc, settings, file, other),
        Form::Tidy => same_by(alloc, Comparison { settings, form }, file, other),
    };
    marks.end();
    match made {
        Ok(is_same) => answer.say_truth(is_same),
        Err(SameFault { which, fault }) => match fault {
            Fault::Memory(_) => say_memory(answer, Some(which)),
            _ => say_made_fault(answer, fault),
        },
    }
}

/// How many bytes a run can write.
pub(crate) const ROOM: usize = 4096;

/// Says what a run ended with, and wrote.
pub(crate) fn say_run(answer: &mut Answer, outcome: Outcome, written: &[u8]) {
    match outcome {
        Outcome::Failed {
            which,
            fault: Fault::Memory(_),
        } if written.is_empty() => say_memory(answer, which),
        _ => {
            say_outcome(answer, outcome);
            answer.say_bytes(written);
        }
    }
}

fn call_run(
    alloc: Global,
    settings: Settings,
    command: Command,
    file: &[u8],
    marks: &mut Marks,
    answer: &mut Answer,
) {
    let mut room = [0u8; ROOM];
    let mut left = room.as_mut_slice();
    let mut reader = Input::new(file);
    let mut writer = Output::new(&mut left);
    marks.begin();
    let outcome = run_as(alloc, settings, LIMIT, command, &mut reader, &mut writer);
    marks.end();
    let length = ROOM.saturating_sub(left.len());
    say_run(answer, outcome, room.get(..length).unwrap_or(b""));
}

/// Compares another spelling of a file with it by a run: the second begins as the first does, and goes on.
fn call_run_same(
    alloc: Global,
    settings: Settings,
    file: &[u8],
    marks: &mut Marks,
    answer: &mut Answer,
) {
    let mut room = [0u8; ROOM];
    let mut left = room.as_mut_slice();
    let (mut first, mut second) = (Input::new(respelt(file)), Input::new(file));
    let mut writer = Output::new(&mut left);
    marks.begin();
    let outcome = run_same_as(alloc, settings, LIMIT, &mut first, &mut second, &mut writer);
    marks.end();
    let length = ROOM.saturating_sub(left.len());
    say_run(answer, outcome, room.get(..length).unwrap_or(b""));
}
