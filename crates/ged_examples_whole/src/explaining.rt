// Calls of `ged_explain`: what each fault means, and explanations of faults and notices.
use crate::agreement::say_fault;
use crate::whole::{KINDS, settings_of};
use ged_examples_answers::{Answer, Question};
use ged_explain::{
    Explainer, Meaning, explain_device, explain_fault, explain_notice, is_harmless, meaning_named,
    meaning_numbered, meaning_of, meanings, piece_at,
};
use ged_link::Notice;
use ged_tool::{Accepted, Fault, Settings, accept, accept_as, notices};
use std::alloc::{AllocError, Global};
use std::io::Write;
use std::str;

/// The name of the file in each explanation.
const NAME: &str = "tree.ged";

/// Answers a call on an argument; false where this module has no call of this name.
pub(crate) fn answer(alloc: Global, call: &str, argument: &[u8], answer: &mut Answer) -> bool {
    let (settings, name) = settings_of(call);
    let question = Question::of(name);
    match question.name {
        "explain_fault" => answer_fault(alloc, settings, argument, answer),
        "explain_notice" => answer_notice(alloc, argument, answer),
        "explain_device" => answer_device(alloc, question.word, argument, answer),
        "piece_at" => answer_piece(question.word, argument, answer),
        "is_harmless" => answer_harmless(argument, answer),
        _ => return answer_meaning(name, argument, answer),
    }
    true
}

/// Says what a call made that answers a text.
fn say_text(made: Result<String, AllocError>, answer: &mut Answer) {
    if let Some(text) = answer.given(made) {
        answer.say(text.as_str());
    }
}

/// Says one text after the other.
fn say_each(texts: &[&str], answer: &mut Answer) {
    for text in texts {
        answer.say(text);
    }
}

fn answer_fault(alloc: Global, settings: Settings, file: &[u8], answer: &mut Answer) {
    match accept_as(alloc, settings, file).err() {
        None => answer.say("accepted"),
        Some(fault) => say_text(explain_fault(alloc, file, &fault, NAME), answer),
    }
}

/// What is told of the first notice of a file.
fn answer_notice(alloc: Global, file: &[u8], answer: &mut Answer) {
    match accept(alloc, file) {
        Ok(accepted) => say_notices(alloc, file, &accepted, answer),
        Err(_) => answer.say("refused"),
    }
}

fn say_notices(alloc: Global, file: &[u8], accepted: &Accepted<'_>, answer: &mut Answer) {
    if let Some(all) = answer.given(notices(alloc, accepted)) {
        say_first(alloc, file, &all, answer);
        if !are_explained_alike(alloc, file, accepted, &all) {
            answer.say("and by an Explainer another text");
        }
    }
}

/// Whether one `Explainer` says the same of each notice as `explain_notice`, in the order of their lines and then backwards.
fn are_explained_alike(
    alloc: Global,
    file: &[u8],
    accepted: &Accepted<'_>,
    all: &[Notice],
) -> bool {
    let mut explainer = Explainer::new(file, accepted.flat(), accepted.index());
    let mut alike = true;
    for notice in all {
        let text = explainer.explain(alloc, notice, NAME);
        alike &= is_text_of(alloc, file, notice, text);
    }
    for notice in all.iter().rev() {
        let text = explainer.explain(alloc, notice, NAME);
        alike &= is_text_of(alloc, file, notice, text);
    }
    alike
}

/// Whether a text is what `explain_notice` says of a notice.
fn is_text_of(
    alloc: Global,
    file: &[u8],
    notice: &Notice,
    text: Result<String, AllocError>,
) -> bool {
    match (text, explain_notice(alloc, file, notice, NAME)) {
        (Ok(text), Ok(alone)) => text.as_str() == alone.as_str(),
        _ => false,
    }
}

/// What is told of the first of a file's notices.
fn say_first(alloc: Global, file: &[u8], all: &[Notice], answer: &mut Answer) {
    if let Some(first) = all.first() {
        say_text(explain_notice(alloc, file, first, NAME), answer);
    }
}

fn answer_device(alloc: Global, number: &str, reason: &[u8], answer: &mut Answer) {
    let reason = str::from_utf8(reason).unwrap_or("");
    match fault_numbered(number_of(number)) {
        Some(fault) => say_text(explain_device(alloc, &fault, NAME, reason), answer),
        None => answer.say("no fault"),
    }
}

fn answer_piece(number: &str, file: &[u8], answer: &mut Answer) {
    match piece_at(file, u64::from(number_of(number))) {
        Some(piece) => answer.say_bytes(piece),
        None => answer.say("None"),
    }
}

/// What is answered for each character of a text.
fn answer_harmless(text: &[u8], answer: &mut Answer) {
    for character in str::from_utf8(text).unwrap_or("").chars() {
        answer.say_truth(is_harmless(character));
    }
}

/// Calls about the table of what faults mean; false where there is none of this name.
fn answer_meaning(call: &str, argument: &[u8], answer: &mut Answer) -> bool {
    let text = str::from_utf8(argument).unwrap_or("");
    match call {
        "meanings" => say_meanings(answer),
        "meaning_numbered" => say_found(meaning_numbered(number_of(text)), answer),
        "meaning_named" => say_found(meaning_named(text), answer),
        "meaning_of" => answer_meaning_of(number_of(text), answer),
        _ => return false,
    }
    true
}

/// The number that a text tells, or 0 where it tells none up to 255.
fn number_of(text: &str) -> u8 {
    text.parse::<u8>().unwrap_or(0)
}

/// The fault with a number. What counts of a fault of the file is its kind.
fn fault_numbered(number: u8) -> Option<Fault> {
    for kind in KINDS {
        let fault = Fault::InFile { line: 1, kind };
        if fault.number() == number {
            return Some(fault);
        }
    }
    for fault in [
        Fault::TooLong,
        Fault::ReadFailed,
        Fault::WriteFailed,
        Fault::Memory(AllocError),
    ] {
        if fault.number() == number {
            return Some(fault);
        }
    }
    None
}

/// The numbers, names and titles of all faults.
fn say_meanings(answer: &mut Answer) {
    for meaning in meanings() {
        answer.say_number(u64::from(meaning.number));
        say_each(&[" ", meaning.name, ": ", meaning.title, "\n"], answer);
    }
}

/// Says all parts of what a fault means.
fn say_found(found: Option<&'static Meaning>, answer: &mut Answer) {
    match found {
        Some(meaning) => {
            say_named(meaning, answer);
            say_each(
                &[" title=", meaning.title, " cause=", meaning.cause],
                answer,
            );
            say_each(&[" example=", meaning.example], answer);
        }
        None => answer.say("None"),
    }
}

fn say_named(meaning: &Meaning, answer: &mut Answer) {
    answer.say("number=");
    answer.say_number(u64::from(meaning.number));
    say_each(&[" name=", meaning.name], answer);
}

/// How a fault is displayed, and the number and the name of what it means.
fn answer_meaning_of(number: u8, answer: &mut Answer) {
    match fault_numbered(number) {
        Some(fault) => {
            answer.say("displayed=");
            say_displayed(fault, answer);
            answer.say(" ");
            say_named(meaning_of(&fault), answer);
        }
        None => answer.say("no fault"),
    }
}

/// Says the name by which a fault of the file is displayed; of another one, which has no display, its name here.
fn say_displayed(fault: Fault, answer: &mut Answer) {
    match fault {
        Fault::InFile { line: _, kind } => {
            if write!(answer.bytes, "{kind}").is_err() {
                answer.lack_memory();
            }
        }
        _ => say_fault(answer, fault),
    }
}
