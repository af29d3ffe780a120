// The calls that grow and make a whole answer to a file: that of a command, its tidy bytes, its digest.
use crate::calls::say_made_fault;
use crate::files::{ROOM, say_run};
use crate::growths::Marks;
use ged_examples_answers::Answer;
use ged_examples_whole::LIMIT;
use ged_tool::{
    Command, Fault, Input, Output, Settings, answer as answer_to, digest_as, run_digest, tidy_as,
};
use std::alloc::Global;

/// The name of the file on the line with its digest.
const NAME: &str = "tree.ged";

/// Makes a call that answers a file; false where there is none of this name.
pub(crate) fn call_of_answer(
    alloc: Global,
    settings: Settings,
    name: &str,
    file: &[u8],
    marks: &mut Marks,
    answer: &mut Answer,
) -> bool {
    match name {
        "answer_lines" => call_answer(alloc, settings, Command::Lines, file, marks, answer),
        "answer_check" => call_answer(alloc, settings, Command::Check, file, marks, answer),
        "answer_show" => call_answer(alloc, settings, Command::Show, file, marks, answer),
        "answer_canon" => call_answer(alloc, settings, Command::Canon, file, marks, answer),
        "answer_tidy" => call_answer(alloc, settings, Command::Tidy, file, marks, answer),
        "tidy" => call_tidy(alloc, settings, file, marks, answer),
        "digest" => call_digest(alloc, settings, file, marks, answer),
        "run_digest" => call_run_digest(alloc, settings, file, marks, answer),
        _ => return false,
    }
    true
}

/// Says what a call gave that answers a file.
fn say_answered(answer: &mut Answer, made: Result<Vec<u8>, Fault>) {
    match made {
        Ok(bytes) => answer.say_bytes(&bytes),
        Err(fault) => say_made_fault(answer, fault),
    }
}

fn call_answer(
    alloc: Global,
    settings: Settings,
    command: Command,
    file: &[u8],
    marks: &mut Marks,
    answer: &mut Answer,
) {
    marks.begin();
    let made = answer_to(alloc, settings, command, file);
    marks.end();
    say_answered(answer, made);
}

fn call_tidy(
    alloc: Global,
    settings: Settings,
    file: &[u8],
    marks: &mut Marks,
    answer: &mut Answer,
) {
    marks.begin();
    let made = tidy_as(alloc, settings, file);
    marks.end();
    say_answered(answer, made);
}

fn call_digest(
    alloc: Global,
    settings: Settings,
    file: &[u8],
    marks: &mut Marks,
    answer: &mut Answer,
) {
    marks.begin();
    let made = digest_as(alloc, settings, file);
    marks.end();
    match made {
        Ok(digest) => answer.say_bytes(&digest),
        Err(fault) => say_made_fault(answer, fault),
    }
}

/// Tells the digest of a file by a run.
fn call_run_digest(
    alloc: Global,
    settings: Settings,
    file: &[u8],
    marks: &mut Marks,
    answer: &mut Answer,
) {
    let mut room = [0u8; ROOM];
    let mut left = room.as_mut_slice();
    let mut reader = Input::new(file);
    let mut writer = Output::new(&mut left);
    marks.begin();
    let told = run_digest(alloc, settings, LIMIT, NAME, &mut reader, &mut writer);
    marks.end();
    let length = ROOM.saturating_sub(left.len());
    say_run(answer, told.outcome, room.get(..length).unwrap_or(b""));
}
