// Whole calls on files, from bytes to bytes.
//
// A call may begin with `strict.`, with `second.` or with `strict.second.`, for the settings under which it is asked. What
// each call answers stands at the head of data/whole.rows.
use crate::agreement::{
    Answered, LIMIT, Ways, accept_ways, answered, are_plain, canon_ways, check_ways, say_fault,
    say_outcome, show_ways, tidy_ways,
};
use crate::by_trees::document_ways;
use crate::digests::digest_ways;
use crate::feeding::answer_pieces;
use crate::large;
use crate::ranges::Ranges;
use crate::respelling::lines_ways;
use ged_examples_answers::{Answer, two_parts};
use ged_tool::{
    Accepted, Comparison, Edition, Fault, FileFault, Form, Input, Outcome, Output, Profile,
    SameFault, Settings, Which, accept, run_same, run_same_as, run_same_told, same, same_as,
    same_by,
};
use std::alloc::{AllocError, Global};
use std::io::Write;

const SAME: &[u8] = b"same\n";

const DIFFERENT: &[u8] = b"different\n";

/// The settings that the name of a call begins with, and the rest of the name.
pub fn settings_of(call: &str) -> (Settings, &str) {
    let mut settings = Settings::new();
    let mut name = call;
    if let Some(rest) = name.strip_prefix("strict.") {
        settings = settings.strict();
        name = rest;
    }
    if let Some(rest) = name.strip_prefix("second.") {
        settings = settings.second();
        name = rest;
    }
    (settings, name)
}

/// Answers a call on an argument; false where this module has no call of this name.
pub(crate) fn answer(alloc: Global, call: &str, argument: &[u8], answer: &mut Answer) -> bool {
    let (settings, name) = settings_of(call);
    answer_by_ways(alloc, settings, name, argument, answer)
        || answer_other(alloc, settings, name, argument, answer)
        || large::answer(alloc, name, argument, answer)
}

/// Answers the calls on one file, each by every way.
fn answer_by_ways(
    alloc: Global,
    settings: Settings,
    name: &str,
    file: &[u8],
    answer: &mut Answer,
) -> bool {
    let ways = match name {
        "accept" => accept_ways(alloc, settings, file),
        "check" => check_ways(alloc, settings, file),
        "show" => show_ways(alloc, settings, file),
        "canon" => canon_ways(alloc, settings, file),
        "tidy" => tidy_ways(alloc, settings, file),
        "digest" => digest_ways(alloc, settings, file),
        "lines" => lines_ways(alloc, settings, file),
        "document" => document_ways(alloc, settings, file),
        _ => return false,
    };
    ways.say(answer);
    true
}

/// Answers the calls that are no call on one file.
fn answer_other(
    alloc: Global,
    settings: Settings,
    name: &str,
    argument: &[u8],
    answer: &mut Answer,
) -> bool {
    match name {
        "same" => answer_same(alloc, settings, argument, answer),
        "tidy_same" => answer_tidy_same(alloc, settings, argument, answer),
        "cuts" => answer_cuts(alloc, settings, argument, answer),
        "agreeing_cuts" => answer_agreeing_cuts(alloc, settings, argument, answer),
        "record_named" => answer_record(alloc, argument, answer),
        "pieces" => answer_pieces(alloc, argument, answer),
        "settings" => answer_settings(answer),
        "faults" => answer_faults(answer),
        "statuses" => answer_statuses(answer),
        _ => return false,
    }
    true
}

/// What a comparison is told as.
fn told_compared(alloc: Global, compared: Result<bool, SameFault>) -> Answered {
    let mut told = Answer::new(alloc);
    match compared {
        Ok(is_same) => told.say_truth(is_same),
        Err(SameFault { which, fault }) => {
            let which = Some(which);
            say_outcome(&mut told, Outcome::Failed { which, fault });
        }
    }
    answered(told)
}

/// What a run over two files is told as: its word where it wrote this word's line, or its fault where it wrote nothing.
fn told_outcome(alloc: Global, outcome: Outcome, written: &[u8]) -> Answered {
    let mut told = Answer::new(alloc);
    match outcome {
        Outcome::Done if written == SAME => told.say("true"),
        Outcome::Different if written == DIFFERENT => told.say("false"),
        Outcome::Failed { which: _, fault: _ } if written.is_empty() => {
            say_outcome(&mut told, outcome);
        }
        _ => told.say("an outcome with another text than its own"),
    }
    answered(told)
}

fn run_compared(alloc: Global, settings: Settings, first: &[u8], second: &[u8]) -> Answered {
    let mut written = Vec::new(alloc);
    let (mut left, mut right) = (Input::new(first), Input::new(second));
    let mut writer = Output::new(&mut written);
    let outcome = run_same_as(alloc, settings, LIMIT, &mut left, &mut right, &mut writer);
    told_outcome(alloc, outcome, &written)
}

fn run_compared_plainly(alloc: Global, first: &[u8], second: &[u8]) -> Answered {
    let mut written = Vec::new(alloc);
    let (mut left, mut right) = (Input::new(first), Input::new(second));
    let mut writer = Output::new(&mut written);
    let outcome = run_same(alloc, LIMIT, &mut left, &mut right, &mut writer);
    told_outcome(alloc, outcome, &written)
}

/// The answers of the calls that compare two files in any form.
fn compared_in_form(alloc: Global, comparison: Comparison, first: &[u8], second: &[u8]) -> Ways {
    let compared = same_by(alloc, comparison, first, second);
    let mut ways = Ways::of(told_compared(alloc, compared));
    let mut written = Vec::new(alloc);
    let (mut left, mut right) = (Input::new(first), Input::new(second));
    let mut writer = Output::new(&mut written);
    let told = run_same_told(alloc, comparison, LIMIT, &mut left, &mut right, &mut writer);
    ways.add("run_same_told", told_outcome(alloc, told.outcome, &written));
    ways
}

/// Whether two files are the same, by each call that compares them.
fn answer_same(alloc: Global, settings: Settings, argument: &[u8], answer: &mut Answer) {
    let (first, second) = two_parts(argument);
    let form = Form::Canonical;
    let mut ways = compared_in_form(alloc, Comparison { settings, form }, first, second);
    let compared = same_as(alloc, settings, first, second);
    ways.add("same_as", told_compared(alloc, compared));
    ways.add("run_same_as", run_compared(alloc, settings, first, second));
    if are_plain(settings) {
        ways.add("same", told_compared(alloc, same(alloc, first, second)));
        ways.add("run_same", run_compared_plainly(alloc, first, second));
    }
    ways.say(answer);
}

/// Whether two files are the same in the tidy form.
fn answer_tidy_same(alloc: Global, settings: Settings, argument: &[u8], answer: &mut Answer) {
    let (first, second) = two_parts(argument);
    let form = Form::Tidy;
    compared_in_form(alloc, Comparison { settings, form }, first, second).say(answer);
}

/// The verdict on each front of a file.
fn answer_cuts(alloc: Global, settings: Settings, file: &[u8], answer: &mut Answer) {
    let mut ranges = Ranges::new(alloc);
    for length in 0..=file.len() {
        let mut told = Answer::new(alloc);
        let front = file.get(..length).unwrap_or(file);
        accept_ways(alloc, settings, front).say(&mut told);
        ranges.add(length, told);
    }
    answer.append(&ranges.finish());
}

/// Whether all ways agree on each front of a file: the lengths at which they do.
fn answer_agreeing_cuts(alloc: Global, settings: Settings, file: &[u8], answer: &mut Answer) {
    let mut ranges = Ranges::new(alloc);
    for length in 0..=file.len() {
        let mut told = Answer::new(alloc);
        let front = file.get(..length).unwrap_or(file);
        accept_ways(alloc, settings, front).say_agreement(&mut told);
        ranges.add(length, told);
    }
    answer.append(&ranges.finish());
}

/// The number of the record of a name in a file, and whether a pointer names it.
fn answer_record(alloc: Global, argument: &[u8], answer: &mut Answer) {
    let (name, file) = two_parts(argument);
    let Ok(name) = std::str::from_utf8(name) else {
        return answer.say("the name is not text");
    };
    match accept(alloc, file) {
        Ok(accepted) => say_record(&accepted, name, answer),
        Err(fault) => say_fault(answer, fault),
    }
}

fn say_record(accepted: &Accepted<'_>, name: &str, answer: &mut Answer) {
    let index = accepted.index();
    let number = index.record_named(name);
    answer.say_optional(number.map(|number| number as u64));
    if let Some(number) = number {
        answer.say(" used=");
        answer.say_truth(index.is_used(number));
    }
}

fn say_settings(answer: &mut Answer, name: &str, settings: Settings) {
    answer.say(name);
    answer.say(match settings.profile() {
        Profile::Lenient => " lenient",
        Profile::Strict => " strict",
    });
    answer.say(match settings.edition() {
        Edition::First => " first\n",
        Edition::Second => " second\n",
    });
}

/// What settings choose.
fn answer_settings(answer: &mut Answer) {
    let new = Settings::new();
    say_settings(answer, "new:", new);
    say_settings(answer, "strict:", new.strict());
    say_settings(answer, "second:", new.second());
    say_settings(answer, "strict, second:", new.strict().second());
    say_settings(answer, "second, strict:", new.second().strict());
}

/// The faults of a file, by the order of their numbers.
pub(crate) const KINDS: [FileFault; 25] = [
    FileFault::NotUtf8,
    FileFault::BannedCharacter,
    FileFault::EmptyLine,
    FileFault::BadLevel,
    FileFault::LevelTooLarge,
    FileFault::BadXref,
    FileFault::BadTag,
    FileFault::BadValue,
    FileFault::LevelJump,
    FileFault::XrefNotAllowed,
    FileFault::MisplacedCont,
    FileFault::NoHeader,
    FileFault::SecondHeader,
    FileFault::TrailerNotEmpty,
    FileFault::AfterTrailer,
    FileFault::NoTrailer,
    FileFault::DuplicateXref,
    FileFault::DanglingPointer,
    FileFault::WrongVersion,
    FileFault::BadPayload,
    FileFault::WrongTarget,
    FileFault::TooMany,
    FileFault::Missing,
    FileFault::OneWayLink,
    FileFault::UnlistedTag,
];

/// The faults of a file by their numbers and names.
fn answer_faults(answer: &mut Answer) {
    for kind in KINDS {
        let number = Fault::InFile { line: 104, kind }.number();
        if writeln!(answer.bytes, "{number} {kind}").is_err() {
            answer.lack_memory();
        }
    }
}

fn say_status(answer: &mut Answer, which: Option<Which>, fault: Fault) {
    say_fault(answer, fault);
    answer.say(": ");
    answer.say_number(u64::from(fault.number()));
    answer.say(", ");
    answer.say_number(u64::from(Outcome::Failed { which, fault }.status()));
    answer.say("\n");
}

/// The numbers of faults and the statuses of the outcomes that have them.
fn answer_statuses(answer: &mut Answer) {
    answer.say("Done: ");
    answer.say_number(u64::from(Outcome::Done.status()));
    answer.say("\nDifferent: ");
    answer.say_number(u64::from(Outcome::Different.status()));
    answer.say("\n");
    for which in [None, Some(Which::First), Some(Which::Second)] {
        for kind in [FileFault::LevelTooLarge, FileFault::UnlistedTag] {
            say_status(answer, which, Fault::InFile { line: 104, kind });
        }
        for fault in [
            Fault::TooLong,
            Fault::ReadFailed,
            Fault::WriteFailed,
            Fault::Memory(AllocError),
        ] {
            say_status(answer, which, fault);
        }
    }
}
