// Runs over readers and writers that fail, stop short or never end.
//
// A device that fails here fails once, and would then go on: so a run that asks it once more is seen by the later calls
// and by what it then wrote.
use crate::agreement::{LIMIT, say_outcome};
use crate::fakes::{Endless, Failure, Full, Taker, make_giver, make_taker};
use crate::ranges::Ranges;
use ged_devices::{Noted, Reason};
use ged_examples_answers::{Answer, two_parts};
use ged_tool::{Command, Input, Outcome, Output, Sink, Source, canonicalise, run, run_same};
use std::alloc::Global;
use std::io::{Read, Write};

/// How many bytes a device gives or takes at a call, at most.
const STEPS: [usize; 3] = [1, 7, 100];

const COMMANDS: [Command; 4] = [
    Command::Lines,
    Command::Check,
    Command::Show,
    Command::Canon,
];

/// Answers a call on an argument; false where this module has no call of this name.
pub(crate) fn answer(alloc: Global, call: &str, argument: &[u8], answer: &mut Answer) -> bool {
    match call {
        "read_errors" => answer_read_errors(alloc, argument, answer),
        "write_errors" => answer_write_errors(alloc, argument, answer),
        "same_read_errors" => answer_same_read_errors(alloc, argument, answer),
        "same_write_errors" => answer_same_write_errors(alloc, argument, answer),
        "limits" => answer_limits(alloc, argument, answer),
        "same_limits" => answer_same_limits(alloc, argument, answer),
        "bytewise" => answer_bytewise(alloc, argument, answer),
        "endless" => answer_endless(alloc, argument, answer),
        "full_slice" => answer_full_slice(alloc, argument, answer),
        "flushes" => answer_flushes(alloc, answer),
        "noted" => answer_noted(alloc, answer),
        _ => return false,
    }
    true
}

/// Keeps the answer of the first of several loops, or says that another has one of its own.
fn keep_same(told: &Answer, answer: &mut Answer) {
    if answer.as_slice().is_empty() {
        answer.append(told);
    } else if told.differs(answer) {
        answer.say("and elsewhere ");
        answer.append(told);
    }
}

/// How a run ended, as the start of an answer.
fn told_outcome(alloc: Global, outcome: Outcome) -> Answer {
    let mut told = Answer::new(alloc);
    say_outcome(&mut told, outcome);
    told
}

fn say_named_truth(told: &mut Answer, name: &str, truth: bool) {
    told.say(name);
    told.say_truth(truth);
}

fn say_count(told: &mut Answer, count: u64, name: &str) {
    told.say(", ");
    told.say_number(count);
    told.say(name);
}

/// A run whose reader fails behind so many bytes.
fn tell_read_error(
    alloc: Global,
    command: Command,
    failure: Failure,
    most: usize,
    file: &[u8],
    length: usize,
) -> Answer {
    let mut giver = make_giver(file, length, most, Some(failure));
    let mut taker = make_taker(alloc, 0, 100, None);
    let mut reader = Input::new(&mut giver);
    let mut writer = Output::new(&mut taker);
    let outcome = run(alloc, LIMIT, command, &mut reader, &mut writer);
    let (failed, reads) = (reader.failed(), reader.reads());
    let is_told = failed && reads == giver.calls && !writer.failed();
    let mut told = told_outcome(alloc, outcome);
    say_named_truth(&mut told, ", told=", is_told);
    say_count(&mut told, giver.later, " later calls");
    say_count(&mut told, taker.calls, " writes");
    told
}

/// Runs of each command, of which the reader fails behind each front of the file.
fn answer_read_errors(alloc: Global, file: &[u8], answer: &mut Answer) {
    for command in COMMANDS {
        for failure in [Failure::Interrupted, Failure::Other] {
            for most in STEPS {
                keep_same(&read_errors(alloc, command, failure, most, file), answer);
            }
        }
    }
}

fn read_errors(
    alloc: Global,
    command: Command,
    failure: Failure,
    most: usize,
    file: &[u8],
) -> Answer {
    let mut ranges = Ranges::new(alloc);
    for length in 0..=file.len() {
        ranges.add(
            length,
            tell_read_error(alloc, command, failure, most, file, length),
        );
    }
    ranges.finish()
}

/// A run whose writer fails behind so many bytes.
fn tell_write_error(
    alloc: Global,
    failure: Failure,
    most: usize,
    file: &[u8],
    length: usize,
    wanted: &[u8],
) -> Answer {
    let mut giver = make_giver(file, 0, 100, None);
    let mut taker = make_taker(alloc, length, most, Some(failure));
    let mut reader = Input::new(&mut giver);
    let mut writer = Output::new(&mut taker);
    let outcome = run(alloc, LIMIT, Command::Canon, &mut reader, &mut writer);
    let is_told = writer.failed() && !reader.failed();
    let mut told = told_outcome(alloc, outcome);
    say_named_truth(&mut told, ", told=", is_told);
    say_taken(&mut told, &taker, wanted.get(..length));
    told
}

/// Says how often a writer was written to after it had failed, and whether it took what was wanted before.
fn say_taken(told: &mut Answer, taker: &Taker, wanted: Option<&[u8]>) {
    say_count(told, taker.later, " later calls");
    say_named_truth(told, ", front=", wanted == Some(taker.taken.as_slice()));
}

/// Runs of Canon, of which the writer fails behind each front of the answer, or takes none of some bytes.
fn answer_write_errors(alloc: Global, file: &[u8], answer: &mut Answer) {
    let Ok(wanted) = canonicalise(alloc, file) else {
        return answer.say("not accepted");
    };
    for failure in [Failure::Interrupted, Failure::Other, Failure::TakesNone] {
        for most in STEPS {
            keep_same(&write_errors(alloc, failure, most, file, &wanted), answer);
        }
    }
}

fn write_errors(
    alloc: Global,
    failure: Failure,
    most: usize,
    file: &[u8],
    wanted: &[u8],
) -> Answer {
    let mut ranges = Ranges::new(alloc);
    for length in 0..=wanted.len() {
        ranges.add(
            length,
            tell_write_error(alloc, failure, most, file, length, wanted),
        );
    }
    ranges.finish()
}

/// A comparison of a file with itself, of which readers fail behind so many bytes.
fn tell_same_read_error(
    alloc: Global,
    file: &[u8],
    length: usize,
    first: Option<Failure>,
    second: Option<Failure>,
) -> Answer {
    let mut one = make_giver(file, length, 7, first);
    let mut other = make_giver(file, length, 7, second);
    let mut taker = make_taker(alloc, 0, 100, None);
    let (mut left, mut right) = (Input::new(&mut one), Input::new(&mut other));
    let mut writer = Output::new(&mut taker);
    let outcome = run_same(alloc, LIMIT, &mut left, &mut right, &mut writer);
    let mut told = told_outcome(alloc, outcome);
    say_named_truth(&mut told, ", second read=", other.calls > 0);
    say_count(
        &mut told,
        one.later.saturating_add(other.later),
        " later calls",
    );
    say_count(&mut told, taker.calls, " writes");
    told
}

/// Comparisons of which the first reader fails, the second, or both.
fn answer_same_read_errors(alloc: Global, file: &[u8], answer: &mut Answer) {
    let failure = Some(Failure::Interrupted);
    for (first, second) in [(failure, None), (None, failure), (failure, failure)] {
        let mut ranges = Ranges::new(alloc);
        for length in 0..=file.len() {
            ranges.add(
                length,
                tell_same_read_error(alloc, file, length, first, second),
            );
        }
        answer.append(&ranges.finish());
    }
}

/// A comparison of two files, of which the writer fails behind each front of the line that is wanted.
fn tell_same_write_error(
    alloc: Global,
    failure: Failure,
    first: &[u8],
    second: &[u8],
    length: usize,
    line: &[u8],
) -> Answer {
    let mut taker = make_taker(alloc, length, 3, Some(failure));
    let (mut left, mut right) = (Input::new(first), Input::new(second));
    let mut writer = Output::new(&mut taker);
    let outcome = run_same(alloc, LIMIT, &mut left, &mut right, &mut writer);
    let mut told = told_outcome(alloc, outcome);
    say_taken(&mut told, &taker, line.get(..length));
    told
}

/// Comparisons of two files, of which the writer fails behind each front of the line.
fn answer_same_write_errors(alloc: Global, argument: &[u8], answer: &mut Answer) {
    let (first, second) = two_parts(argument);
    let line = if first == second {
        "same\n"
    } else {
        "different\n"
    };
    let line = line.as_bytes();
    for failure in [Failure::Interrupted, Failure::TakesNone] {
        let mut ranges = Ranges::new(alloc);
        for length in 0..=line.len() {
            ranges.add(
                length,
                tell_same_write_error(alloc, failure, first, second, length, line),
            );
        }
        keep_same(&ranges.finish(), answer);
    }
}

/// How a run ended, and what it wrote.
fn tell_written(alloc: Global, outcome: Outcome, written: &[u8]) -> Answer {
    let mut told = told_outcome(alloc, outcome);
    told.say(" ");
    told.say_bytes(written);
    told
}

/// Canon of a file under each limit up to 99.
fn answer_limits(alloc: Global, file: &[u8], answer: &mut Answer) {
    let mut ranges = Ranges::new(alloc);
    for limit in 0..100u64 {
        let mut written = Vec::new(alloc);
        let mut reader = Input::new(file);
        let mut writer = Output::new(&mut written);
        let outcome = run(alloc, limit, Command::Canon, &mut reader, &mut writer);
        ranges.add(limit as usize, tell_written(alloc, outcome, &written));
    }
    answer.append(&ranges.finish());
}

/// Comparisons of two files under each limit up to 99.
fn answer_same_limits(alloc: Global, argument: &[u8], answer: &mut Answer) {
    let (first, second) = two_parts(argument);
    let mut ranges = Ranges::new(alloc);
    for limit in 0..100u64 {
        let mut written = Vec::new(alloc);
        let (mut left, mut right) = (Input::new(first), Input::new(second));
        let mut writer = Output::new(&mut written);
        let outcome = run_same(alloc, limit, &mut left, &mut right, &mut writer);
        ranges.add(limit as usize, tell_written(alloc, outcome, &written));
    }
    answer.append(&ranges.finish());
}

/// Canon of a file that comes byte by byte, under the limit of its length, to a writer that takes byte by byte.
fn answer_bytewise(alloc: Global, file: &[u8], answer: &mut Answer) {
    let mut giver = make_giver(file, 0, 1, None);
    let mut taker = make_taker(alloc, 0, 1, None);
    let limit = (file.len() as u64).min(LIMIT);
    let mut reader = Input::new(&mut giver);
    let mut writer = Output::new(&mut taker);
    let outcome = run(alloc, limit, Command::Canon, &mut reader, &mut writer);
    say_outcome(answer, outcome);
    say_count(answer, giver.calls, " reads");
    say_count(answer, taker.calls, " writes: ");
    answer.say_bytes(&taker.taken);
}

/// A run whose reader never ends, under a limit that the argument tells.
fn answer_endless(alloc: Global, argument: &[u8], answer: &mut Answer) {
    let text = std::str::from_utf8(argument).unwrap_or("");
    let limit = text.parse::<u32>().unwrap_or(0);
    let limit = u64::from(limit).min(LIMIT);
    let mut endless = Endless { calls: 0 };
    let mut taker = make_taker(alloc, 0, 100, None);
    let mut reader = Input::new(&mut endless);
    let mut writer = Output::new(&mut taker);
    let outcome = run(alloc, limit, Command::Canon, &mut reader, &mut writer);
    say_outcome(answer, outcome);
    say_named_truth(
        answer,
        ", bounded=",
        endless.calls <= limit.saturating_add(1),
    );
    say_count(answer, taker.calls, " writes");
}

/// Canon into a slice of ten bytes, which takes none of some bytes once it is full.
fn answer_full_slice(alloc: Global, file: &[u8], answer: &mut Answer) {
    let mut room = [0u8; 10];
    let mut reader = Input::new(file);
    let mut writer = Output::new(room.as_mut_slice());
    let outcome = run(alloc, LIMIT, Command::Canon, &mut reader, &mut writer);
    say_outcome(answer, outcome);
    answer.say(" ");
    answer.say_bytes(room.as_slice());
}

/// Flushes an output over a device that can be flushed, and one over a device that can't.
fn answer_flushes(alloc: Global, answer: &mut Answer) {
    let mut taker = make_taker(alloc, 0, 100, None);
    say_flushed(answer, &mut taker);
    say_count(answer, taker.flushes, " flushes\n");
    let mut full = Full { flushes: 0 };
    say_flushed(answer, &mut full);
    say_count(answer, full.flushes, " flushes\n");
}

fn say_flushed<W: Write>(answer: &mut Answer, device: &mut W) {
    let reason = Reason::new();
    let mut output = Output::new(Noted::new(device, &reason));
    let is_flushed = output.flush().is_ok();
    say_named_truth(answer, "flushed=", is_flushed);
    say_named_truth(answer, ", failed=", output.failed());
    answer.say(", ");
    answer.say(reason.words());
}

/// A read and a write that fail once, and would then succeed, each asked twice.
fn answer_noted(alloc: Global, answer: &mut Answer) {
    let reason = Reason::new();
    let failure = Some(Failure::Other);
    let mut reader = Noted::new(make_giver(b"0 HEAD", 0, 100, failure), &reason);
    let mut room = [0u8; 8];
    for _ in 0..2 {
        say_named_truth(answer, "read=", reader.read(&mut room).is_ok());
        answer.say("\n");
    }
    let mut writer = Noted::new(make_taker(alloc, 0, 100, failure), &reason);
    for _ in 0..2 {
        say_named_truth(answer, "written=", writer.write(b"0 HEAD").is_ok());
        answer.say("\n");
    }
}
