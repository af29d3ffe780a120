// One answer by every way: what a call answers is compared with what the others that have the same answer give.
use crate::by_trees::{accept_by_parts, canon_by_trees};
use crate::feeding::is_fed;
use ged_document::{Document, ToDocument, write_document};
use ged_examples_answers::Answer;
use ged_link::{Notice, NoticeKind};
use ged_tool::{
    Accepted, Command, Fault, FileFault, Input, Outcome, Output, Settings, Which, accept,
    accept_as, canonicalise, canonicalise_as, notices, run, run_as, show_text, tidy, tidy_as,
};
use std::alloc::{AllocError, Global};

/// More bytes than any file here has.
pub const LIMIT: u64 = 1_073_741_824;

/// More bytes are not asked of the calls on trees, which find each structure by a walk from the first one on.
const MOST_IN_TREES: usize = 4096;

/// What a file is answered: bytes, or a fault.
pub type Answered = Result<Vec<u8>, Fault>;

/// The answers to one question by several ways.
#[derive(Drop)]
pub(crate) struct Ways {
    answered: Answered,
    differs: Option<&'static str>,
}

pub fn are_same(one: &Answered, other: &Answered) -> bool {
    match (one, other) {
        (Ok(one), Ok(other)) => one.as_slice() == other.as_slice(),
        (Err(one), Err(other)) => *one == *other,
        _ => false,
    }
}

impl Ways {
    pub(crate) fn of(answered: Answered) -> Ways {
        Ways {
            answered,
            differs: None,
        }
    }

    /// Compares what another way answers.
    pub(crate) fn add(&mut self, way: &'static str, answered: Answered) {
        if !are_same(&self.answered, &answered) {
            self.differs = Some(way);
        }
    }

    /// Says whether all ways have one answer.
    pub(crate) fn say_agreement(&self, answer: &mut Answer) {
        answer.say(self.differs.unwrap_or("agree"));
    }

    /// Says the one answer, or the name of a way that has another before it.
    pub(crate) fn say(&self, answer: &mut Answer) {
        if let Some(way) = self.differs {
            answer.say(way);
            answer.say(" differs from ");
        }
        match &self.answered {
            Ok(text) => answer.say_bytes(text),
            Err(fault) => say_fault(answer, *fault),
        }
    }
}

/// Says a fault: `F 5 at 6` for one of the file, else its name.
pub fn say_fault(answer: &mut Answer, fault: Fault) {
    match fault {
        Fault::InFile { line, kind: _ } => answer.say_fault(u64::from(fault.number()), line),
        Fault::TooLong => answer.say("TooLong"),
        Fault::ReadFailed => answer.say("ReadFailed"),
        Fault::WriteFailed => answer.say("WriteFailed"),
        Fault::Memory(_) => answer.say("Memory"),
    }
}

/// Says how a run ended: `Done`, `Different`, or the fault behind the file that it names.
pub fn say_outcome(answer: &mut Answer, outcome: Outcome) {
    match outcome {
        Outcome::Done => answer.say("Done"),
        Outcome::Different => answer.say("Different"),
        Outcome::Failed { which, fault } => {
            match which {
                None => {}
                Some(Which::First) => answer.say("first: "),
                Some(Which::Second) => answer.say("second: "),
            }
            say_fault(answer, fault);
        }
    }
}

/// Whether the settings are those of the calls that are handed none.
pub(crate) fn are_plain(settings: Settings) -> bool {
    settings == Settings::new()
}

/// The bytes of an answer, as what a way answers.
pub(crate) fn answered(answer: Answer) -> Answered {
    answer.into_bytes().map_err(Fault::Memory)
}

/// A word, as what a way answers.
pub(crate) fn answered_word(alloc: Global, word: &str) -> Answered {
    Vec::from_slice(alloc, word.as_bytes()).map_err(Fault::Memory)
}

/// What a run wrote, or its fault.
fn written_or_fault(alloc: Global, outcome: Outcome, written: Vec<u8>) -> Answered {
    match outcome {
        Outcome::Done => Ok(written),
        Outcome::Failed { which: None, fault } if written.is_empty() => Err(fault),
        _ => answered_word(
            alloc,
            "an outcome that is none of a run, or a text that was written in part",
        ),
    }
}

fn run_with(alloc: Global, settings: Settings, command: Command, file: &[u8]) -> Answered {
    let mut written = Vec::new(alloc);
    let mut reader = Input::new(file);
    let mut writer = Output::new(&mut written);
    let outcome = run_as(alloc, settings, LIMIT, command, &mut reader, &mut writer);
    written_or_fault(alloc, outcome, written)
}

fn run_plainly(alloc: Global, command: Command, file: &[u8]) -> Answered {
    let mut written = Vec::new(alloc);
    let mut reader = Input::new(file);
    let mut writer = Output::new(&mut written);
    let outcome = run(alloc, LIMIT, command, &mut reader, &mut writer);
    written_or_fault(alloc, outcome, written)
}

/// Adds what the runs of a command give.
pub(crate) fn add_runs(
    alloc: Global,
    settings: Settings,
    command: Command,
    file: &[u8],
    ways: &mut Ways,
) {
    ways.add("run_as", run_with(alloc, settings, command, file));
    if are_plain(settings) {
        ways.add("run", run_plainly(alloc, command, file));
    }
}

/// What is told of any answer where only acceptance is asked.
fn verdict<T: Drop>(alloc: Global, given: Result<T, Fault>) -> Answered {
    match given {
        Ok(_) => answered_word(alloc, "accepted"),
        Err(fault) => Err(fault),
    }
}

pub(crate) fn in_file(line: u64, kind: FileFault) -> Fault {
    Fault::InFile { line, kind }
}

/// The document of an accepted file as it is written, or the file's fault.
pub fn written(alloc: Global, accepted: Result<Accepted<'_>, Fault>) -> Answered {
    match accepted {
        Ok(accepted) => written_tree(alloc, accepted.document(alloc)),
        Err(fault) => Err(fault),
    }
}

fn written_tree(alloc: Global, document: Result<Document, AllocError>) -> Answered {
    match document {
        Ok(document) => write_document(alloc, &document).map_err(Fault::Memory),
        Err(error) => Err(Fault::Memory(error)),
    }
}

/// Whether a file is accepted, by each call that tells it.
pub(crate) fn accept_ways(alloc: Global, settings: Settings, file: &[u8]) -> Ways {
    let mut ways = Ways::of(verdict(alloc, accept_as(alloc, settings, file)));
    if are_plain(settings) {
        add_plain_verdicts(alloc, file, &mut ways);
    }
    if file.len() <= MOST_IN_TREES {
        let parts = accept_by_parts(alloc, settings.profile(), file);
        ways.add("the lower crates", verdict(alloc, parts));
    }
    add_verdicts(alloc, settings, file, &mut ways);
    add_fed(alloc, settings, file, &mut ways);
    ways
}

/// Adds the verdicts of the calls that are handed no settings.
fn add_plain_verdicts(alloc: Global, file: &[u8], ways: &mut Ways) {
    ways.add("accept", verdict(alloc, accept(alloc, file)));
    ways.add("canonicalise", verdict(alloc, canonicalise(alloc, file)));
}

/// Adds the verdicts of the calls that answer bytes, and of the runs of commands.
fn add_verdicts(alloc: Global, settings: Settings, file: &[u8], ways: &mut Ways) {
    let canonical = canonicalise_as(alloc, settings, file);
    ways.add("canonicalise_as", verdict(alloc, canonical));
    for command in [Command::Check, Command::Show, Command::Canon, Command::Tidy] {
        let answered = run_with(alloc, settings, command, file);
        ways.add("run_as", verdict(alloc, answered));
    }
}

/// Adds a way that differs where the file in pieces ends with another answer.
fn add_fed(alloc: Global, settings: Settings, file: &[u8], ways: &mut Ways) {
    let document = written(alloc, accept_as(alloc, settings, file));
    if !is_fed(alloc, settings, file, &document) {
        ways.add("the file in pieces", Err(Fault::Memory(AllocError)));
    }
}

/// The canonical bytes of a file, by each call that makes them; and canonicalising them once more gives them again.
pub(crate) fn canon_ways(alloc: Global, settings: Settings, file: &[u8]) -> Ways {
    let answered = canonicalise_as(alloc, settings, file);
    let again = match &answered {
        Ok(text) => canonicalise_as(alloc, settings, text),
        Err(fault) => Err(*fault),
    };
    let mut ways = Ways::of(answered);
    ways.add("the canonical form of the answer", again);
    if are_plain(settings) {
        ways.add("canonicalise", canonicalise(alloc, file));
    }
    if file.len() <= MOST_IN_TREES {
        ways.add("the way by trees", canon_by_trees(alloc, settings, file));
    }
    add_runs(alloc, settings, Command::Canon, file, &mut ways);
    ways
}

/// The tidy bytes of a file, by each call that makes them; and tidying them once more gives them again.
pub(crate) fn tidy_ways(alloc: Global, settings: Settings, file: &[u8]) -> Ways {
    let answered = tidy_as(alloc, settings, file);
    let again = match &answered {
        Ok(text) => tidy_as(alloc, settings, text),
        Err(fault) => Err(*fault),
    };
    let mut ways = Ways::of(answered);
    ways.add("the tidy form of the answer", again);
    if are_plain(settings) {
        ways.add("tidy", tidy(alloc, file));
    }
    add_runs(alloc, settings, Command::Tidy, file, &mut ways);
    ways
}

/// What Check is to write, from the notices.
fn check_by_notices(alloc: Global, settings: Settings, file: &[u8]) -> Answered {
    match accept_as(alloc, settings, file) {
        Ok(accepted) => told_notices(alloc, &accepted),
        Err(fault) => Err(fault),
    }
}

fn told_notices(alloc: Global, accepted: &Accepted<'_>) -> Answered {
    let mut text = Answer::new(alloc);
    if let Some(notices) = text.given(notices(alloc, accepted)) {
        say_notices(&mut text, &notices);
    }
    answered(text)
}

fn say_notices(text: &mut Answer, notices: &[Notice]) {
    for notice in notices {
        text.say("line ");
        text.say_number(notice.line);
        text.say(match notice.kind {
            NoticeKind::OneWay => ": one-way link\n",
            NoticeKind::Unlisted => ": unlisted tag\n",
        });
    }
    text.say("accepted\n");
}

/// What Check writes, by each call that tells notices.
pub(crate) fn check_ways(alloc: Global, settings: Settings, file: &[u8]) -> Ways {
    let mut ways = Ways::of(check_by_notices(alloc, settings, file));
    add_runs(alloc, settings, Command::Check, file, &mut ways);
    ways
}

/// What Show is to write, from the accepted file.
fn shown(alloc: Global, settings: Settings, file: &[u8]) -> Answered {
    match accept_as(alloc, settings, file) {
        Ok(accepted) => show_text(alloc, &accepted).map_err(Fault::Memory),
        Err(fault) => Err(fault),
    }
}

/// What Show writes, by each call that shows structures.
pub(crate) fn show_ways(alloc: Global, settings: Settings, file: &[u8]) -> Ways {
    let mut ways = Ways::of(shown(alloc, settings, file));
    add_runs(alloc, settings, Command::Show, file, &mut ways);
    ways
}
