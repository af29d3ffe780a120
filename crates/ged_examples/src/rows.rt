// Rows of data, each of which says what a call answers about a file or an argument.
use crate::escapes::{escape, unescape};
use ged_examples_answers::Answer;
use std::alloc::Global;

/// How many rows were asked, how many were answered otherwise, and what tells each of these.
#[derive(Drop)]
pub(crate) struct Tally {
    rows: u64,
    failed: u64,
    report: Answer,
}

impl Tally {
    pub(crate) fn new(alloc: Global) -> Tally {
        Tally {
            rows: 0,
            failed: 0,
            report: Answer::new(alloc),
        }
    }

    pub(crate) fn has_failed(&self) -> bool {
        self.failed > 0
    }

    /// What tells each row that was answered otherwise, and the numbers behind.
    pub(crate) fn into_report(mut self) -> Answer {
        self.report.say_number(self.rows);
        self.report.say(" rows, ");
        self.report.say_number(self.failed);
        self.report.say(" failed\n");
        self.report
    }

    /// Takes in what is wrong with a line of a file: nothing where nothing is said.
    fn take(&mut self, name: &str, number: u64, failure: &Answer) {
        if failure.as_slice().is_empty() && !failure.lacks_memory() {
            return;
        }
        self.failed = self.failed.saturating_add(1);
        self.report.say("FAILED ");
        self.report.say(name);
        self.report.say(":");
        self.report.say_number(number);
        self.report.say(": ");
        self.report.append(failure);
        self.report.say("\n");
    }
}

/// A row that asks a call.
#[derive(Clone, Copy)]
struct Row<'a> {
    call: &'a str,
    /// What the call is asked about, if not about the current file.
    argument: Option<&'a str>,
    wanted: &'a str,
}

/// The row of a line, or `None` where the line has no arrow.
fn read_row(line: &str) -> Option<Row<'_>> {
    let (question, wanted) = match line.split_once(" => ") {
        Some(parts) => parts,
        None => (line.strip_suffix(" =>")?, ""),
    };
    let (call, argument) = match question.split_once(' ') {
        Some((call, argument)) => (call, Some(argument)),
        None => (question, None),
    };
    Some(Row {
        call,
        argument,
        wanted,
    })
}

/// Answers a call on an argument; false where no library has a call of this name.
fn answer_call(alloc: Global, call: &str, argument: &[u8], answer: &mut Answer) -> bool {
    ged_examples_parts::answer_call(alloc, call, argument, answer)
        || ged_examples_whole::answer_call(alloc, call, argument, answer)
}

/// Asks a row's call, and says what is wrong with its texts, its name or its answer.
fn ask(alloc: Global, row: Row<'_>, file: &[u8], failure: &mut Answer) {
    let mut wanted = Answer::new(alloc);
    let mut own = Answer::new(alloc);
    let is_read = unescape(alloc, row.wanted, &mut wanted)
        && unescape(alloc, row.argument.unwrap_or(""), &mut own);
    let about = match row.argument {
        Some(_) => own.as_slice(),
        None => file,
    };
    let mut got = Answer::new(alloc);
    if !is_read || !answer_call(alloc, row.call, about, &mut got) {
        failure.say(row.call);
        failure.say(": no such call, or an unknown escape");
    } else if wanted.lacks_memory() || own.lacks_memory() {
        failure.lack_memory();
    } else {
        compare(row.call, wanted.as_slice(), got.told(), failure);
    }
}

/// Says what was wanted and what was got, where they differ.
fn compare(call: &str, wanted: &[u8], got: &[u8], failure: &mut Answer) {
    if wanted != got {
        failure.say(call);
        failure.say(": wanted ");
        escape(wanted, failure);
        failure.say(", got ");
        escape(got, failure);
    }
}

/// Asks the row of a line, and says what is wrong with it.
fn ask_line(alloc: Global, line: &str, file: &[u8], failure: &mut Answer) {
    match read_row(line) {
        Some(row) => ask(alloc, row, file, failure),
        None => {
            failure.say("no row: ");
            failure.say(line);
        }
    }
}

/// The file of a line that sets one: what stands behind the word `file` and a space.
fn file_of(line: &str) -> Option<&str> {
    if line == "file" {
        return Some("");
    }
    line.strip_prefix("file ")
}

/// Reads a file of a row, and says what is wrong with it.
fn read_file(alloc: Global, escaped: &str, failure: &mut Answer) -> Answer {
    let mut file = Answer::new(alloc);
    if !unescape(alloc, escaped, &mut file) {
        failure.say("an unknown escape");
    }
    if file.lacks_memory() {
        failure.lack_memory();
    }
    file
}

/// Asks all rows of a text, tells those that are answered otherwise, and counts them.
pub(crate) fn ask_rows(alloc: Global, name: &str, text: &str, tally: &mut Tally) {
    let mut file = Answer::new(alloc);
    let mut number = 0u64;
    for line in text.lines() {
        number = number.saturating_add(1);
        let mut failure = Answer::new(alloc);
        if let Some(escaped) = file_of(line) {
            file = read_file(alloc, escaped, &mut failure);
        } else if !line.is_empty() && !line.starts_with('#') {
            ask_line(alloc, line, file.as_slice(), &mut failure);
            tally.rows = tally.rows.saturating_add(1);
        }
        tally.take(name, number, &failure);
    }
}
