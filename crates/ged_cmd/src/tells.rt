// What standard error and the program's status tell.
ghost use Rattle.std.specs.Prelude.{◌≡◌, ◌≢◌, ◌++◌, [], None, Some, codes, false, IfSome, OnOk, if◌then◌else◌};
ghost use Rattle.std.specs.Io.KnownBytes.{Appends, Keeps};
ghost use Rattle.clap.specs.Words.{kind_of};
ghost use Rattle.ged_devices.specs.Devices.{failed_after};
ghost use Rattle.ged_faults.specs.Faults.{status_of};
ghost use Rattle.ged_cmd.specs.Program.{IsUnwritten, refusal_status};
ghost use Rattle.ged_cmd.specs.Streams.{writer as writer_of};
ghost use Rattle.ged_cmd.specs.Telling.{fault_line, told_of, which_head};
ghost use Rattle.ged_cmd.specs.inner.Names.{shown_text};
ghost use Rattle.ged_cmd.specs.inner.Told.{Wrote};

use crate::commands::failed;
use crate::names::{ShownLines, ShownName};
use crate::wanted::Mistake;
use arrayvec::ArrayString;
use clap::Error;
use clap::error::ErrorKind;
use ged_devices::{Failed, Output, Sink};
use ged_explain::meaning_of;
use ged_tool::{Fault, Outcome, Which};
use std::alloc::AllocError;
use std::fmt::{Display, Formatter, Write as _};
use std::io::Write;
use std::{fmt, io};

/// The status for a mistake in the words of the command line.
const USAGE_STATUS: u8 = 2;

/// What is told where both files of `same` would be standard input, in clap's form.
const TWO_INPUTS: &str = "error: only one of <A> and [B] can be standard input

Usage: gedtool same [OPTIONS] <A> [B]

For more information, try '--help'.
";

/// What is told where two files of `digest` would be standard input, in clap's form.
const INPUT_TWICE: &str = "error: only one <FILE> can be standard input

Usage: gedtool digest [OPTIONS] <FILE>...

For more information, try '--help'.
";

/// What is told behind the word of `explain` where it is of no fault, in clap's form.
const NO_FAULT: &str = "

  tip: 'gedtool explain' lists all faults; a name is written as in 'TooMany'

Usage: gedtool explain [FAULT]

For more information, try '--help'.
";

/// More bytes than any line that tells a fault has.
const LINE_ROOM: usize = 80;

/// More bytes than such a line has with the name of its file, where that is the longest by which the system opens one, 4,095 bytes, and
/// each of its characters is shown as it is.
const NAMED_LINE_ROOM: usize = 4_200;

/// Tells the outcome's fault, if it has one, and gives the outcome's status.
pub(crate) fn finish<E: Write>(outcome: &Outcome, errors: &mut Output<E>) -> u8
    ensures status { result ≡ status_of outcome.now }
    ensures told { Wrote (⟦<Output<E> as Sink>⟧.failed errors.old)
        (writer_of ⟦<Output<E> as Sink>⟧.taken ⟦<Output<E> as Sink>⟧.failed errors.old errors.new) (told_of outcome.now) }
    ensures quiet { result ≡ 0 → Keeps (⟦<Output<E> as Sink>⟧.taken errors.old) (⟦<Output<E> as Sink>⟧.taken errors.new) }
    ensures different { outcome.now ≡ Outcome.Different
        → Keeps (⟦<Output<E> as Sink>⟧.taken errors.old) (⟦<Output<E> as Sink>⟧.taken errors.new) }
{
    if let Outcome::Failed { which, fault } = outcome {
        tell(*which, fault, errors);
    }
    outcome.status()
}

/// The line that tells a fault.
#[derive(Clone, Copy)]
struct FaultLine<'a> {
    which: Option<Which>,
    fault: &'a Fault,
}

/// How the line of a fault of one of two files begins.
fn head_of(which: Option<Which>) -> &'static str
    ensures { result.now ≡ which_head which }
{
    match which {
        None => "",
        Some(Which::First) => "first file: ",
        Some(Which::Second) => "second file: ",
    }
}

impl Display for FaultLine<'_> {
    ghost output = { λ l. Some (fault_line l.which l.fault.now) };

    fn fmt<W: fmt::Write>(&self, f: &mut Formatter<W>) -> fmt::Result {
        let head = head_of(self.which);
        let number = self.fault.number();
        let name = meaning_of(self.fault).name;
        match self.fault {
            Fault::InFile { line, kind: _ } => {
                writeln!(f, "{head}fault {number} at line {line}: {name}")
            }
            _ => writeln!(f, "{head}fault {number}: {name}"),
        }
    }
}

/// The line that tells a fault after a name.
#[derive(Clone, Copy)]
struct NamedFaultLine<'a> {
    name: ShownName<'a>,
    line: FaultLine<'a>,
}

impl Display for NamedFaultLine<'_> {
    ghost output = { λ l. Some (shown_text l.name.name.now ++ (codes ": " ++ fault_line l.line.which l.line.fault.now)) };

    fn fmt<W: fmt::Write>(&self, f: &mut Formatter<W>) -> fmt::Result {
        write!(f, "{}: {}", self.name, self.line)
    }
}

/// Writes the line that tells a fault, by one write where the writer takes it whole. It takes no
/// memory.
pub(crate) fn tell<E: Write>(which: Option<Which>, fault: &Fault, errors: &mut Output<E>)
    ensures { Wrote (⟦<Output<E> as Sink>⟧.failed errors.old)
        (writer_of ⟦<Output<E> as Sink>⟧.taken ⟦<Output<E> as Sink>⟧.failed errors.old errors.new) (fault_line which fault.now) }
{
    let room = ArrayString::<LINE_ROOM>::new();
    write_at_once(&FaultLine { which, fault }, room, errors);
}

/// Writes the line that tells a fault after a name, by one write where the writer takes it whole and the name, as it is shown, is
/// no longer than one of the system's. It takes no memory.
pub(crate) fn tell_named<E: Write>(name: &str, fault: &Fault, errors: &mut Output<E>)
    ensures { Wrote (⟦<Output<E> as Sink>⟧.failed errors.old)
        (writer_of ⟦<Output<E> as Sink>⟧.taken ⟦<Output<E> as Sink>⟧.failed errors.old errors.new)
        (shown_text name.now ++ (codes ": " ++ fault_line None fault.now)) }
{
    let room = ArrayString::<NAMED_LINE_ROOM>::new();
    let named = NamedFaultLine {
        name: ShownName::new(name),
        line: FaultLine { which: None, fault },
    };
    write_at_once(&named, room, errors);
}

/// Writes a text, by one write where the writer takes it whole and the room on the stack holds it. One that can't be written changes
/// no status.
fn write_at_once<const ROOM: usize, D: Display, E: Write>(
    text: &D,
    mut room: ArrayString<ROOM>,
    errors: &mut Output<E>,
)
    requires { room.bytes ≡ [] }
    ensures { IfSome (D.output text.now) (Wrote (⟦<Output<E> as Sink>⟧.failed errors.old)
        (writer_of ⟦<Output<E> as Sink>⟧.taken ⟦<Output<E> as Sink>⟧.failed errors.old errors.new)) }
{
    let _ = match write!(room, "{text}") {
        Ok(()) => errors.print(room.as_str()),
        Err(_) => errors.print(text),
    };
}

/// Prints help or the version on the output, or what is wrong with the words on the errors, and gives the status.
pub(crate) fn refuse<W: Write, E: Write>(
    error: &Error,
    output: &mut Output<W>,
    errors: &mut Output<E>,
) -> u8
    requires { ⟦<Output<W> as Sink>⟧.failed output.old ≡ false }
    ensures status { result ≡ refusal_status (kind_of error.now) (⟦<Output<W> as Sink>⟧.failed output.new) }
    ensures unwritten { kind_of error.now ≢ ErrorKind.DisplayHelp → kind_of error.now ≢ ErrorKind.DisplayVersion
        → IsUnwritten (writer_of ⟦<Output<W> as Sink>⟧.taken ⟦<Output<W> as Sink>⟧.failed output.old output.new) }
    ensures quiet { result ≡ 0 → Keeps (⟦<Output<E> as Sink>⟧.taken errors.old) (⟦<Output<E> as Sink>⟧.taken errors.new) }
    ensures usage { result ≡ 2 → Keeps (⟦<Output<W> as Sink>⟧.taken output.old) (⟦<Output<W> as Sink>⟧.taken output.new) }
{
    if error.kind() == ErrorKind::OutOfMemory {
        return finish(&failed(Fault::Memory(AllocError)), errors);
    }
    if error.use_stderr() {
        return tell_mistake(error, errors);
    }
    tell_help(error, output, errors)
}

/// Tells a mistake in the words, and gives the status of one. The words that it quotes are shown as names are; but a line feed that one
/// of them has can't be told from those of the text.
fn tell_mistake<D: Display, E: Write>(mistake: &D, errors: &mut Output<E>) -> u8
    ensures { result ≡ 2 }
{
    let room = ArrayString::<NAMED_LINE_ROOM>::new();
    write_at_once(&ShownLines::new(mistake), room, errors);
    USAGE_STATUS
}

/// Prints help or the version, and gives the status: 0, or that of a fault of the output.
fn tell_help<W: Write, E: Write>(
    error: &Error,
    output: &mut Output<W>,
    errors: &mut Output<E>,
) -> u8
    requires { ⟦<Output<W> as Sink>⟧.failed output.old ≡ false }
    ensures status { result ≡ (if ⟦<Output<W> as Sink>⟧.failed output.new then 3 else 0) }
    ensures quiet { result ≡ 0 → Keeps (⟦<Output<E> as Sink>⟧.taken errors.old) (⟦<Output<E> as Sink>⟧.taken errors.new) }
{
    match print_all(error, output) {
        Ok(()) => 0,
        Err(_) => finish(&failed(Fault::WriteFailed), errors),
    }
}

/// Prints a text, and flushes it.
pub(crate) fn print_all<D: Display + Drop, W: Write>(
    text: D,
    output: &mut Output<W>,
) -> Result<(), Failed>
    requires { ⟦<Output<W> as Sink>⟧.failed output.old ≡ false }
    ensures failure { ⟦<Output<W> as Sink>⟧.failed output.new ≡ failed_after false result }
    ensures bytes { OnOk result (IfSome (D.output text)
        (Appends (⟦<Output<W> as Sink>⟧.taken output.old) (⟦<Output<W> as Sink>⟧.taken output.new))) }
{
    output.print(text)?;
    output.flush()
}

/// Tells a mistake that clap doesn't know. The word is that of `explain`.
pub(crate) fn refuse_words<E: Write>(
    mistake: Mistake,
    word: Option<&str>,
    errors: &mut Output<E>,
) -> u8
    ensures { result ≡ 2 }
{
    let text = match mistake {
        Mistake::TwoInputs => TWO_INPUTS,
        Mistake::InputTwice => INPUT_TWICE,
        Mistake::NoFault => return refuse_word(word.unwrap_or(""), errors),
    };
    tell_mistake(&text, errors)
}

/// Tells that a word is of no fault.
fn refuse_word<E: Write>(word: &str, errors: &mut Output<E>) -> u8
    ensures { result ≡ 2 }
{
    tell_mistake(&NoFault { word }, errors)
}

/// A word that is of no fault.
#[derive(Clone, Copy)]
struct NoFault<'a> {
    word: &'a str,
}

impl Display for NoFault<'_> {
    fn fmt<W: fmt::Write>(&self, f: &mut Formatter<W>) -> fmt::Result {
        // as a name, so that a line feed in it is told from those of the text
        let word = ShownName::new(self.word);
        write!(f, "error: no fault has the number or the name '{word}'")?;
        f.write_str(NO_FAULT)
    }
}

/// Tells why the words of the command line can't be had.
pub(crate) fn refuse_unread<E: Write>(error: &io::Error, errors: &mut Output<E>) -> u8
    ensures { result ≡ 2 }
{
    let text = match error.kind() {
        io::ErrorKind::OutOfMemory => "error: out of memory\n",
        _ =>
            "error: an argument is not UTF-8 text; a file with such a name can be read from standard input\n",
    };
    tell_mistake(&text, errors)
}
