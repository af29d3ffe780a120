// One command over one input, or over two.
ghost use Rattle.std.specs.Prelude.{◌≡◌, ◌⊎◌, ◌∷◌, [], None, Some, false, option_map};
ghost use Rattle.ged_tool.specs.Settings.{profile_of, edition_of};
ghost use Rattle.ged_cmd.specs.inner.Flushes.{IsFlushed};
ghost use Rattle.ged_cmd.specs.Program.{IsAnswered, IsCompared, IsDone, IsOver, IsPut, IsWithheld, fate_of};
ghost use Rattle.ged_cmd.specs.Streams.{reader as reader_of, writer as writer_of};
ghost use Rattle.ged_cmd.specs.Shelves.{Calls, SomeCalls, drafting, opening, opening_named};
ghost use Rattle.ged_cmd.specs.Tasks.{input_same as input_same_task, same as same_task};
ghost use Rattle.ged_cmd.specs.inner.Tasks.{task_of};

use crate::meanings::tell_meanings;
use crate::shelf::Shelf;
use crate::words::Request;
use ged_devices::{Failed, Fate, Output, Sink, Source};
use ged_tool::{
    Command, Comparison, Fault, GREATEST_LIMIT, Outcome, Settings, Told, Which, run_same_told,
    run_told,
};
use std::alloc::Global;
use std::io::Write;

/// The outcome of a fault that names no file.
pub(crate) fn failed(fault: Fault) -> Outcome
    ensures { result ≡ Outcome.Failed None fault }
{
    Outcome::Failed { which: None, fault }
}

/// What is told where no file came.
fn without_bytes(alloc: Global, outcome: Outcome) -> Told
    ensures outcome { result.outcome ≡ outcome }
    ensures bytes { result.bytes.items ≡ [] }
{
    Told {
        outcome,
        bytes: Vec::new(alloc),
    }
}

/// What is told where a file can't be opened.
pub(crate) fn not_opened(alloc: Global, which: Option<Which>) -> Told
    ensures outcome { result.outcome ≡ Outcome.Failed which Fault.ReadFailed }
    ensures bytes { result.bytes.items ≡ [] }
{
    let fault = Fault::ReadFailed;
    without_bytes(alloc, Outcome::Failed { which, fault })
}

/// Does what a request asks for, and gives the outcome with the bytes of the file of which it tells.
pub(crate) fn answer_request<S: Shelf, R: Source, W: Write>(
    alloc: Global,
    shelf: &mut S,
    request: Request<'_>,
    input: &mut R,
    output: &mut Output<W>,
) -> Told
    requires unread { R.reads input.old ≡ 0 }
    requires no_failure { (R.failed input.old ≡ false) × (⟦<Output<W> as Sink>⟧.failed output.old ≡ false) }
    ensures done { SomeCalls (S.calls shelf.old) (S.calls shelf.new) (λ made.
        IsDone (S.files (S.stock shelf.old)) S.Device.to_come S.Device.failed S.Draft.taken S.Draft.failed S.Draft.fate (task_of request.entry)
        (reader_of R.to_come R.failed input.old input.new)
        (writer_of ⟦<Output<W> as Sink>⟧.taken ⟦<Output<W> as Sink>⟧.failed output.old output.new) made result.outcome) }
{
    match request {
        Request::Run {
            command,
            settings,
            file,
            into: None,
        } => answer_output(alloc, shelf, settings, command, file, input, output),
        Request::Run {
            command,
            settings,
            file,
            into: Some(name),
        } => answer_into(alloc, shelf, settings, command, file, name, input),
        Request::Same {
            comparison,
            first,
            second,
        } => compare_files(alloc, shelf, comparison, first, second, input, output),
        Request::SameInput { comparison, second } => {
            compare_input(alloc, shelf, comparison, second, input, output)
        }
        Request::Explain { meaning } => without_bytes(alloc, tell_meanings(meaning, output)),
    }
}

/// Runs a command over a file, or over `input` where none is named, and flushes the answer. A file that can't be opened is
/// ReadFailed.
fn answer_output<S: Shelf, R: Source, W: Write>(
    alloc: Global,
    shelf: &mut S,
    settings: Settings,
    command: Command,
    file: Option<&str>,
    input: &mut R,
    output: &mut Output<W>,
) -> Told
    requires unread { R.reads input.old ≡ 0 }
    requires no_failure { (R.failed input.old ≡ false) × (⟦<Output<W> as Sink>⟧.failed output.old ≡ false) }
    ensures done { IsOver (S.files (S.stock shelf.old)) S.Device.to_come S.Device.failed (profile_of settings) (edition_of settings) command
        (option_map (λ name. name.now) file.entry)
        (reader_of R.to_come R.failed input.old input.new)
        (writer_of ⟦<Output<W> as Sink>⟧.taken ⟦<Output<W> as Sink>⟧.failed output.old output.new) result.outcome }
    ensures called { Calls (S.calls shelf.old) (S.calls shelf.new) (opening_named (option_map (λ name. name.now) file.entry)) }
{
    let told = answer_file(alloc, shelf, settings, command, file, input, output);
    flushed_told(told, output)
}

/// Runs a command over a file, or over `input` where none is named, and puts the answer in the place of the file called `name`,
/// which stays as it is where the outcome is not Done.
fn answer_into<S: Shelf, R: Source>(
    alloc: Global,
    shelf: &mut S,
    settings: Settings,
    command: Command,
    file: Option<&str>,
    name: &str,
    input: &mut R,
) -> Told
    requires unread { R.reads input.old ≡ 0 }
    requires no_failure { R.failed input.old ≡ false }
    ensures done { SomeCalls (S.calls shelf.old) (S.calls shelf.new) (λ made.
        (IsWithheld ((S.files (S.stock shelf.old)).withholds name.now) (reader_of R.to_come R.failed input.old input.new) result.outcome
        × (made ≡ drafting name.now ∷ []))
        ⊎ (IsPut (S.files (S.stock shelf.old)) S.Draft.taken S.Draft.failed S.Draft.fate name.now (λ writer.
        IsOver (S.files (S.stock shelf.old)) S.Device.to_come S.Device.failed (profile_of settings) (edition_of settings) command
        (option_map (λ name. name.now) file.entry) (reader_of R.to_come R.failed input.old input.new) writer result.outcome)
        result.outcome × (made ≡ drafting name.now ∷ opening_named (option_map (λ name. name.now) file.entry)))) }
{
    let mut draft = match shelf.draft(alloc, name) {
        Ok(draft) => draft,
        Err(fault) => return without_bytes(alloc, failed(fault)),
    };
    let told = answer_file(alloc, shelf, settings, command, file, input, &mut draft);
    Told {
        outcome: settled(shelf, told.outcome, &mut draft),
        bytes: told.bytes,
    }
}

/// Runs a command over a file, or over `input` where none is named, and writes the answer. A file that can't be opened is
/// ReadFailed.
fn answer_file<S: Shelf, R: Source, W: Sink>(
    alloc: Global,
    shelf: &mut S,
    settings: Settings,
    command: Command,
    file: Option<&str>,
    input: &mut R,
    writer: &mut W,
) -> Told
    requires unread { R.reads input.old ≡ 0 }
    requires no_failure { (R.failed input.old ≡ false) × (W.failed writer.old ≡ false) }
    ensures answered { IsOver (S.files (S.stock shelf.old)) S.Device.to_come S.Device.failed (profile_of settings) (edition_of settings) command
        (option_map (λ name. name.now) file.entry)
        (reader_of R.to_come R.failed input.old input.new) (writer_of W.taken W.failed writer.old writer.new) result.outcome }
    ensures fate { W.fate writer.new ≡ W.fate writer.old }
    ensures called { Calls (S.calls shelf.old) (S.calls shelf.new) (opening_named (option_map (λ name. name.now) file.entry)) }
{
    match file {
        None => answer(alloc, settings, command, input, writer),
        Some(name) => match shelf.open(name) {
            Ok(mut device) => answer(alloc, settings, command, &mut device, writer),
            Err(_) => not_opened(alloc, None),
        },
    }
}

/// Tells whether a file is the same as another, or as `input` where no other is named. Both are
/// opened before one is read. A file that can't be opened is ReadFailed, and is named.
fn compare_files<S: Shelf, R: Source, W: Write>(
    alloc: Global,
    shelf: &mut S,
    comparison: Comparison,
    first: &str,
    second: Option<&str>,
    input: &mut R,
    output: &mut Output<W>,
) -> Told
    requires unread { R.reads input.old ≡ 0 }
    requires no_failure { (R.failed input.old ≡ false) × (⟦<Output<W> as Sink>⟧.failed output.old ≡ false) }
    ensures done { SomeCalls (S.calls shelf.old) (S.calls shelf.new) (λ made.
        IsDone (S.files (S.stock shelf.old)) S.Device.to_come S.Device.failed S.Draft.taken S.Draft.failed S.Draft.fate
        (same_task comparison.form (profile_of comparison.settings) (edition_of comparison.settings) first.now (option_map (λ name. name.now) second.entry))
        (reader_of R.to_come R.failed input.old input.new)
        (writer_of ⟦<Output<W> as Sink>⟧.taken ⟦<Output<W> as Sink>⟧.failed output.old output.new) made result.outcome) }
{
    let mut first = match shelf.open(first) {
        Ok(device) => device,
        Err(_) => return not_opened(alloc, Some(Which::First)),
    };
    match second {
        None => compare(alloc, comparison, &mut first, input, output),
        Some(name) => match shelf.open(name) {
            Ok(mut second) => compare(alloc, comparison, &mut first, &mut second, output),
            Err(_) => not_opened(alloc, Some(Which::Second)),
        },
    }
}

/// Tells whether `input` is the same as a file. A file that can't be opened is ReadFailed, and is
/// named.
fn compare_input<S: Shelf, R: Source, W: Write>(
    alloc: Global,
    shelf: &mut S,
    comparison: Comparison,
    second: &str,
    input: &mut R,
    output: &mut Output<W>,
) -> Told
    requires unread { R.reads input.old ≡ 0 }
    requires no_failure { (R.failed input.old ≡ false) × (⟦<Output<W> as Sink>⟧.failed output.old ≡ false) }
    ensures done { IsDone (S.files (S.stock shelf.old)) S.Device.to_come S.Device.failed S.Draft.taken S.Draft.failed S.Draft.fate
        (input_same_task comparison.form (profile_of comparison.settings) (edition_of comparison.settings) second.now)
        (reader_of R.to_come R.failed input.old input.new)
        (writer_of ⟦<Output<W> as Sink>⟧.taken ⟦<Output<W> as Sink>⟧.failed output.old output.new) (opening second.now ∷ []) result.outcome }
    ensures called { Calls (S.calls shelf.old) (S.calls shelf.new) (opening second.now ∷ []) }
{
    match shelf.open(second) {
        Ok(mut second) => compare(alloc, comparison, input, &mut second, output),
        Err(_) => not_opened(alloc, Some(Which::Second)),
    }
}

/// Runs a command over what a reader gives, and writes the answer.
fn answer<R: Source, W: Sink>(
    alloc: Global,
    settings: Settings,
    command: Command,
    reader: &mut R,
    writer: &mut W,
) -> Told
    requires unread { R.reads reader.old ≡ 0 }
    requires no_failure { (R.failed reader.old ≡ false) × (W.failed writer.old ≡ false) }
    ensures answered { IsAnswered (profile_of settings) (edition_of settings) command
        (reader_of R.to_come R.failed reader.old reader.new) (writer_of W.taken W.failed writer.old writer.new) result.outcome }
    ensures fate { W.fate writer.new ≡ W.fate writer.old }
{
    run_told(alloc, settings, GREATEST_LIMIT, command, reader, writer)
}

/// Compares what two readers give, and flushes the answer.
fn compare<R: Source, S: Source, W: Write>(
    alloc: Global,
    comparison: Comparison,
    first: &mut R,
    second: &mut S,
    output: &mut Output<W>,
) -> Told
    requires unread { (R.reads first.old ≡ 0) × (S.reads second.old ≡ 0) }
    requires no_failure { (R.failed first.old ≡ false) × (S.failed second.old ≡ false)
        × (⟦<Output<W> as Sink>⟧.failed output.old ≡ false) }
    ensures { IsCompared comparison.form (profile_of comparison.settings) (edition_of comparison.settings)
        (reader_of R.to_come R.failed first.old first.new) (reader_of S.to_come S.failed second.old second.new)
        (writer_of ⟦<Output<W> as Sink>⟧.taken ⟦<Output<W> as Sink>⟧.failed output.old output.new) result.outcome }
{
    let told = run_same_told(alloc, comparison, GREATEST_LIMIT, first, second, output);
    flushed_told(told, output)
}

/// What is told once the answer is flushed: the outcome of [`flushed`], and the same bytes.
pub(crate) fn flushed_told<W: Write>(told: Told, output: &mut Output<W>) -> Told
    ensures { IsFlushed (writer_of ⟦<Output<W> as Sink>⟧.taken ⟦<Output<W> as Sink>⟧.failed output.old output.new)
        (⟦<Output<W> as Sink>⟧.failed output.old) told.outcome result.outcome }
{
    Told {
        outcome: flushed(told.outcome, output),
        bytes: told.bytes,
    }
}

/// The outcome once the answer is flushed: WriteFailed where it can't be. An outcome without an
/// answer stays, and nothing is flushed.
fn flushed<W: Write>(outcome: Outcome, output: &mut Output<W>) -> Outcome
    ensures { IsFlushed (writer_of ⟦<Output<W> as Sink>⟧.taken ⟦<Output<W> as Sink>⟧.failed output.old output.new)
        (⟦<Output<W> as Sink>⟧.failed output.old) outcome result }
{
    match outcome {
        Outcome::Done | Outcome::Different => match output.flush() {
            Ok(()) => outcome,
            Err(_) => failed(Fault::WriteFailed),
        },
        Outcome::Failed { which: _, fault: _ } => outcome,
    }
}

/// The outcome once a new file has taken the other's place: WriteFailed where it can't. It does so where the outcome is Done,
/// and else is given up.
fn settled<S: Shelf>(shelf: &S, outcome: Outcome, draft: &mut S::Draft) -> Outcome
    requires { S.Draft.fate draft.old ≡ Fate.Pending }
    ensures flushed { IsFlushed (writer_of S.Draft.taken S.Draft.failed draft.old draft.new)
        (S.Draft.failed draft.old) outcome result }
    ensures fate { S.Draft.fate draft.new ≡ fate_of result }
{
    match outcome {
        Outcome::Done => match shelf.place(draft) {
            Ok(()) => outcome,
            Err(Failed) => failed(Fault::WriteFailed),
        },
        Outcome::Different | Outcome::Failed { which: _, fault: _ } => {
            shelf.give_up(draft);
            outcome
        }
    }
}
