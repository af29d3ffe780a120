// The digests of files, told one after the other.
ghost use Rattle.std.specs.Prelude.{◌≡◌, ◌≢◌, ◌≤◌, ◌⊎◌, ◌<◌, ◌∷◌, [], None, Some, codes, count_by, true, false};
ghost use Rattle.std.specs.Io.KnownBytes.{Keeps};
ghost use Rattle.ged_tool.specs.Settings.{profile_of, edition_of};
ghost use Rattle.ged_cmd.specs.Program.{AreDigested, IsDigested, IsNotOpened, SomeFile, graver as graver_of};
ghost use Rattle.ged_cmd.specs.Streams.{reader as reader_of, writer as writer_of};
ghost use Rattle.ged_cmd.specs.Shelves.{Calls, SomeCalls};
ghost use Rattle.ged_cmd.specs.Tasks.{file_named as file_named_of, is_input as is_input_word};
ghost use Rattle.ged_cmd.specs.inner.Calling.{opening_all};
ghost use Rattle.ged_cmd.specs.inner.Tasks.{name_or, names_of};
ghost use Rattle.ged_cmd.specs.inner.Told.{Wrote, named_line, named_told};

use crate::commands::{flushed_told, not_opened};
use crate::digest_words::Digests;
use crate::explanations::{text_of, write_text};
use crate::names::{input_name, output_name};
use crate::shelf::Shelf;
use crate::tells::{tell, tell_named};
use crate::words::{file_named, is_input};
use ged_devices::{Output, Sink, Source};
use ged_tool::{Fault, GREATEST_LIMIT, Outcome, Settings, Told, run_digest};
use std::alloc::Global;
use std::io::Write;

/// Tells the digest of each file on the output, and its fault, if it has one, on the errors; gives the gravest outcome. Once the
/// output has failed it stops.
pub(crate) fn tell_digests<S: Shelf, R: Source, W: Write, E: Write>(
    alloc: Global,
    shelf: &mut S,
    digests: Digests<'_, '_>,
    explains: bool,
    input: &mut R,
    output: &mut Output<W>,
    errors: &mut Output<E>,
) -> Outcome
    requires once { count_by is_input_word (names_of digests.files.now) ≤ 1 }
    requires unread { R.reads input.old ≡ 0 }
    requires no_failure { (R.failed input.old ≡ false) × (⟦<Output<W> as Sink>⟧.failed output.old ≡ false) }
    ensures told { SomeCalls (S.calls shelf.old) (S.calls shelf.new) (λ made.
        AreDigested (S.files (S.stock shelf.old)) S.Device.to_come S.Device.failed (profile_of digests.entry.settings)
        (edition_of digests.entry.settings) (names_of digests.entry.files.now)
        (reader_of R.to_come R.failed input.old input.new)
        (writer_of ⟦<Output<W> as Sink>⟧.taken ⟦<Output<W> as Sink>⟧.failed output.old output.new) made result) }
    ensures quiet { result ≡ Outcome.Done → Keeps (⟦<Output<E> as Sink>⟧.taken errors.old) (⟦<Output<E> as Sink>⟧.taken errors.new) }
{
    let mut gravest = Outcome::Done;
    for name in digests.files {
        let told = tell_digest(alloc, shelf, digests.settings, name, input, output);
        tell_outcome(alloc, name, explains, &told, shelf.reason(), errors);
        gravest = graver(gravest, told.outcome);
        if output.failed() {
            return gravest;
        }
    }
    gravest
}

/// The graver of two outcomes, by their statuses; the later one where these are the same.
fn graver(before: Outcome, later: Outcome) -> Outcome
    ensures { result ≡ graver_of before later }
{
    if later.status() < before.status() {
        before
    } else {
        later
    }
}

/// Tells the digest of the file of a name, or of `input` where the name stands for it. A file that can't be opened is
/// ReadFailed.
fn tell_digest<S: Shelf, R: Source, W: Write>(
    alloc: Global,
    shelf: &mut S,
    settings: Settings,
    name: &str,
    input: &mut R,
    output: &mut Output<W>,
) -> Told
    requires unread { is_input_word name.now ≡ true → (R.reads input.old ≡ 0) × (R.failed input.old ≡ false) }
    requires no_failure { ⟦<Output<W> as Sink>⟧.failed output.old ≡ false }
    ensures named { is_input_word name.now ≡ false → (input.new ≡ input.old)
        × (IsNotOpened ((S.files (S.stock shelf.old)).refuses name.now) None
        (writer_of ⟦<Output<W> as Sink>⟧.taken ⟦<Output<W> as Sink>⟧.failed output.old output.new) result.outcome
        ⊎ SomeFile ((S.files (S.stock shelf.old)).opens name.now) S.Device.to_come S.Device.failed (λ file.
        IsDigested (profile_of settings) (edition_of settings) name.now file
        (writer_of ⟦<Output<W> as Sink>⟧.taken ⟦<Output<W> as Sink>⟧.failed output.old output.new) result.outcome)) }
    ensures input { is_input_word name.now ≡ true → IsDigested (profile_of settings) (edition_of settings) name.now
        (reader_of R.to_come R.failed input.old input.new)
        (writer_of ⟦<Output<W> as Sink>⟧.taken ⟦<Output<W> as Sink>⟧.failed output.old output.new) result.outcome }
    ensures same { S.stock shelf.new ≡ S.stock shelf.old }
    ensures called { Calls (S.calls shelf.old) (S.calls shelf.new) (opening_all (name.now ∷ [])) }
{
    if is_input(name) {
        return digest(alloc, settings, name, input, output);
    }
    match shelf.open(name) {
        Ok(mut device) => digest(alloc, settings, name, &mut device, output),
        Err(_) => not_opened(alloc, None),
    }
}

/// Tells the digest of what a reader gives, and flushes its line.
fn digest<R: Source, W: Write>(
    alloc: Global,
    settings: Settings,
    name: &str,
    reader: &mut R,
    output: &mut Output<W>,
) -> Told
    requires unread { R.reads reader.old ≡ 0 }
    requires no_failure { (R.failed reader.old ≡ false) × (⟦<Output<W> as Sink>⟧.failed output.old ≡ false) }
    ensures { IsDigested (profile_of settings) (edition_of settings) name.now
        (reader_of R.to_come R.failed reader.old reader.new)
        (writer_of ⟦<Output<W> as Sink>⟧.taken ⟦<Output<W> as Sink>⟧.failed output.old output.new) result.outcome }
{
    let told = run_digest(alloc, settings, GREATEST_LIMIT, name, reader, output);
    flushed_told(told, output)
}

/// Tells the fault of a file, if it has one, after the file's name, and explains it, where that is asked for. A fault of the
/// output is told without a name. `reason` is why a device failed.
fn tell_outcome<E: Write>(
    alloc: Global,
    name: &str,
    explains: bool,
    told: &Told,
    reason: &str,
    errors: &mut Output<E>,
)
    ensures quiet { told.now.outcome ≡ Outcome.Done → Keeps (⟦<Output<E> as Sink>⟧.taken errors.old) (⟦<Output<E> as Sink>⟧.taken errors.new) }
    ensures line { explains ≡ false → Wrote (⟦<Output<E> as Sink>⟧.failed errors.old)
        (writer_of ⟦<Output<E> as Sink>⟧.taken ⟦<Output<E> as Sink>⟧.failed errors.old errors.new) (named_told name.now told.now.outcome) }
{
    if let Outcome::Failed { which: _, fault } = told.outcome {
        tell_after(name, &fault, errors);
        if explains {
            let source = source_name(name, &fault);
            write_text(text_of(alloc, &told.bytes, fault, source, reason), errors);
        }
    }
}

/// The name of the file that has a fault, which a word names, or of the stream.
fn source_name<'a>(word: &'a str, fault: &Fault) -> &'a str
    ensures written { fault.now ≡ Fault.WriteFailed → result.now ≡ codes "standard output" }
    ensures read { fault.now ≢ Fault.WriteFailed
        → result.now ≡ name_or (file_named_of (Some word.now)) (codes "standard input") }
{
    match fault {
        Fault::WriteFailed => output_name(None),
        _ => input_name(file_named(Some(word))),
    }
}

/// Writes the line that tells a fault, after the name of the file that has it.
fn tell_after<E: Write>(name: &str, fault: &Fault, errors: &mut Output<E>)
    ensures { Wrote (⟦<Output<E> as Sink>⟧.failed errors.old)
        (writer_of ⟦<Output<E> as Sink>⟧.taken ⟦<Output<E> as Sink>⟧.failed errors.old errors.new) (named_line name.now fault.now) }
{
    match fault {
        Fault::WriteFailed => tell(None, fault, errors),
        _ => tell_named(name, fault, errors),
    }
}
