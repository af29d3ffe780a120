// The whole of the program behind its `main`: what the words of the command line ask for is done, and gives the status.
ghost use Rattle.std.specs.Prelude.{◌≡◌, ◌≤◌, List, codes, false, IfOk, IsErr, MatchOption, [], map, option_and_then, option_map, string_bytes};
ghost use Rattle.std.specs.Option.{option_map_or};
ghost use Rattle.std.specs.Result.{result_ok};
ghost use Rattle.std.specs.Io.KnownBytes.{Keeps};
ghost use Rattle.clap.specs.Words.{Row, Text, subcommand_rows_of};
ghost use Rattle.ged_cmd.specs.Shelves.{Calls, SomeCalls};
ghost use Rattle.ged_cmd.specs.Tasks.{explains, is_set, task_of_match};
ghost use Rattle.ged_faults.specs.Faults.{status_of};
ghost use Rattle.ged_cmd.specs.Telling.{Tells};
ghost use Rattle.ged_cmd.specs.inner.Obeying.{IsMistaken};
ghost use Rattle.ged_cmd.specs.inner.Tasks.{IsReadOnce, wanted_task};
ghost use Rattle.ged_cmd.specs.Program.{IsDone, IsUnread, IsUnwritten, Performs};
ghost use Rattle.ged_cmd.specs.Streams.{reader as reader_of, writer as writer_of};

use crate::commands::answer_request;
use crate::digests::tell_digests;
use crate::explanations::finish_told;
use crate::shelf::Shelf;
use crate::tells::{refuse, refuse_unread, refuse_words};
use crate::wanted::{Asked, Wanted, asked_of, read_words};
use clap::ArgMatches;
use ged_devices::{Output, Sink, Source};
use ged_tool::Outcome;
use std::alloc::Global;
use std::env;
use std::io::{self, Write};

/// The streams of a program.
#[derive(Drop)]
pub struct Streams<R, W, E> {
    /// Standard input, of which nothing was read.
    pub input: R,
    /// Standard output.
    pub output: Output<W>,
    /// Standard error.
    pub errors: Output<E>,
}

/// The words of the command line, the program's name first. The error is that one isn't UTF-8, or that a growth was refused. Grows.
pub fn words_of(rt: &HostRuntime) -> io::Result<Vec<String>> {
    let words = env::args(rt)?.collect(rt.alloc())?;
    Ok(words)
}

/// Does what the words ask for, and gives the program's status: 0 where the answer or the help was
/// written, 1 for a fault of the file or two files that differ, 2 for a mistake in the words or where they can't be had, 3 for
/// a file that is too long, a fault of a device, or want of memory from then on. Memory is taken from `alloc` for what the words
/// ask for, as the runs of ged_tool say, and for explanations.
pub fn perform<S: Shelf, R: Source, W: Write, E: Write>(
    alloc: Global,
    shelf: &mut S,
    words: io::Result<Vec<String>>,
    streams: &mut Streams<R, W, E>,
) -> u8
    requires unread { R.reads streams.old.input ≡ 0 }
    requires no_failure { (R.failed streams.old.input ≡ false)
        × (⟦<Output<W> as Sink>⟧.failed streams.old.output ≡ false) }
    ensures performs { IfOk words (λ words. SomeCalls (S.calls shelf.old) (S.calls shelf.new) (λ made.
        Performs (S.files (S.stock shelf.old)) S.Device.to_come S.Device.failed S.Draft.taken S.Draft.failed S.Draft.fate
        (map string_bytes words.items)
        (reader_of R.to_come R.failed streams.old.input streams.new.input)
        (writer_of ⟦<Output<W> as Sink>⟧.taken ⟦<Output<W> as Sink>⟧.failed streams.old.output streams.new.output)
        (writer_of ⟦<Output<E> as Sink>⟧.taken ⟦<Output<E> as Sink>⟧.failed streams.old.errors streams.new.errors)
        made result)) }
    ensures range { result ≤ 3 }
    ensures unread { IsErr words → (result ≡ 2) × Calls (S.calls shelf.old) (S.calls shelf.new) []
        × IsUnread (reader_of R.to_come R.failed streams.old.input streams.new.input)
        × IsUnwritten (writer_of ⟦<Output<W> as Sink>⟧.taken ⟦<Output<W> as Sink>⟧.failed streams.old.output streams.new.output) }
    ensures quiet { result ≡ 0 → IfOk words (λ words. explains (map string_bytes words.items) ≡ false)
        → Keeps (⟦<Output<E> as Sink>⟧.taken streams.old.errors) (⟦<Output<E> as Sink>⟧.taken streams.new.errors) }
    ensures usage { result ≡ 2 → Keeps (⟦<Output<W> as Sink>⟧.taken streams.old.output)
        (⟦<Output<W> as Sink>⟧.taken streams.new.output) }
{
    match words {
        Ok(words) => perform_words(alloc, shelf, words.as_slice(), streams),
        Err(error) => refuse_unread(&error, &mut streams.errors),
    }
}

/// Does what words ask for, and gives the program's status.
fn perform_words<S: Shelf, R: Source, W: Write, E: Write>(
    alloc: Global,
    shelf: &mut S,
    words: &[String],
    streams: &mut Streams<R, W, E>,
) -> u8
    requires unread { R.reads streams.old.input ≡ 0 }
    requires no_failure { (R.failed streams.old.input ≡ false)
        × (⟦<Output<W> as Sink>⟧.failed streams.old.output ≡ false) }
    ensures performs { SomeCalls (S.calls shelf.old) (S.calls shelf.new) (λ made.
        Performs (S.files (S.stock shelf.old)) S.Device.to_come S.Device.failed S.Draft.taken S.Draft.failed S.Draft.fate
        (map string_bytes words.now)
        (reader_of R.to_come R.failed streams.old.input streams.new.input)
        (writer_of ⟦<Output<W> as Sink>⟧.taken ⟦<Output<W> as Sink>⟧.failed streams.old.output streams.new.output)
        (writer_of ⟦<Output<E> as Sink>⟧.taken ⟦<Output<E> as Sink>⟧.failed streams.old.errors streams.new.errors)
        made result) }
    ensures range { result ≤ 3 }
    ensures quiet { result ≡ 0 → explains (map string_bytes words.now) ≡ false
        → Keeps (⟦<Output<E> as Sink>⟧.taken streams.old.errors) (⟦<Output<E> as Sink>⟧.taken streams.new.errors) }
    ensures usage { result ≡ 2 → Keeps (⟦<Output<W> as Sink>⟧.taken streams.old.output)
        (⟦<Output<W> as Sink>⟧.taken streams.new.output) }
{
    match read_words(alloc, words) {
        Ok(matches) => obey_matches(alloc, shelf, &matches, streams),
        Err(error) => refuse(&error, &mut streams.output, &mut streams.errors),
    }
}

/// Does what the matches of words ask for, and gives the program's status.
fn obey_matches<S: Shelf, R: Source, W: Write, E: Write>(
    alloc: Global,
    shelf: &mut S,
    matches: &ArgMatches<'_>,
    streams: &mut Streams<R, W, E>,
) -> u8
    requires unread { R.reads streams.old.input ≡ 0 }
    requires no_failure { (R.failed streams.old.input ≡ false)
        × (⟦<Output<W> as Sink>⟧.failed streams.old.output ≡ false) }
    ensures obeyed { MatchOption (option_and_then task_of_match (subcommand_rows_of matches.now))
        (IsMistaken (reader_of R.to_come R.failed streams.old.input streams.new.input)
        (writer_of ⟦<Output<W> as Sink>⟧.taken ⟦<Output<W> as Sink>⟧.failed streams.old.output streams.new.output) result
        × Calls (S.calls shelf.old) (S.calls shelf.new) [])
        (λ task. (outcome : Outcome) × (result ≡ status_of outcome)
        × Tells (option_map_or (λ (found : Text × List Row). is_set (codes "explain") found.1) (subcommand_rows_of matches.now) false) task outcome
        (writer_of ⟦<Output<E> as Sink>⟧.taken ⟦<Output<E> as Sink>⟧.failed streams.old.errors streams.new.errors)
        × SomeCalls (S.calls shelf.old) (S.calls shelf.new) (λ made.
        IsDone (S.files (S.stock shelf.old)) S.Device.to_come S.Device.failed S.Draft.taken S.Draft.failed S.Draft.fate task
        (reader_of R.to_come R.failed streams.old.input streams.new.input)
        (writer_of ⟦<Output<W> as Sink>⟧.taken ⟦<Output<W> as Sink>⟧.failed streams.old.output streams.new.output) made outcome)) }
    ensures range { result ≤ 3 }
    ensures quiet { result ≡ 0
        → option_map_or (λ (found : Text × List Row). is_set (codes "explain") found.1) (subcommand_rows_of matches.now) false ≡ false
        → Keeps (⟦<Output<E> as Sink>⟧.taken streams.old.errors) (⟦<Output<E> as Sink>⟧.taken streams.new.errors) }
    ensures usage { result ≡ 2 → Keeps (⟦<Output<W> as Sink>⟧.taken streams.old.output)
        (⟦<Output<W> as Sink>⟧.taken streams.new.output) }
{
    let asked = asked_of(matches);
    obey(alloc, shelf, asked, streams)
}

/// Does what is asked for, and gives the program's status.
fn obey<S: Shelf, R: Source, W: Write, E: Write>(
    alloc: Global,
    shelf: &mut S,
    asked: Asked<'_, '_>,
    streams: &mut Streams<R, W, E>,
) -> u8
    requires once { IfOk asked.wanted IsReadOnce }
    requires unread { R.reads streams.old.input ≡ 0 }
    requires no_failure { (R.failed streams.old.input ≡ false)
        × (⟦<Output<W> as Sink>⟧.failed streams.old.output ≡ false) }
    ensures obeyed { MatchOption (option_map wanted_task (result_ok asked.entry.wanted))
        (IsMistaken (reader_of R.to_come R.failed streams.old.input streams.new.input)
        (writer_of ⟦<Output<W> as Sink>⟧.taken ⟦<Output<W> as Sink>⟧.failed streams.old.output streams.new.output) result
        × Calls (S.calls shelf.old) (S.calls shelf.new) [])
        (λ task. (outcome : Outcome) × (result ≡ status_of outcome) × Tells asked.entry.explains task outcome
        (writer_of ⟦<Output<E> as Sink>⟧.taken ⟦<Output<E> as Sink>⟧.failed streams.old.errors streams.new.errors)
        × SomeCalls (S.calls shelf.old) (S.calls shelf.new) (λ made.
        IsDone (S.files (S.stock shelf.old)) S.Device.to_come S.Device.failed S.Draft.taken S.Draft.failed S.Draft.fate task
        (reader_of R.to_come R.failed streams.old.input streams.new.input)
        (writer_of ⟦<Output<W> as Sink>⟧.taken ⟦<Output<W> as Sink>⟧.failed streams.old.output streams.new.output) made outcome)) }
    ensures range { result ≤ 3 }
    ensures quiet { result ≡ 0 → asked.entry.explains ≡ false → Keeps (⟦<Output<E> as Sink>⟧.taken streams.old.errors) (⟦<Output<E> as Sink>⟧.taken streams.new.errors) }
    ensures usage { result ≡ 2 → Keeps (⟦<Output<W> as Sink>⟧.taken streams.old.output)
        (⟦<Output<W> as Sink>⟧.taken streams.new.output) }
{
    let (input, output, errors) = (&mut streams.input, &mut streams.output, &mut streams.errors);
    match asked.wanted {
        Ok(Wanted::Request(request)) => {
            let told = answer_request(alloc, shelf, request, input, output);
            let reason = shelf.reason();
            finish_told(alloc, request, asked.explains, &told, reason, errors)
        }
        Ok(Wanted::Digests(digests)) => {
            let explains = asked.explains;
            tell_digests(alloc, shelf, digests, explains, input, output, errors).status()
        }
        Err(mistake) => refuse_words(mistake, asked.word, errors),
    }
}
