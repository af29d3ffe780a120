// One run: read the whole file, make the whole answer, write it.
ghost use Rattle.std.specs.Prelude.{◌≡◌, ◌+◌, ◌≤◌, ◌↔◌, false, IsTrue, IfOk, IfErr, IsErrOf, [], vec_len};
ghost use Rattle.std.specs.Io.KnownBytes.{Consumes};
ghost use Rattle.ged_line.specs.Bytes.{Bytes};
ghost use Rattle.ged_tool.specs.Limits.{greatest_limit, greatest_read};
ghost use Rattle.ged_tool.specs.Settings.{profile_of, edition_of};
ghost use Rattle.ged_tool.specs.RunDevices.{TellsDevices};
ghost use Rattle.ged_tool.specs.Run.{IsWhole, IsRun};
ghost use Rattle.ged_tool.specs.Kept.{IsKeptRun};
ghost use Rattle.ged_tool.specs.inner.Steps.{StopsReading};

use crate::runs::answer::Command;
use crate::runs::reading::read_whole;
use crate::runs::told::{Told, told_with, told_without};
use crate::runs::whole_file::Validation;
use crate::runs::written::write_answer;
use crate::settings::Settings;
use ged_canon::Edition;
use ged_devices::{Sink, Source};
use ged_faults::Outcome;
use ged_schema::Profile;
use std::alloc::Global;

/// What looks at lines alone validates them in blocks; every other command wants the whole file as a text.
fn validation_for(command: Command) -> Validation {
    match command {
        Command::Lines => Validation::Later,
        _ => Validation::AsItComes,
    }
}

/// What [`run_as`] does under the lenient profile, under which a notice refuses nothing, and in the first edition.
pub fn run<R: Source, W: Sink>(
    alloc: Global,
    limit: u64,
    command: Command,
    reader: &mut R,
    writer: &mut W,
) -> Outcome
    requires limit { limit ≤ greatest_limit }
    requires unread { R.reads reader.old ≡ 0 }
    requires no_failure { (R.failed reader.old ≡ false) × (W.failed writer.old ≡ false) }
    ensures devices { TellsDevices limit (R.reads reader.new) (R.failed reader.new) (W.failed writer.new) result }
    ensures bytes { IsRun Profile.Lenient Edition.First command limit (R.to_come reader.old) (R.to_come reader.new)
        (W.taken writer.old) (W.taken writer.new) result }
    ensures fate { W.fate writer.new ≡ W.fate writer.old }
{
    run_as(alloc, Settings::new(), limit, command, reader, writer)
}

/// Reads a file to the reader's end, answers it by the command under the profile and in the edition of the settings, and
/// writes the answer.
///
/// `limit` is the most bytes that the file may have, [`crate::GREATEST_LIMIT`] at most. The reader must not have been read before,
/// and neither device have failed. No more than `limit + 1` calls of read are made, and nothing is written unless the
/// whole answer was made. Memory is taken for the file, or for as many bytes as [`Source::expected`] says where these are more and within
/// the limit, as [`ged_tree::room_in_large_pages`] rounds them up until the file has come, and 131,072 bytes to read it by, for its
/// document and index where the command asks for them, and for the answer: that of `Check` whole; of `Lines`, `Canon` and `Tidy` only what
/// it has that the file has not; of `Show` nothing. For the last three a buffer of 65,536 bytes is taken too.
///
/// The outcome is Done where the whole answer was written, and never Different. Else it is Failed, names neither of
/// two files, and has
/// - InFile where the command has a fault of the file to tell;
/// - TooLong where more than `limit` bytes came, 131,072 more at most;
/// - ReadFailed exactly where the reader has failed;
/// - WriteFailed exactly where the writer has failed; then the front of the answer was written;
/// - Memory where no memory was found.
pub fn run_as<R: Source, W: Sink>(
    alloc: Global,
    settings: Settings,
    limit: u64,
    command: Command,
    reader: &mut R,
    writer: &mut W,
) -> Outcome
    requires limit { limit ≤ greatest_limit }
    requires unread { R.reads reader.old ≡ 0 }
    requires no_failure { (R.failed reader.old ≡ false) × (W.failed writer.old ≡ false) }
    ensures devices { TellsDevices limit (R.reads reader.new) (R.failed reader.new) (W.failed writer.new) result }
    ensures bytes { IsRun (profile_of settings) (edition_of settings) command limit (R.to_come reader.old) (R.to_come reader.new)
        (W.taken writer.old) (W.taken writer.new) result }
    ensures fate { W.fate writer.new ≡ W.fate writer.old }
{
    let told = run_told(alloc, settings, limit, command, reader, writer);
    told.outcome
}

/// What [`run_as`] does, and the file's bytes: they are kept where the file came whole, and none are where it did not. Where
/// memory was wanting they may be kept or not. Nothing is copied for that, and no memory taken.
pub fn run_told<R: Source, W: Sink>(
    alloc: Global,
    settings: Settings,
    limit: u64,
    command: Command,
    reader: &mut R,
    writer: &mut W,
) -> Told
    requires limit { limit ≤ greatest_limit }
    requires unread { R.reads reader.old ≡ 0 }
    requires no_failure { (R.failed reader.old ≡ false) × (W.failed writer.old ≡ false) }
    ensures devices { TellsDevices limit (R.reads reader.new) (R.failed reader.new) (W.failed writer.new) result.outcome }
    ensures bytes { IsKeptRun (profile_of settings) (edition_of settings) command limit (R.to_come reader.old) (R.to_come reader.new)
        (W.taken writer.old) (W.taken writer.new) result.outcome result.bytes.items }
    ensures fate { W.fate writer.new ≡ W.fate writer.old }
{
    let file = match read_whole(alloc, limit, validation_for(command), &[], reader) {
        Ok(file) => file,
        Err(fault) => return told_without(alloc, Outcome::Failed { which: None, fault }),
    };
    match write_answer(alloc, settings, command, file.text(), writer) {
        Ok(()) => Told {
            outcome: Outcome::Done,
            bytes: file.into_bytes(),
        },
        Err(fault) => told_with(fault, file.into_bytes()),
    }
}
