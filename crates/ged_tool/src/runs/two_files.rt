// One run over two files: read both, judge both, write whether they are the same.
ghost use Rattle.std.specs.Prelude.{◌≡◌, ◌≤◌, ◌<◌, ◌++◌, [], Some, false, length, take};
ghost use Rattle.ged_tool.specs.Limits.{greatest_limit};
ghost use Rattle.ged_tool.specs.Settings.{profile_of, edition_of};
ghost use Rattle.ged_tool.specs.RunDevices.{TellsThreeDevices};
ghost use Rattle.ged_tool.specs.Same.{relation_of};
ghost use Rattle.ged_tool.specs.SameRun.{IsSameRun, same_line as line_of_same};
ghost use Rattle.ged_tool.specs.Kept.{IsKeptSameRunOf};
ghost use Rattle.ged_tool.specs.inner.Steps.{of_which};

use crate::calls::same::{SameFault, same_files};
use crate::comparison::{Comparison, Form};
use crate::runs::reading::read_whole;
use crate::runs::told::{Told, told_without};
use crate::runs::whole_file::Validation;
use crate::settings::Settings;
use ged_canon::Edition;
use ged_devices::{Failed, Sink, Source, write_whole};
use ged_faults::{Fault, Outcome, Which};
use ged_schema::Profile;
use std::alloc::Global;

/// What [`run_same_as`] does under the lenient profile and in the first edition.
pub fn run_same<R: Source, S: Source, W: Sink>(
    alloc: Global,
    limit: u64,
    first: &mut R,
    second: &mut S,
    writer: &mut W,
) -> Outcome
    requires limit { limit ≤ greatest_limit }
    requires unread { (R.reads first.old ≡ 0) × (S.reads second.old ≡ 0) }
    requires no_failure { (R.failed first.old ≡ false) × (S.failed second.old ≡ false) × (W.failed writer.old ≡ false) }
    ensures devices { TellsThreeDevices limit (R.reads first.new) (S.reads second.new)
        (R.failed first.new) (S.failed second.new) (W.failed writer.new) result }
    ensures bytes { IsSameRun Profile.Lenient Edition.First limit (R.to_come first.old) (R.to_come first.new)
        (S.to_come second.old) (S.to_come second.new) (W.taken writer.old) (W.taken writer.new) result }
    ensures fate { W.fate writer.new ≡ W.fate writer.old }
{
    run_same_as(alloc, Settings::new(), limit, first, second, writer)
}

/// Reads a file to its reader's end, then another, compares them under the profile and in the edition of the settings,
/// and writes the line `same` or `different`.
///
/// `limit` is the most bytes that each file may have, [`crate::GREATEST_LIMIT`] at most. The readers must not have been read before,
/// and no device have failed. No more than `limit + 1` calls of read are made on each reader, and nothing is written
/// unless both files are accepted. Memory is taken for both files, or for as many bytes as [`Source::expected`] says of one where these
/// are more and within the limit, and 131,072 bytes to read each by; none of it is written as long as the second file is the front of the
/// first. For files that are equal byte for byte it is taken for one document and index; for two of which neither may be a canonical form,
/// by its front, for both documents and indexes; else for one at a time, and for what the forms have that the files have not, but none for
/// a file that [`same_by`] leaves unjudged.
///
/// The outcome is Done where the files are the same and that was written, Different where they are not. Else it is
/// Failed, and has
/// - InFile where a file is not accepted: the first, or where that one is, the second;
/// - TooLong where more than `limit` bytes came of a file, 131,072 more at most;
/// - ReadFailed exactly where a reader has failed;
/// - WriteFailed exactly where the writer has failed; then the front of the line was written;
/// - Memory where no memory was found.
///
/// It names the file with the fault; WriteFailed names none. Where the first file can't be read the second isn't read.
pub fn run_same_as<R: Source, S: Source, W: Sink>(
    alloc: Global,
    settings: Settings,
    limit: u64,
    first: &mut R,
    second: &mut S,
    writer: &mut W,
) -> Outcome
    requires limit { limit ≤ greatest_limit }
    requires unread { (R.reads first.old ≡ 0) × (S.reads second.old ≡ 0) }
    requires no_failure { (R.failed first.old ≡ false) × (S.failed second.old ≡ false) × (W.failed writer.old ≡ false) }
    ensures devices { TellsThreeDevices limit (R.reads first.new) (S.reads second.new)
        (R.failed first.new) (S.failed second.new) (W.failed writer.new) result }
    ensures bytes { IsSameRun (profile_of settings) (edition_of settings) limit (R.to_come first.old) (R.to_come first.new)
        (S.to_come second.old) (S.to_come second.new) (W.taken writer.old) (W.taken writer.new) result }
    ensures fate { W.fate writer.new ≡ W.fate writer.old }
{
    let form = Form::Canonical;
    let comparison = Comparison { settings, form };
    let told = run_same_told(alloc, comparison, limit, first, second, writer);
    told.outcome
}

/// What [`run_same_as`] does, in the form of the comparison, and the bytes of the file with the fault: they are kept where that
/// file came whole, and none are where it did not, or where neither file has a fault. Where memory was wanting they may be kept
/// or not. Nothing is copied for that, and no memory taken.
pub fn run_same_told<R: Source, S: Source, W: Sink>(
    alloc: Global,
    comparison: Comparison,
    limit: u64,
    first: &mut R,
    second: &mut S,
    writer: &mut W,
) -> Told
    requires limit { limit ≤ greatest_limit }
    requires unread { (R.reads first.old ≡ 0) × (S.reads second.old ≡ 0) }
    requires no_failure { (R.failed first.old ≡ false) × (S.failed second.old ≡ false) × (W.failed writer.old ≡ false) }
    ensures devices { TellsThreeDevices limit (R.reads first.new) (S.reads second.new)
        (R.failed first.new) (S.failed second.new) (W.failed writer.new) result.outcome }
    ensures bytes { IsKeptSameRunOf (profile_of comparison.settings) (relation_of comparison.form (edition_of comparison.settings))
        limit (R.to_come first.old) (R.to_come first.new) (S.to_come second.old) (S.to_come second.new)
        (W.taken writer.old) (W.taken writer.new) result.outcome result.bytes.items }
    ensures fate { W.fate writer.new ≡ W.fate writer.old }
{
    let first_file = match read_whole(alloc, limit, Validation::AsItComes, &[], first) {
        Ok(file) => file,
        Err(fault) => return told_without(alloc, failed_at(Which::First, fault)),
    };
    let front = first_file.text();
    let second_file = match read_whole(alloc, limit, Validation::AsItComes, front.bytes(), second) {
        Ok(file) => file,
        Err(fault) => return told_without(alloc, failed_at(Which::Second, fault)),
    };
    let same = match same_files(alloc, comparison, front, second_file.text()) {
        Ok(same) => same,
        Err(at) => {
            let (shared, own) = second_file.into_parts();
            return told_of(at, first_file.into_bytes(), shared, own);
        }
    };
    match write_whole(writer, same_line(same)) {
        Ok(()) if same => told_without(alloc, Outcome::Done),
        Ok(()) => told_without(alloc, Outcome::Different),
        Err(Failed) => told_without(
            alloc,
            Outcome::Failed {
                which: None,
                fault: Fault::WriteFailed,
            },
        ),
    }
}

/// A fault of one of two files, and the bytes of that one. Those of the second are so many of the first's, or, where these are none, its own.
fn told_of(at: SameFault, first: Vec<u8>, shared: usize, own: Vec<u8>) -> Told
    requires within { shared ≤ length first.items }
    requires alone { 0 < shared → own.items ≡ [] }
    ensures outcome { result.outcome ≡ Outcome.Failed (Some at.which) at.fault }
    ensures bytes { result.bytes.items ≡ of_which at.which first.items (take shared first.items ++ own.items) }
{
    Told {
        outcome: failed_at(at.which, at.fault),
        bytes: match at.which {
            Which::First => first,
            Which::Second => second_bytes(first, shared, own),
        },
    }
}

/// So many bytes at the front of a file, or, where these are none, the others.
fn second_bytes(first: Vec<u8>, shared: usize, own: Vec<u8>) -> Vec<u8>
    requires within { shared ≤ length first.items }
    requires alone { 0 < shared → own.items ≡ [] }
    ensures { result.items ≡ take shared first.items ++ own.items }
{
    if shared == 0 {
        return own;
    }
    let mut front = first;
    front.truncate(shared);
    front
}

fn failed_at(which: Which, fault: Fault) -> Outcome
    ensures { result ≡ Outcome.Failed (Some which) fault }
{
    Outcome::Failed {
        which: Some(which),
        fault,
    }
}

/// The line that tells whether two files are the same.
fn same_line(same: bool) -> &'static [u8]
    ensures { result.now ≡ line_of_same same }
{
    if same { b"same\n" } else { b"different\n" }
}
