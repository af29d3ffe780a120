// The run that tells the digest of a file: read the whole file, make its line, write it.
ghost use Rattle.std.specs.Prelude.{◌≡◌, ◌≤◌, false, MatchResult};
ghost use Rattle.ged_tool.specs.Limits.{greatest_limit};
ghost use Rattle.ged_tool.specs.Settings.{profile_of, edition_of};
ghost use Rattle.ged_tool.specs.RunDevices.{TellsDevices};
ghost use Rattle.ged_accept.specs.Accepted.{FileFaultAt, IsRefusal};
ghost use Rattle.ged_tool.specs.DigestRun.{IsKeptDigestRun, TellsDigest};
ghost use Rattle.ged_tool.specs.inner.FileTexts.{file_bytes};

use crate::calls::digest::digest_of;
use crate::calls::file_text::FileText;
use crate::calls::made::made_or_memory;
use crate::runs::digest_line::digest_line;
use crate::runs::reading::read_whole;
use crate::runs::told::{Told, told_with, told_without};
use crate::runs::whole_file::Validation;
use crate::settings::Settings;
use ged_devices::{Failed, Sink, Source, write_whole};
use ged_faults::{Fault, Outcome};
use std::alloc::Global;

/// Reads a file to the reader's end, and writes a line with its digest, under the profile and in the edition of the settings,
/// and its name, in the form of sha256sum.
///
/// The line is the digest as 64 hexadecimal digits with small letters, two spaces, the name and LF. In the name a backslash
/// is written as two, LF as a backslash and `n`, CR as a backslash and `r`; where one of them is in the name, the line begins
/// with a backslash. So each file has one line, whatever its name.
///
/// `limit`, the devices, the calls, the bytes that are kept and the outcome are as in [`run_told`](crate::run_told); InFile
/// comes where the file is not accepted. Memory is taken for the file as by that call, for its document and index, for what its canonical
/// form has that the file has not, and for the line and its digits.
pub fn run_digest<R: Source, W: Sink>(
    alloc: Global,
    settings: Settings,
    limit: u64,
    name: &str,
    reader: &mut R,
    writer: &mut W,
) -> Told
    requires limit { limit ≤ greatest_limit }
    requires unread { R.reads reader.old ≡ 0 }
    requires no_failure { (R.failed reader.old ≡ false) × (W.failed writer.old ≡ false) }
    ensures devices { TellsDevices limit (R.reads reader.new) (R.failed reader.new) (W.failed writer.new) result.outcome }
    ensures bytes { IsKeptDigestRun (profile_of settings) (edition_of settings) name.now limit (R.to_come reader.old) (R.to_come reader.new)
        (W.taken writer.old) (W.taken writer.new) result.outcome result.bytes.items }
    ensures fate { W.fate writer.new ≡ W.fate writer.old }
{
    let file = match read_whole(alloc, limit, Validation::AsItComes, &[], reader) {
        Ok(file) => file,
        Err(fault) => return told_without(alloc, Outcome::Failed { which: None, fault }),
    };
    let line = match line_of(alloc, settings, name, file.text()) {
        Ok(line) => line,
        Err(fault) => return told_with(fault, file.into_bytes()),
    };
    match write_whole(writer, &line) {
        Ok(()) => Told {
            outcome: Outcome::Done,
            bytes: file.into_bytes(),
        },
        Err(Failed) => told_with(Fault::WriteFailed, file.into_bytes()),
    }
}

/// The line that tells the digest of a file, or why there is none: a fault of the file, or want of memory.
fn line_of(
    alloc: Global,
    settings: Settings,
    name: &str,
    file: FileText<'_>,
) -> Result<Vec<u8>, Fault>
    ensures { MatchResult result (λ line. TellsDigest (profile_of settings) (edition_of settings) name.now (file_bytes file.entry) line.items)
        (IsRefusal (FileFaultAt (profile_of settings) (file_bytes file.entry))) }
{
    let digest = match digest_of(alloc, settings, file) {
        Ok(digest) => digest,
        Err(fault) => return Err(fault),
    };
    made_or_memory(digest_line(alloc, &digest, name))
}
