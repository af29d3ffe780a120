// What a command answers to the bytes of a file.
ghost use Rattle.std.specs.Prelude.{MatchResult};
ghost use Rattle.ged_tool.specs.Settings.{profile_of, edition_of};
ghost use Rattle.ged_accept.specs.Accepted.{IsRefusal};
ghost use Rattle.ged_tool.specs.Answers.{Answers, FaultAt};
ghost use Rattle.ged_tool.specs.inner.FileTexts.{file_bytes};

use crate::calls::accept::accept_file;
use crate::calls::canonicalise::canonicalise_as;
use crate::calls::file_text::FileText;
use crate::calls::made::made_or_memory;
use crate::calls::tidy::tidy_as;
use crate::settings::Settings;
use ged_accept::{show_text, verdict};
use ged_canon::Edition;
use ged_faults::Fault;
use ged_line::respell_lines;
use ged_schema::Profile;
use std::alloc::Global;

/// What to answer about one file.
#[derive(Clone, Copy, PartialEq, Eq, Debug)]
pub enum Command {
    /// A byte order mark and the file's lines in their canonical spelling. Each line is judged by itself, whatever the
    /// profile, so the faults that it tells are those from NotUtf8 to BadValue.
    Lines,
    /// A line for each notice of a file that is accepted, in order, and the line `accepted`.
    Check,
    /// What [`show_text`] answers for a file that is accepted.
    Show,
    /// What [`canonicalise_as`] answers.
    Canon,
    /// What [`tidy_as`] answers.
    Tidy,
}

/// The whole answer to a file, or why there is none.
///
/// Answers InFile with the fault of the file that the command tells, or Memory where no memory was found, and no other fault.
/// Grows.
pub fn answer(
    alloc: Global,
    settings: Settings,
    command: Command,
    bytes: &[u8],
) -> Result<Vec<u8>, Fault>
    ensures { MatchResult result (λ text. Answers (profile_of settings) (edition_of settings) command bytes.now text.items)
        (IsRefusal (FaultAt (profile_of settings) command bytes.now)) }
{
    answer_file(alloc, settings, command, FileText::Bytes(bytes))
}

/// The same of a file that may be known to be a text.
pub(crate) fn answer_file(
    alloc: Global,
    settings: Settings,
    command: Command,
    file: FileText<'_>,
) -> Result<Vec<u8>, Fault>
    ensures { MatchResult result (λ text. Answers (profile_of settings) (edition_of settings) command (file_bytes file.entry) text.items)
        (IsRefusal (FaultAt (profile_of settings) command (file_bytes file.entry))) }
{
    match command {
        Command::Lines => answer_lines(alloc, file.bytes()),
        Command::Check => answer_check(alloc, settings, file),
        Command::Show => answer_show(alloc, settings, file),
        Command::Canon => canonicalise_as(alloc, settings, file.bytes()),
        Command::Tidy => tidy_as(alloc, settings, file.bytes()),
    }
}

fn answer_lines(alloc: Global, bytes: &[u8]) -> Result<Vec<u8>, Fault>
    ensures { MatchResult result (λ text. Answers Profile.Lenient Edition.First Command.Lines bytes.now text.items)
        (IsRefusal (FaultAt Profile.Lenient Command.Lines bytes.now)) }
{
    Ok(respell_lines(alloc, bytes)?)
}

fn answer_check(alloc: Global, settings: Settings, file: FileText<'_>) -> Result<Vec<u8>, Fault>
    ensures { MatchResult result (λ text. Answers (profile_of settings) (edition_of settings) Command.Check (file_bytes file.entry) text.items)
        (IsRefusal (FaultAt (profile_of settings) Command.Check (file_bytes file.entry))) }
{
    match accept_file(alloc, settings, file) {
        Ok(accepted) => made_or_memory(verdict(alloc, &accepted)),
        Err(fault) => Err(fault),
    }
}

fn answer_show(alloc: Global, settings: Settings, file: FileText<'_>) -> Result<Vec<u8>, Fault>
    ensures { MatchResult result (λ text. Answers (profile_of settings) (edition_of settings) Command.Show (file_bytes file.entry) text.items)
        (IsRefusal (FaultAt (profile_of settings) Command.Show (file_bytes file.entry))) }
{
    match accept_file(alloc, settings, file) {
        Ok(accepted) => made_or_memory(show_text(alloc, &accepted)),
        Err(fault) => Err(fault),
    }
}
