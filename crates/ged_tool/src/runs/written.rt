// Answers on their way to a writer: nothing is written before the whole answer is made.
ghost use Rattle.std.specs.Prelude.{◌≡◌, ◌++◌, ◌<◌, ◌↔◌, false, length, IsTrue, IsErrOf, IfErr, OnErr, OnOk};
ghost use Rattle.std.specs.Io.KnownBytes.{Appends};
ghost use Rattle.std.specs.Io.{StartsWith};
ghost use Rattle.ged_line.specs.Bytes.{Bytes};
ghost use Rattle.ged_line.specs.Files.{joined_parts};
ghost use Rattle.ged_tool.specs.Settings.{profile_of, edition_of};
ghost use Rattle.ged_accept.specs.Accepted.{FileFaultAt};
ghost use Rattle.ged_tool.specs.Answers.{Answers, FaultAt};
ghost use Rattle.ged_tool.specs.Same.{IsInForm};
ghost use Rattle.ged_tool.specs.inner.FileTexts.{file_bytes};
ghost use Rattle.ged_tool.specs.inner.Steps.{IsWritten, StopsAnswering};

use crate::calls::accept::accept_file;
use crate::calls::file_text::FileText;
use crate::calls::spell::spell_form;
use crate::comparison::Form;
use crate::runs::answer::{Command, answer_file};
use crate::settings::Settings;
use ged_accept::write_shown;
use ged_canon::{Edition, FormReader};
use ged_devices::{Failed, Sink, write_whole};
use ged_faults::Fault;
use ged_line::{SpelledPart, respell_parts};
use ged_schema::Profile;
use std::alloc::Global;

/// How many bytes of a form, or of what is shown, are written at a time.
const BUFFER: usize = 65536;

/// Makes the answer to a file and writes it. Only that of Check stands in memory as a whole.
pub(crate) fn write_answer<W: Sink>(
    alloc: Global,
    settings: Settings,
    command: Command,
    file: FileText<'_>,
    writer: &mut W,
) -> Result<(), Fault>
    requires { W.failed writer.old ≡ false }
    ensures failed { IsTrue (W.failed writer.new) ↔ IsErrOf result Fault.WriteFailed }
    ensures ok { OnOk result (IsWritten (Answers (profile_of settings) (edition_of settings) command (file_bytes file.entry))
        (W.taken writer.old) (W.taken writer.new)) }
    ensures err { IfErr result (λ fault. StopsAnswering (Answers (profile_of settings) (edition_of settings) command (file_bytes file.entry))
        (FaultAt (profile_of settings) command (file_bytes file.entry)) (W.taken writer.old) (W.taken writer.new) fault) }
    ensures fate { W.fate writer.new ≡ W.fate writer.old }
{
    match command {
        Command::Lines => write_lines(alloc, file.bytes(), writer),
        Command::Show => write_show(alloc, settings, file, writer),
        Command::Canon => write_form(alloc, settings, Form::Canonical, file, writer),
        Command::Tidy => write_form(alloc, settings, Form::Tidy, file, writer),
        _ => write_text(alloc, settings, command, file, writer),
    }
}

/// The same for an answer that is made in one text.
fn write_text<W: Sink>(
    alloc: Global,
    settings: Settings,
    command: Command,
    file: FileText<'_>,
    writer: &mut W,
) -> Result<(), Fault>
    requires { W.failed writer.old ≡ false }
    ensures failed { IsTrue (W.failed writer.new) ↔ IsErrOf result Fault.WriteFailed }
    ensures ok { OnOk result (IsWritten (Answers (profile_of settings) (edition_of settings) command (file_bytes file.entry))
        (W.taken writer.old) (W.taken writer.new)) }
    ensures err { IfErr result (λ fault. StopsAnswering (Answers (profile_of settings) (edition_of settings) command (file_bytes file.entry))
        (FaultAt (profile_of settings) command (file_bytes file.entry)) (W.taken writer.old) (W.taken writer.new) fault) }
    ensures fate { W.fate writer.new ≡ W.fate writer.old }
{
    let text = match answer_file(alloc, settings, command, file) {
        Ok(text) => text,
        Err(fault) => return Err(fault),
    };
    match write_whole(writer, &text) {
        Ok(()) => Ok(()),
        Err(Failed) => Err(Fault::WriteFailed),
    }
}

/// The same for the lines of a file.
fn write_lines<W: Sink>(alloc: Global, bytes: &[u8], writer: &mut W) -> Result<(), Fault>
    requires { W.failed writer.old ≡ false }
    ensures failed { IsTrue (W.failed writer.new) ↔ IsErrOf result Fault.WriteFailed }
    ensures ok { OnOk result (IsWritten (Answers Profile.Lenient Edition.First Command.Lines bytes.now)
        (W.taken writer.old) (W.taken writer.new)) }
    ensures err { IfErr result (λ fault. StopsAnswering (Answers Profile.Lenient Edition.First Command.Lines bytes.now)
        (FaultAt Profile.Lenient Command.Lines bytes.now) (W.taken writer.old) (W.taken writer.new) fault) }
    ensures fate { W.fate writer.new ≡ W.fate writer.old }
{
    let parts = respell_parts(alloc, bytes)?;
    match write_parts(writer, &parts) {
        Ok(()) => Ok(()),
        Err(Failed) => Err(Fault::WriteFailed),
    }
}

/// The same for what a file that is accepted shows. It goes through a buffer, which is taken before the first byte is written.
fn write_show<W: Sink>(
    alloc: Global,
    settings: Settings,
    file: FileText<'_>,
    writer: &mut W,
) -> Result<(), Fault>
    requires { W.failed writer.old ≡ false }
    ensures failed { IsTrue (W.failed writer.new) ↔ IsErrOf result Fault.WriteFailed }
    ensures ok { OnOk result (IsWritten (Answers (profile_of settings) (edition_of settings) Command.Show (file_bytes file.entry))
        (W.taken writer.old) (W.taken writer.new)) }
    ensures err { IfErr result (λ fault. StopsAnswering (Answers (profile_of settings) (edition_of settings) Command.Show (file_bytes file.entry))
        (FaultAt (profile_of settings) Command.Show (file_bytes file.entry)) (W.taken writer.old) (W.taken writer.new) fault) }
    ensures fate { W.fate writer.new ≡ W.fate writer.old }
{
    let mut buffer = match Vec::with_capacity(alloc, BUFFER) {
        Ok(buffer) => buffer,
        Err(error) => return Err(Fault::Memory(error)),
    };
    match accept_file(alloc, settings, file) {
        Ok(accepted) => match write_shown(&accepted, &mut buffer, writer) {
            Ok(()) => Ok(()),
            Err(Failed) => Err(Fault::WriteFailed),
        },
        Err(fault) => Err(fault),
    }
}

/// The same for a file in a form. It goes through a buffer, which is taken before the first byte is written.
fn write_form<W: Sink>(
    alloc: Global,
    settings: Settings,
    form: Form,
    file: FileText<'_>,
    writer: &mut W,
) -> Result<(), Fault>
    requires { W.failed writer.old ≡ false }
    ensures failed { IsTrue (W.failed writer.new) ↔ IsErrOf result Fault.WriteFailed }
    ensures ok { OnOk result (IsWritten (IsInForm form (profile_of settings) (edition_of settings) (file_bytes file.entry))
        (W.taken writer.old) (W.taken writer.new)) }
    ensures err { IfErr result (λ fault. StopsAnswering (IsInForm form (profile_of settings) (edition_of settings) (file_bytes file.entry))
        (FileFaultAt (profile_of settings) (file_bytes file.entry)) (W.taken writer.old) (W.taken writer.new) fault) }
    ensures fate { W.fate writer.new ≡ W.fate writer.old }
{
    let spelled = match spell_form(alloc, settings, form, file) {
        Ok(spelled) => spelled,
        Err(fault) => return Err(fault),
    };
    let mut buffer = match vec![in alloc; 0u8; BUFFER] {
        Ok(buffer) => buffer,
        Err(error) => return Err(Fault::Memory(error)),
    };
    match write_through(writer, spelled.reader(), &mut buffer) {
        Ok(()) => Ok(()),
        Err(Failed) => Err(Fault::WriteFailed),
    }
}

/// Writes all that a reader has, a buffer at a time.
fn write_through<W: Sink>(
    writer: &mut W,
    mut reader: FormReader<'_>,
    buffer: &mut [u8],
) -> Result<(), Failed>
    requires failed { W.failed writer.old ≡ false }
    requires room { 0 < length buffer.old }
    ensures ok { OnOk result ((W.failed writer.new ≡ false)
        × Appends (W.taken writer.old) (W.taken writer.new) reader.entry) }
    ensures err { OnErr result (IsTrue (W.failed writer.new) × (written : Bytes)
        × Appends (W.taken writer.old) (W.taken writer.new) written × StartsWith reader.entry written) }
    ensures fate { W.fate writer.new ≡ W.fate writer.old }
{
    loop {
        let count = reader.fill(buffer);
        if count == 0 {
            return Ok(());
        }
        match write_whole(writer, &buffer[..count]) {
            Ok(()) => {}
            Err(Failed) => return Err(Failed),
        }
    }
}

/// Writes all parts of a spelling, one behind the other.
fn write_parts<W: Sink>(writer: &mut W, parts: &[SpelledPart<'_>]) -> Result<(), Failed>
    requires { W.failed writer.old ≡ false }
    ensures ok { OnOk result ((W.failed writer.new ≡ false)
        × Appends (W.taken writer.old) (W.taken writer.new) (joined_parts parts.now)) }
    ensures err { OnErr result (IsTrue (W.failed writer.new) × (written : Bytes)
        × Appends (W.taken writer.old) (W.taken writer.new) written × StartsWith (joined_parts parts.now) written) }
    ensures fate { W.fate writer.new ≡ W.fate writer.old }
{
    for part in parts {
        match write_both(writer, &part.made, part.kept) {
            Ok(()) => {}
            Err(Failed) => return Err(Failed),
        }
    }
    Ok(())
}

/// Writes all of a text, then all of another.
fn write_both<W: Sink>(writer: &mut W, first: &[u8], second: &[u8]) -> Result<(), Failed>
    requires { W.failed writer.old ≡ false }
    ensures ok { OnOk result ((W.failed writer.new ≡ false)
        × Appends (W.taken writer.old) (W.taken writer.new) (first.now ++ second.now)) }
    ensures err { OnErr result (IsTrue (W.failed writer.new) × (written : Bytes)
        × Appends (W.taken writer.old) (W.taken writer.new) written × StartsWith (first.now ++ second.now) written) }
    ensures fate { W.fate writer.new ≡ W.fate writer.old }
{
    match write_whole(writer, first) {
        Ok(()) => {}
        Err(Failed) => return Err(Failed),
    }
    match write_whole(writer, second) {
        Ok(()) => Ok(()),
        Err(Failed) => Err(Failed),
    }
}
