// Files that are accepted by settings.
ghost use Rattle.std.specs.Prelude.{IfOk, IfErr};
ghost use Rattle.ged_accept.specs.Accepted.{IsAccepted, FileFaultAt, IsRefusal};
ghost use Rattle.ged_tool.specs.Settings.{profile_of};
ghost use Rattle.ged_tool.specs.inner.FileTexts.{file_bytes};

use crate::calls::file_text::FileText;
use crate::settings::Settings;
use ged_accept::Accepted;
use ged_faults::Fault;
use ged_schema::Profile;
use std::alloc::Global;

/// What [`accept_as`] answers under the lenient profile. Grows.
pub fn accept(alloc: Global, bytes: &[u8]) -> Result<Accepted<'_>, Fault>
    ensures accepted { IfOk result (λ accepted. IsAccepted Profile.Lenient bytes.now accepted) }
    ensures refused { IfErr result (IsRefusal (FileFaultAt Profile.Lenient bytes.now)) }
{
    ged_accept::accept(alloc, Profile::Lenient, bytes)
}

/// The document of a file that is accepted under the profile of the settings, or why it is not.
///
/// Answers InFile with the file's first fault, or Memory where no memory was found, and no other fault. Grows: no
/// payload is copied (FamilySearch GEDCOM 7.0, "Lines", "Structures" and "Data types").
pub fn accept_as(alloc: Global, settings: Settings, bytes: &[u8]) -> Result<Accepted<'_>, Fault>
    ensures accepted { IfOk result (λ accepted. IsAccepted (profile_of settings) bytes.now accepted) }
    ensures refused { IfErr result (IsRefusal (FileFaultAt (profile_of settings) bytes.now)) }
{
    ged_accept::accept(alloc, settings.profile, bytes)
}

/// What [`accept_as`] answers, of a file that may be known to be a text. Grows.
pub(crate) fn accept_file(
    alloc: Global,
    settings: Settings,
    file: FileText<'_>,
) -> Result<Accepted<'_>, Fault>
    ensures accepted { IfOk result (λ accepted. IsAccepted (profile_of settings) (file_bytes file.entry) accepted) }
    ensures refused { IfErr result (IsRefusal (FileFaultAt (profile_of settings) (file_bytes file.entry))) }
{
    match file {
        FileText::Text(text) => ged_accept::accept_text(alloc, settings.profile, text),
        FileText::Bytes(bytes) => ged_accept::accept(alloc, settings.profile, bytes),
    }
}
