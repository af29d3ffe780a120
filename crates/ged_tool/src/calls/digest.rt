// The digest of a file: the SHA-256 of its canonical bytes.
ghost use Rattle.std.specs.Prelude.{◌≡◌, IfOk, IfErr};
ghost use Rattle.sha2.specs.Sha256.{sha256};
ghost use Rattle.ged_tool.specs.Settings.{profile_of, edition_of};
ghost use Rattle.ged_accept.specs.Accepted.{FileFaultAt, IsRefusal};
ghost use Rattle.ged_tool.specs.Digest.{IsDigest};
ghost use Rattle.ged_tool.specs.inner.FileTexts.{file_bytes};

use crate::calls::file_text::FileText;
use crate::calls::spell::spell_form;
use crate::comparison::Form;
use crate::settings::Settings;
use ged_canon::{Edition, FormReader};
use ged_faults::Fault;
use ged_schema::Profile;
use sha2::{Digest, Sha256};
use std::alloc::Global;

/// What [`digest_as`] answers under the lenient profile and in the first edition. Grows.
pub fn digest(alloc: Global, bytes: &[u8]) -> Result<[u8; 32], Fault>
    ensures digest { IfOk result (λ digest. IsDigest Profile.Lenient Edition.First bytes.now digest) }
    ensures refused { IfErr result (IsRefusal (FileFaultAt Profile.Lenient bytes.now)) }
{
    digest_as(alloc, Settings::new(), bytes)
}

/// The digest of a file that is accepted under the profile of the settings, or why it is not accepted: the 32 bytes of the
/// SHA-256 of what [`canonicalise_as`](crate::canonicalise_as) answers.
///
/// Two accepted files that are the same have the same digest. Two that are not have different ones, unless somebody has found
/// two texts of one SHA-256; no proof rests on that.
///
/// Answers InFile with the file's first fault, or Memory where no memory was found, and no other fault. Grows, but
/// the canonical bytes never stand in memory as a whole (FIPS 180-4; FamilySearch GEDCOM 7.0, "Lines", "Structures", "Date" and "Integer").
pub fn digest_as(alloc: Global, settings: Settings, bytes: &[u8]) -> Result<[u8; 32], Fault>
    ensures digest { IfOk result (λ digest. IsDigest (profile_of settings) (edition_of settings) bytes.now digest) }
    ensures refused { IfErr result (IsRefusal (FileFaultAt (profile_of settings) bytes.now)) }
{
    digest_of(alloc, settings, FileText::Bytes(bytes))
}

/// What [`digest_as`] answers, of a file that may be known to be a text. Grows.
pub(crate) fn digest_of(
    alloc: Global,
    settings: Settings,
    file: FileText<'_>,
) -> Result<[u8; 32], Fault>
    ensures digest { IfOk result (λ digest. IsDigest (profile_of settings) (edition_of settings) (file_bytes file.entry) digest) }
    ensures refused { IfErr result (IsRefusal (FileFaultAt (profile_of settings) (file_bytes file.entry))) }
{
    match spell_form(alloc, settings, Form::Canonical, file) {
        Ok(form) => Ok(sha256_of(form.reader())),
        Err(fault) => Err(fault),
    }
}

/// The SHA-256 of all that a reader has.
fn sha256_of(mut reader: FormReader<'_>) -> [u8; 32]
    ensures { result ≡ sha256 reader.entry }
{
    let mut hasher = Sha256::new();
    let mut buffer = [0u8; 4096];
    loop {
        let count = reader.fill(&mut buffer);
        if count == 0 {
            return hasher.finalize();
        }
        hasher.update(&buffer[..count]);
    }
}
