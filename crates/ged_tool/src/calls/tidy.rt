// The tidy bytes of a file.
ghost use Rattle.std.specs.Prelude.{IfOk, IfErr};
ghost use Rattle.ged_tool.specs.Settings.{profile_of, edition_of};
ghost use Rattle.ged_accept.specs.Accepted.{FileFaultAt, IsRefusal};
ghost use Rattle.ged_tool.specs.Tidied.{IsTidied, TidyHeadline};

use crate::calls::spell::bytes_in_form;
use crate::comparison::Form;
use crate::settings::Settings;
use ged_canon::Edition;
use ged_faults::Fault;
use ged_schema::Profile;
use std::alloc::Global;

/// What [`tidy_as`] answers under the lenient profile and in the first edition. Grows.
pub fn tidy(alloc: Global, bytes: &[u8]) -> Result<Vec<u8>, Fault>
    ensures tidied { IfOk result (λ text. IsTidied Profile.Lenient Edition.First bytes.now text.items) }
    ensures headline { IfOk result (λ text. TidyHeadline Profile.Lenient Edition.First bytes.now text.items) }
    ensures refused { IfErr result (IsRefusal (FileFaultAt Profile.Lenient bytes.now)) }
{
    tidy_as(alloc, Settings::new(), bytes)
}

/// The tidy bytes of a file that is accepted under the profile of the settings, in their edition, or why it is not accepted.
///
/// They are written as those of [`canonicalise_as`](crate::canonicalise_as), but each record has the identifier that it has in
/// the file, or none, and each pointer names the record that it names there. So they keep apart files that say the same under
/// other identifiers, and a record that is put in or taken out changes no line of the others but those that point to it.
///
/// Answers InFile with the file's first fault, or Memory where no memory was found, and no other fault. Grows
/// (FamilySearch GEDCOM 7.0, "Lines", "Structures", "Date" and "Integer").
pub fn tidy_as(alloc: Global, settings: Settings, bytes: &[u8]) -> Result<Vec<u8>, Fault>
    ensures tidied { IfOk result (λ text. IsTidied (profile_of settings) (edition_of settings) bytes.now text.items) }
    ensures headline { IfOk result (λ text. TidyHeadline (profile_of settings) (edition_of settings) bytes.now text.items) }
    ensures refused { IfErr result (IsRefusal (FileFaultAt (profile_of settings) bytes.now)) }
{
    bytes_in_form(alloc, settings, Form::Tidy, bytes)
}
