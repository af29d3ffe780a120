// The canonical bytes of a file.
ghost use Rattle.std.specs.Prelude.{◌≡◌, IfOk, IfErr};
ghost use Rattle.ged_tool.specs.Settings.{profile_of, edition_of};
ghost use Rattle.ged_accept.specs.Accepted.{FileFaultAt, IsRefusal};
ghost use Rattle.ged_tool.specs.Canon.{IsCanon};
ghost use Rattle.ged_tool.specs.Headline.{Headline, AgreesWithFirst};

use crate::calls::spell::bytes_in_form;
use crate::comparison::Form;
use crate::settings::Settings;
use ged_canon::Edition;
use ged_faults::Fault;
use ged_schema::Profile;
use std::alloc::Global;

/// What [`canonicalise_as`] answers under the lenient profile and in the first edition. Grows.
pub fn canonicalise(alloc: Global, bytes: &[u8]) -> Result<Vec<u8>, Fault>
    ensures canon { IfOk result (λ text. IsCanon Profile.Lenient Edition.First bytes.now text.items) }
    ensures headline { IfOk result (λ text. Headline Profile.Lenient Edition.First bytes.now text.items) }
    ensures refused { IfErr result (IsRefusal (FileFaultAt Profile.Lenient bytes.now)) }
{
    canonicalise_as(alloc, Settings::new(), bytes)
}

/// The canonical bytes of a file that is accepted under the profile of the settings, in their edition, or why it is not
/// accepted.
///
/// The bytes begin with the byte order mark, and each line ends with LF; an empty value has no space before the line's
/// end. Substructures and records stand in the order of their tags, where those with one tag keep their order. The
/// records that pointers name have the identifiers X1, X2, and so on, and the others none. Dates are without the default
/// calendar's keyword, and in the second edition dates, ages and counts without leading zeros.
///
/// For two accepted files these bytes are equal exactly where the files say the same: what that means is the contract.
///
/// Answers InFile with the file's first fault, or Memory where no memory was found, and no other fault. Grows
/// (FamilySearch GEDCOM 7.0, "Lines", "Structures", "Date" and "Integer").
pub fn canonicalise_as(alloc: Global, settings: Settings, bytes: &[u8]) -> Result<Vec<u8>, Fault>
    ensures canon { IfOk result (λ text. IsCanon (profile_of settings) (edition_of settings) bytes.now text.items) }
    ensures headline { IfOk result (λ text. Headline (profile_of settings) (edition_of settings) bytes.now text.items) }
    ensures editions { edition_of settings ≡ Edition.Second
        → IfOk result (λ text. AgreesWithFirst (profile_of settings) bytes.now text.items) }
    ensures refused { IfErr result (IsRefusal (FileFaultAt (profile_of settings) bytes.now)) }
{
    bytes_in_form(alloc, settings, Form::Canonical, bytes)
}
