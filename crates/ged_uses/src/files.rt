// On ged_tool.
ghost use Rattle.std.specs.Prelude.{IfOk, IfErr};
ghost use Rattle.ged_schema.specs.declared.profile.Profile.{Profile};
ghost use Rattle.ged_accept.specs.Accepted.{FileFaultAt, IsRefusal};
ghost use Rattle.ged_canon.specs.declared.edition.Edition.{Edition};
ghost use Rattle.ged_tool.specs.Canon.{IsCanon};

use ged_tool::{Fault, Settings, canonicalise_as};
use std::alloc::Global;

/// The canonical bytes of a file without notices, in the second edition, or why there are none.
pub fn strict_canon(alloc: Global, bytes: &[u8]) -> Result<Vec<u8>, Fault>
    ensures canon { IfOk result (λ text. IsCanon Profile.Strict Edition.Second bytes.now text.items) }
    ensures refused { IfErr result (IsRefusal (FileFaultAt Profile.Strict bytes.now)) }
{
    canonicalise_as(alloc, Settings::new().strict().second(), bytes)
}
