// On ged_explain.
ghost use Rattle.std.specs.Prelude.{ℕ, IfOk, MatchOption, string_bytes};
ghost use Rattle.ged_tree.specs.Trees.{Trees};
ghost use Rattle.ged_schema.specs.declared.profile.Profile.{Profile};
ghost use Rattle.ged_accept.specs.Accepted.{FileFaultAt, IsAccepted};
ghost use Rattle.ged_faults.specs.declared.faults.FileFault.{FileFault};
ghost use Rattle.ged_explain.specs.Openings.{Opens};

use ged_explain::explain_fault;
use ged_tool::{Fault, accept};
use std::alloc::{AllocError, Global};

/// What is wrong with a file of this name, in words; `None` if it is accepted. Want of memory is no fault of the file.
pub fn say_fault(alloc: Global, bytes: &[u8], name: &str) -> Result<Option<String>, AllocError>
    ensures { IfOk result (λ said. MatchOption said
        ((document : Trees) × IsAccepted Profile.Lenient bytes.now document)
        (λ text. (line : ℕ) × (kind : FileFault) × FileFaultAt Profile.Lenient bytes.now line kind
        × Opens name.now bytes.now (Fault.InFile line kind) (string_bytes text))) }
{
    match accept(alloc, bytes) {
        Ok(_) => Ok(None),
        Err(Fault::Memory(error)) => Err(error),
        Err(fault) => {
            let text = explain_fault(alloc, bytes, &fault, name)?;
            Ok(Some(text))
        }
    }
}
