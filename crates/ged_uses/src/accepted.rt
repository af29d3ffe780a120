// On ged_accept.
ghost use Rattle.std.specs.Prelude.{IfOk, IfErr};
ghost use Rattle.ged_tree.specs.Trees.{Trees};
ghost use Rattle.ged_accept.specs.Accepted.{IsAccepted, FileFaultAt, IsRefusal};
ghost use Rattle.ged_accept.specs.Notices.{AreNotices};

use ged_accept::{accept, notices};
use ged_faults::Fault;
use ged_link::Notice;
use ged_schema::Profile;
use std::alloc::Global;

/// All notices of a file that is accepted, or why it is not. Grows.
pub fn notices_of(alloc: Global, file: &[u8]) -> Result<Vec<Notice>, Fault>
    ensures notices { IfOk result (λ notices. (document : Trees)
        × IsAccepted Profile.Lenient file.now document × AreNotices document notices.items) }
    ensures refused { IfErr result (IsRefusal (FileFaultAt Profile.Lenient file.now)) }
{
    let accepted = accept(alloc, Profile::Lenient, file)?;
    match notices(alloc, &accepted) {
        Ok(notices) => Ok(notices),
        Err(error) => Err(Fault::Memory(error)),
    }
}
