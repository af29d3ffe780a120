// On ged_canon.
ghost use Rattle.std.specs.Prelude.{◌≡◌, ◌⊎◌, IfOk, IfErr, MatchOption, alloc_error};
ghost use Rattle.ged_tree.specs.Trees.{Trees};
ghost use Rattle.ged_link.specs.LinkFaults.{HasLinkFault};
ghost use Rattle.ged_schema.specs.declared.fault.SchemaAt.{SchemaAt};
ghost use Rattle.ged_schema.specs.Faults.{IsFirstFault};
ghost use Rattle.ged_canon.specs.Normal.{IsNormalForm};
ghost use Rattle.ged_canon.specs.CanonText.{CanonText};
ghost use Rattle.ged_canon.specs.declared.edition.Edition.TheVariants.{First};

use ged_canon::canonical_bytes;
use ged_link::{LinkFault, resolve};
use ged_schema::check;
use ged_tree::Forest;
use std::alloc::Global;

/// The canonical bytes of a document, or `None` if the tables find a fault; or the fault of its cross-references.
pub fn canonical_if_checked<F: Forest>(
    alloc: Global,
    forest: &F,
) -> Result<Option<Vec<u8>>, LinkFault>
    ensures made { IfOk result (λ made. MatchOption made
        ((at : SchemaAt) × IsFirstFault (F.trees forest.now) at)
        (λ text. (normal : Trees) × IsNormalForm First (F.trees forest.now) normal × CanonText normal text.items)) }
    ensures fault { IfErr result (λ fault. (fault ≡ LinkFault.Memory alloc_error) ⊎ HasLinkFault (F.trees forest.now) fault) }
{
    let index = resolve(alloc, forest)?;
    if let Err(_) = check(forest, &index) {
        return Ok(None);
    }
    match canonical_bytes(alloc, forest, &index) {
        Ok(bytes) => Ok(Some(bytes)),
        Err(error) => Err(LinkFault::Memory(error)),
    }
}
