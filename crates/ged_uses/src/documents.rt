// On ged_document.
ghost use Rattle.std.specs.Prelude.{IfOk, IfErr};
ghost use Rattle.ged_tree.specs.Building.{HasFile, TellsFile};

use ged_document::{Document, document_of};
use ged_tree::{BuildFault, flatten};
use std::alloc::Global;

/// The document of a file, which outlives the file's bytes, or the file's first fault. Grows.
pub fn keep_document(alloc: Global, file: &[u8]) -> Result<Document, BuildFault>
    ensures document { IfOk result (λ document. HasFile document file.now) }
    ensures fault { IfErr result (λ fault. TellsFile fault file.now) }
{
    let flat = flatten(alloc, file)?;
    match document_of(alloc, &flat) {
        Ok(document) => Ok(document),
        Err(error) => Err(BuildFault::Memory(error)),
    }
}
