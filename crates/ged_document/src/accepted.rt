// The document of a file that is accepted.
ghost use Rattle.std.specs.Prelude.{◌≡◌, IfOk};
ghost use Rattle.ged_tree.specs.Trees.{Trees};

use crate::copying::document_of;
use crate::document::Document;
use ged_accept::Accepted;
use std::alloc::{AllocError, Global};

/// What has a document, and can give it as nodes that own their texts.
pub trait ToDocument {
    /// The document, as contracts see it.
    ghost trees: { Self → Trees };

    /// The document as nodes of its own. Grows.
    fn document(&self, alloc: Global) -> Result<Document, AllocError>
        ensures { IfOk result (λ document. document ≡ trees self.now) };
}

impl ToDocument for Accepted<'_> {
    ghost trees = { λ accepted. accepted };

    fn document(&self, alloc: Global) -> Result<Document, AllocError> {
        document_of(alloc, self.flat())
    }
}
