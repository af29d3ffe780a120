// The spelling of a document, and its canonical form.
ghost use Rattle.std.specs.Prelude.{◌≡◌, true, IfOk};
ghost use Rattle.ged_tree.specs.Trees.{Trees};
ghost use Rattle.ged_tree.specs.Documents.{is_document};
ghost use Rattle.ged_tree.specs.Building.{HasFile};
ghost use Rattle.ged_link.specs.Indexes.{IsIndexOf};
ghost use Rattle.ged_schema.specs.Checked.{Checked};
ghost use Rattle.ged_canon.specs.CanonText.{CanonText};
ghost use Rattle.ged_canon.specs.Normal.{Normal, IsNormalForm};
ghost use Rattle.ged_canon.specs.declared.edition.Edition.TheVariants.{First};

use crate::copying::document_of;
use crate::document::Document;
use crate::lines::to_lines;
use ged_canon::{Edition, canonical_bytes_in};
use ged_line::write_lines;
use ged_link::Index;
use ged_tree::{BuildFault, Flat, flatten};
use std::alloc::{AllocError, Global};

/// The canonical spelling of a document: the byte order mark, and each line with LF, without a space after the tag of an empty
/// value. The document is written as it is, in its own order and with its own identifiers. Grows
/// (FamilySearch GEDCOM 7.0, "Lines" and "Structures").
pub fn write_document(alloc: Global, document: &Document) -> Result<Vec<u8>, AllocError>
    ensures text { IfOk result (λ bytes. CanonText document.now bytes.items) }
    ensures document { is_document document.now ≡ true }
{
    let lines = to_lines(alloc, document)?;
    write_lines(alloc, lines.as_slice())
}

/// The table of a file that is known to have a document.
fn known_table(alloc: Global, file: &[u8]) -> Result<Flat<'_>, AllocError>
    requires { (d : Trees) × HasFile d file.now }
    ensures { (d : Trees) → HasFile d file.now → IfOk result (λ flat. flat ≡ d) }
{
    match flatten(alloc, file) {
        Ok(flat) => Ok(flat),
        Err(BuildFault::Memory(error)) => Err(error),
        Err(BuildFault::At(_)) => unreachable!(),
    }
}

/// The document of a file that is known to have one.
fn known_document(alloc: Global, file: &[u8]) -> Result<Document, AllocError>
    requires { (d : Trees) × HasFile d file.now }
    ensures { (d : Trees) → HasFile d file.now → IfOk result (λ document. document ≡ d) }
{
    let table = known_table(alloc, file)?;
    document_of(alloc, &table)
}

/// The canonical form of a document that is as the structure tables ask, where the index is the document's: substructures and
/// records in the order of their tags, where those with one tag keep their order and HEAD stays first; the records that
/// pointers name with the identifiers X1, X2, and so on, the others with none; and payloads without what has no meaning.
/// It is read from the bytes that [`canonical_bytes_in`] gives.
/// Grows (FamilySearch GEDCOM 7.0, "Structures", "Lines", "Date" and "Integer").
pub fn canonical_in(
    alloc: Global,
    edition: Edition,
    document: &Document,
    index: &Index,
) -> Result<Document, AllocError>
    requires index { IsIndexOf document.now index.now }
    requires checked { Checked document.now }
    ensures normal_form { IfOk result (λ canonical. IsNormalForm edition document.now canonical) }
    ensures same { Normal edition document.now → IfOk result (λ canonical. canonical ≡ document.now) }
{
    let file = write_document(alloc, document)?;
    let table = known_table(alloc, file.as_slice())?;
    let form = canonical_bytes_in(alloc, edition, &table, index)?;
    known_document(alloc, form.as_slice())
}

/// The canonical form of the first edition, as [`canonical_in`] gives it. Grows.
pub fn canonical(alloc: Global, document: &Document, index: &Index) -> Result<Document, AllocError>
    requires index { IsIndexOf document.now index.now }
    requires checked { Checked document.now }
    ensures normal_form { IfOk result (λ canonical. IsNormalForm First document.now canonical) }
    ensures same { Normal First document.now → IfOk result (λ canonical. canonical ≡ document.now) }
{
    canonical_in(alloc, Edition::First, document, index)
}
