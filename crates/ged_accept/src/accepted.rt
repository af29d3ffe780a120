// Files that are accepted.
ghost use Rattle.std.specs.Prelude.{◌≡◌, ◌⊎◌, IfOk, IfErr, alloc_error};
ghost use Rattle.ged_line.specs.Bytes.{Bytes};
ghost use Rattle.ged_tree.specs.Trees.{Trees};
ghost use Rattle.ged_tree.specs.DocumentLines.{document_lines};
ghost use Rattle.ged_tree.specs.Building.{TellsFile};
ghost use Rattle.ged_link.specs.Links.{Resolved};
ghost use Rattle.ged_link.specs.LinkFaults.{HasLinkFault};
ghost use Rattle.ged_link.specs.Indexes.{IsIndexOf};
ghost use Rattle.ged_schema.specs.Checked.{Checked};
ghost use Rattle.ged_schema.specs.Profiles.{CheckedAs};
ghost use Rattle.ged_schema.specs.Unlisted.{IsCoverage};
ghost use Rattle.ged_accept.specs.Accepted.{IsAccepted, FileFaultAt, IsRefusal, DocumentFaultAt, LinesFaultAt, TablesFaultAt, XrefFaultAt};
ghost use Rattle.ged_accept.specs.inner.Accepting.{IsAcceptable};

use crate::readers::Readers;
use ged_faults::{Fault, FileFault};
use ged_link::{Index, LinkFault, resolve_with};
use ged_schema::{Coverage, LineWalk, Profile, check_walked};
use ged_tree::{BuildFault, Flat, LineReader, flatten_text_with, flatten_with};
use std::alloc::{AllocError, Global};
use std::marker::Model;

/// A file that is accepted: its document, whose texts are slices of the file, the index of its records, and whether the
/// tables list each of its standard tags. Contracts see the document.
#[derive(Drop)]
pub struct Accepted<'a> {
    flat: Flat<'a>,
    index: Index,
    coverage: Coverage,
}

impl<'a> Model for Accepted<'a> {
    ghost use Rattle.ged_tree.specs.Trees.{Trees};
    ghost use Rattle.ged_tree.specs.inner.TreeCodes.{trees_code};
    ghost use Rattle.ged_link.specs.Indexes.{IsIndexOf};
    ghost use Rattle.ged_schema.specs.Checked.{Checked};
    ghost use Rattle.ged_schema.specs.Unlisted.{IsCoverage};

    ghost Value = { Trees };

    ghost coded = { trees_code };

    ghost view = { λ a. a.flat };

    ghost invariant = { λ a. IsIndexOf a.flat a.index × Checked a.flat × IsCoverage a.flat a.coverage };
}

impl<'a> Accepted<'a> {
    /// The index of the document's records. Takes no memory.
    pub fn index(&self) -> &Index
        ensures index { IsIndexOf self.now result.now }
        ensures resolved { Resolved self.now }
        ensures checked { Checked self.now }
    {
        &self.index
    }

    /// The document as a table. Takes no memory.
    pub fn flat(&self) -> &Flat<'a>
        ensures { result.now ≡ self.now }
    {
        &self.flat
    }

    /// Whether the tables list each standard tag of the document.
    pub(crate) fn coverage(&self) -> Coverage
        ensures { IsCoverage self.now result }
    {
        self.coverage
    }
}

/// The document of a file that is accepted under a profile, or why it is not.
///
/// Answers InFile with the file's first fault, or Memory where no memory was found, and no other fault. Grows: no
/// payload is copied (FamilySearch GEDCOM 7.0, "Lines", "Structures" and "Data types").
pub fn accept(alloc: Global, profile: Profile, bytes: &[u8]) -> Result<Accepted<'_>, Fault>
    ensures accepted { IfOk result (λ accepted. IsAccepted profile bytes.now accepted) }
    ensures refused { IfErr result (IsRefusal (FileFaultAt profile bytes.now)) }
{
    let Ok(mut readers) = Readers::new(alloc) else {
        return Err(Fault::Memory(AllocError));
    };
    match flatten_with(alloc, bytes, &mut readers) {
        Ok(flat) => accept_table(alloc, profile, flat, readers),
        Err(fault) => Err(told_of_lines(fault)),
    }
}

/// What [`accept`] answers, of a file whose bytes are known to be UTF-8, so that they are not validated once more. Grows as [`accept`] does
/// (FamilySearch GEDCOM 7.0, "Lines", "Structures" and "Data types").
pub fn accept_text(alloc: Global, profile: Profile, file: &str) -> Result<Accepted<'_>, Fault>
    ensures accepted { IfOk result (λ accepted. IsAccepted profile file.now accepted) }
    ensures refused { IfErr result (IsRefusal (FileFaultAt profile file.now)) }
{
    let Ok(mut readers) = Readers::new(alloc) else {
        return Err(Fault::Memory(AllocError));
    };
    match flatten_text_with(alloc, file, &mut readers) {
        Ok(flat) => accept_table(alloc, profile, flat, readers),
        Err(fault) => Err(told_of_lines(fault)),
    }
}

/// A document that is accepted, whose lines were read, or why it is not.
fn accept_table<'a>(
    alloc: Global,
    profile: Profile,
    flat: Flat<'a>,
    readers: Readers,
) -> Result<Accepted<'a>, Fault>
    requires { ⟦<Readers as LineReader>⟧.has_read readers (document_lines flat) }
    ensures accepted { IfOk result (IsAcceptable profile flat.entry) }
    ensures refused { IfErr result (IsRefusal (DocumentFaultAt profile flat.entry)) }
{
    let Readers { walk, records } = readers;
    match resolve_with(alloc, &flat, records) {
        Ok(index) => accept_resolved(profile, flat, index, &walk),
        Err(fault) => Err(told_of_links(fault)),
    }
}

/// The same of a document whose cross-references are resolved.
fn accept_resolved<'a>(
    profile: Profile,
    flat: Flat<'a>,
    index: Index,
    walk: &LineWalk,
) -> Result<Accepted<'a>, Fault>
    requires walk { ⟦<LineWalk as LineReader>⟧.has_read walk.now (document_lines flat) }
    requires index { IsIndexOf flat index }
    ensures accepted { IfOk result (λ accepted. (accepted ≡ flat.entry) × CheckedAs profile flat.entry) }
    ensures refused { IfErr result (IsRefusal (TablesFaultAt profile flat.entry)) }
{
    match check_walked(profile, &flat, &index, walk) {
        Ok(coverage) => Ok(Accepted {
            flat,
            index,
            coverage,
        }),
        Err(at) => Err(in_file(at.line, at.fault.into())),
    }
}

/// What is told of lines that are no document's.
fn told_of_lines(fault: BuildFault) -> Fault
    ensures { (file : Bytes) → TellsFile fault file → IsRefusal (LinesFaultAt file) result }
{
    match fault {
        BuildFault::At(at) => in_file(at.line, at.fault.into()),
        BuildFault::Memory(error) => Fault::Memory(error),
    }
}

/// What is told of cross-references that are not resolved.
fn told_of_links(fault: LinkFault) -> Fault
    ensures { (document : Trees) → (fault ≡ LinkFault.Memory alloc_error) ⊎ HasLinkFault document fault
        → IsRefusal (XrefFaultAt document) result }
{
    match fault {
        LinkFault::Duplicate(line) => in_file(line, FileFault::DuplicateXref),
        LinkFault::Dangling(line) => in_file(line, FileFault::DanglingPointer),
        LinkFault::Memory(error) => Fault::Memory(error),
    }
}

fn in_file(line: u64, kind: FileFault) -> Fault
    ensures { result ≡ Fault.InFile line kind }
{
    Fault::InFile { line, kind }
}
