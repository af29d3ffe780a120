// The ways to an answer by the calls that build trees, one after the other.
ghost use Rattle.ged_link.specs.Indexes.{IsIndexOf};
ghost use Rattle.ged_schema.specs.Checked.{Checked};

use crate::agreement::{Answered, Ways, answered, in_file};
use ged_canon::{Edition, canonical_bytes_in};
use ged_document::{Document, ToDocument, build, canonical_in, to_lines, write_document};
use ged_examples_answers::Answer;
use ged_line::read_lines;
use ged_link::{Index, LinkFault, resolve};
use ged_schema::check_as;
use ged_tool::{Accepted, Fault, FileFault, Profile, Settings, accept_as};
use ged_tree::BuildFault;
use std::alloc::{AllocError, Global};

/// A file's document by its lines, or its fault, from the calls that read lines and build trees.
fn document_by_lines(alloc: Global, file: &[u8]) -> Result<Document, Fault> {
    let lines = read_lines(alloc, file).map_err(Fault::Memory)?;
    match build(alloc, &lines) {
        Ok(document) => Ok(document),
        Err(BuildFault::At(at)) => Err(in_file(at.line, at.fault.into())),
        Err(BuildFault::Memory(error)) => Err(Fault::Memory(error)),
    }
}

/// What the calls on a document say of it, one after the other.
fn accept_document(alloc: Global, profile: Profile, document: &Document) -> Result<(), Fault> {
    match resolve(alloc, document) {
        Ok(index) => check_document(profile, document, &index),
        Err(fault) => Err(link_fault(fault)),
    }
}

fn check_document(profile: Profile, document: &Document, index: &Index) -> Result<(), Fault>
    requires { IsIndexOf document.now index.now }
{
    match check_as(profile, document, index) {
        Ok(()) => Ok(()),
        Err(at) => Err(in_file(at.line, at.fault.into())),
    }
}

fn link_fault(fault: LinkFault) -> Fault {
    match fault {
        LinkFault::Duplicate(line) => in_file(line, FileFault::DuplicateXref),
        LinkFault::Dangling(line) => in_file(line, FileFault::DanglingPointer),
        LinkFault::Memory(error) => Fault::Memory(error),
    }
}

/// What the calls of the lower crates say of a file, one after the other.
pub(crate) fn accept_by_parts(alloc: Global, profile: Profile, file: &[u8]) -> Result<(), Fault> {
    match document_by_lines(alloc, file) {
        Ok(document) => accept_document(alloc, profile, &document),
        Err(fault) => Err(fault),
    }
}

/// The canonical bytes by way of trees, for a file that is accepted.
pub(crate) fn canon_by_trees(alloc: Global, settings: Settings, file: &[u8]) -> Answered {
    match accept_as(alloc, settings, file) {
        Ok(accepted) => canon_of_accepted(alloc, settings.edition(), &accepted),
        Err(fault) => Err(fault),
    }
}

fn canon_of_accepted(alloc: Global, edition: Edition, accepted: &Accepted<'_>) -> Answered {
    let mut told = Answer::new(alloc);
    match accepted.document(alloc) {
        Ok(document) => canon_of_tree(alloc, edition, &document, accepted.index(), &mut told),
        Err(_) => told.lack_memory(),
    }
    answered(told)
}

/// The canonical form of a tree as it is written, or where they differ, its canonical bytes and an end.
fn canon_of_tree(
    alloc: Global,
    edition: Edition,
    document: &Document,
    index: &Index,
    told: &mut Answer,
)
    requires index { IsIndexOf document.now index.now }
    requires checked { Checked document.now }
{
    if let Some(bytes) = told.given(canonical_bytes_in(alloc, edition, document, index)) {
        told.say_bytes(&bytes);
    }
    if let Some(canonical) = told.given(canonical_in(alloc, edition, document, index)) {
        compare_written(alloc, &canonical, told);
    }
}

/// Says an end where a document is written as other bytes than those that are told.
fn compare_written(alloc: Global, canonical: &Document, told: &mut Answer) {
    if let Some(text) = told.given(write_document(alloc, canonical)) {
        if told.as_slice() != text.as_slice() {
            told.say("canonical_bytes_in differs");
        }
    }
}

/// Whether a document has the same lines as one that is built.
fn is_built(alloc: Global, document: &Document, built: &Document) -> bool {
    match (to_lines(alloc, document), to_lines(alloc, built)) {
        (Ok(one), Ok(other)) => one.as_slice() == other.as_slice(),
        _ => false,
    }
}

/// Whether the document that is built of a file's lines is this one, or the fault of the lines.
fn build_again(alloc: Global, file: &[u8], document: &Document) -> Result<(), Fault> {
    match document_by_lines(alloc, file) {
        Ok(built) if is_built(alloc, document, &built) => Ok(()),
        Ok(_) => Err(Fault::Memory(AllocError)),
        Err(fault) => Err(fault),
    }
}

/// The lines of a document of an accepted file, and whether the document that is built of the file's lines has the same.
fn tree_ways(alloc: Global, file: &[u8], document: &Document) -> Ways {
    let mut ways = Ways::of(write_document(alloc, document).map_err(Fault::Memory));
    if let Err(fault) = build_again(alloc, file, document) {
        ways.add("build", Err(fault));
    }
    ways
}

/// The lines of a file's document, where the one that is built of the file's lines and the one of the accepted file are
/// the same.
pub(crate) fn document_ways(alloc: Global, settings: Settings, file: &[u8]) -> Ways {
    match accept_as(alloc, settings, file) {
        Ok(accepted) => ways_of_document(alloc, file, accepted.document(alloc)),
        Err(fault) => Ways::of(Err(fault)),
    }
}

fn ways_of_document(alloc: Global, file: &[u8], made: Result<Document, AllocError>) -> Ways {
    match made {
        Ok(document) => tree_ways(alloc, file, &document),
        Err(error) => Ways::of(Err(Fault::Memory(error))),
    }
}
