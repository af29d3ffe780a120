// A document: HEAD and the records.
ghost use Rattle.std.specs.Prelude.{◌≡◌, ◌+◌, ◌^◌, ◌<◌, IfOk, MatchOption, SomeIff, None, nat_lt, length, true, false};
ghost use Rattle.ged_tree.specs.Trees.{tree, trees_count, structure_of, lines_count, head_of, records_of};
ghost use Rattle.ged_tree.specs.Documents.{is_document, are_at, are_records};
ghost use Rattle.ged_tree.specs.DocumentLines.{document_lines};
ghost use Rattle.ged_document.specs.Records.{record_trees, document_trees};
ghost use Rattle.ged_tree.specs.inner.Walks.{are_levels, HaveLinesAt};

use crate::node::{Node, RecordNode, lines_within, may_stand_at, may_stand_below};
use std::alloc::{AllocError, Global};
use std::marker::Model;

/// HEAD and the records of a file, in order. Its trailer, which is the same in each, is not kept (FamilySearch GEDCOM 7.0, "Structures").
#[derive(Debug, Drop)]
pub struct Document {
    head: Node,
    records: Vec<RecordNode>,
}

impl Model for Document {
    ghost use Rattle.std.specs.Prelude.{◌≡◌, true};
    ghost use Rattle.ged_tree.specs.Trees.{Trees};
    ghost use Rattle.ged_tree.specs.inner.TreeCodes.{trees_code};
    ghost use Rattle.ged_tree.specs.Documents.{is_document};
    ghost use Rattle.ged_document.specs.Records.{document_trees};

    ghost Value = { Trees };

    ghost coded = { trees_code };

    ghost view = { λ d. document_trees d.head d.records.items };

    ghost invariant = { λ d. is_document (document_trees d.head d.records.items) ≡ true };
}

/// The most lines that a document has, TRLR's included.
const MOST_LINES: u64 = 0x7FFF_FFFF_FFFF_FFFF;

impl Document {
    /// The document of HEAD and the records, or `None` where there is none; the parts are then dropped. Takes no
    /// memory.
    ///
    /// A document's levels go from 0 to 99, and CONT is no structure's tag. The head's tag is HEAD, and no record's is
    /// HEAD or TRLR. No line of a payload has a CR, LF or another character that may not stand in a line, and a payload
    /// at level 99 has one line. With TRLR's there are at most 9,223,372,036,854,775,807 lines.
    pub fn new(head: Node, records: Vec<RecordNode>) -> Option<Document>
        ensures { MatchOption result
            (is_document (document_trees head records.items) ≡ false)
            (λ document. (document ≡ document_trees head records.items)
            × (is_document document ≡ true)) }
    {
        let is_document = head.tag.as_str() == "HEAD"
            && have_record_tags(records.as_slice())
            && may_stand_at(None, &head, 0)
            && may_stand_below(head.children.as_slice(), 1)
            && may_stand_as_records(records.as_slice())
            && have_few_lines(&head, records.as_slice());
        if !is_document {
            return None;
        }
        Some(Document { head, records })
    }

    /// HEAD. Takes no memory.
    pub fn head(&self) -> &Node
        ensures head { result.now ≡ head_of self.now }
        ensures whole { self.now ≡ tree (structure_of None result.now) result.now.children (records_of self.now) }
        ensures document { is_document self.now ≡ true }
    {
        &self.head
    }

    /// The records, in order. Takes no memory.
    pub fn records(&self) -> &[RecordNode]
        ensures records { record_trees result.now ≡ records_of self.now }
        ensures document { is_document self.now ≡ true }
    {
        self.records.as_slice()
    }

    /// HEAD and the records, and what the walks over them need.
    pub(crate) fn parts(&self) -> (&Node, &[RecordNode])
        ensures whole { self.now ≡ document_trees result.0.now result.1.now }
        ensures document { is_document self.now ≡ true }
        ensures few { trees_count self.now < 2 ^ 63 }
        ensures lines { lines_count self.now + 1 < 2 ^ 63 }
        ensures levels { are_levels 0 self.now ≡ true }
        ensures stand { HaveLinesAt 0 self.now }
    {
        (&self.head, self.records.as_slice())
    }

    /// A copy of the document. Grows.
    pub fn copy(&self, alloc: Global) -> Result<Document, AllocError>
        ensures { IfOk result (λ copy. copy ≡ self.now) }
    {
        let mut records = Vec::new(alloc);
        for each in &self.records {
            records.push(each.copy(alloc)?)?;
        }
        let head = self.head.copy(alloc)?;
        Ok(Document { head, records })
    }
}

fn have_record_tags(records: &[RecordNode]) -> bool
    ensures { result ≡ are_records (record_trees records.now) }
{
    for each in records {
        let tag = each.node.tag.as_str();
        if tag == "HEAD" || tag == "TRLR" {
            return false;
        }
    }
    true
}

fn may_stand_as_records(records: &[RecordNode]) -> bool
    ensures { result ≡ are_at 0 (record_trees records.now) }
{
    for each in records {
        let node = &each.node;
        if !may_stand_at(each.xref.as_ref(), node, 0)
            || !may_stand_below(node.children.as_slice(), 1)
        {
            return false;
        }
    }
    true
}

/// Whether the lines, TRLR's included, are few enough for a document.
fn have_few_lines(head: &Node, records: &[RecordNode]) -> bool
    ensures { result ≡ nat_lt (length (document_lines (document_trees head.now records.now))) (2 ^ 63) }
{
    lines_of_parts(head, records).is_some()
}

/// How many lines there are, TRLR's included, where they are few enough for a document.
fn lines_of_parts(head: &Node, records: &[RecordNode]) -> Option<u64>
    ensures { SomeIff result
        (lines_count (document_trees head.now records.now) + 1 < 2 ^ 63)
        (lines_count (document_trees head.now records.now) + 1) }
{
    let mut left = (MOST_LINES - 1).checked_sub(head.payload.line_count())?;
    left -= lines_within(head.children.as_slice(), left)?;
    for each in records {
        left = left.checked_sub(each.node.payload.line_count())?;
        left -= lines_within(each.node.children.as_slice(), left)?;
    }
    Some(MOST_LINES - left)
}
