// Walks over a document's nodes: counting, and looking for the structure at a place.
ghost use Rattle.std.specs.Prelude.{◌≡◌, ◌<◌, ◌+◌, ◌^◌, None, true};
ghost use Rattle.std.specs.Option.{option_copied};
ghost use Rattle.ged_tree.specs.Trees.{trees_of, trees_count, lines_count, structure_of};
ghost use Rattle.ged_tree.specs.Documents.{is_document};
ghost use Rattle.ged_tree.specs.inner.Walks.{are_levels};
ghost use Rattle.ged_document.specs.Records.{record_trees};
ghost use Rattle.ged_tree.specs.Places.{trees_from, first_structure, below_first, level_at, line_at};

use crate::document::Document;
use crate::node::{Node, RecordNode};
use ged_line::Xref;

/// A structure of a document, and where it stands.
#[derive(Drop)]
pub(crate) struct Found<'a> {
    pub(crate) level: u8,
    pub(crate) xref: Option<&'a Xref>,
    pub(crate) node: &'a Node,
}

/// How many structures trees have.
pub(crate) fn count(nodes: &[Node]) -> usize
    requires { trees_count (trees_of nodes.now) < 2 ^ 63 }
    ensures { result ≡ trees_count (trees_of nodes.now) }
{
    let mut total = 0;
    for node in nodes {
        total += 1 + count(node.children.as_slice());
    }
    total
}

/// How many structures records have.
fn count_records(records: &[RecordNode]) -> usize
    requires { trees_count (record_trees records.now) < 2 ^ 63 }
    ensures { result ≡ trees_count (record_trees records.now) }
{
    let mut total = 0;
    for each in records {
        total += 1 + count(each.node.children.as_slice());
    }
    total
}

/// The structure at a place in trees that stand at a level.
#[tactic(auto, using(crate::proofs::Steps::founds))]
fn look_up(nodes: &[Node], start: usize, level: u8) -> Found<'_>
    requires within { start < trees_count (trees_of nodes.now) }
    requires few { trees_count (trees_of nodes.now) < 2 ^ 63 }
    requires levels { are_levels level (trees_of nodes.now) ≡ true }
    ensures structure { first_structure (trees_from (trees_of nodes.now) start)
        ≡ structure_of (option_copied result.xref) result.node.now }
    ensures below { below_first (trees_from (trees_of nodes.now) start) ≡ result.node.now.children }
    ensures level { result.level ≡ level_at level (trees_of nodes.now) start }
{
    let mut place = start;
    for node in nodes {
        if place == 0 {
            let xref = None;
            return Found { level, xref, node };
        }
        let below = node.children.as_slice();
        let size = count(below);
        if place <= size {
            return look_up(below, place - 1, level + 1);
        }
        place -= 1 + size;
    }
    unreachable!()
}

/// The structure at a place in records.
#[tactic(auto, using(crate::proofs::Steps::founds))]
fn look_up_record(records: &[RecordNode], start: usize) -> Found<'_>
    requires within { start < trees_count (record_trees records.now) }
    requires few { trees_count (record_trees records.now) < 2 ^ 63 }
    requires levels { are_levels 0 (record_trees records.now) ≡ true }
    ensures structure { first_structure (trees_from (record_trees records.now) start)
        ≡ structure_of (option_copied result.xref) result.node.now }
    ensures below { below_first (trees_from (record_trees records.now) start) ≡ result.node.now.children }
    ensures level { result.level ≡ level_at 0 (record_trees records.now) start }
{
    let mut place = start;
    for each in records {
        if place == 0 {
            return Found {
                level: 0,
                xref: each.xref.as_ref(),
                node: &each.node,
            };
        }
        let below = each.node.children.as_slice();
        let size = count(below);
        if place <= size {
            return look_up(below, place - 1, 1);
        }
        place -= 1 + size;
    }
    unreachable!()
}

/// How many lines trees have.
pub(crate) fn count_lines(nodes: &[Node]) -> u64
    requires { lines_count (trees_of nodes.now) < 2 ^ 63 }
    ensures { result ≡ lines_count (trees_of nodes.now) }
{
    let mut total = 0;
    for node in nodes {
        total += node.payload.line_count() + count_lines(node.children.as_slice());
    }
    total
}

/// The line of the structure at a place, where the trees begin on a line.
#[tactic(auto, using(crate::proofs::Steps::line_steps))]
fn line_in(nodes: &[Node], start: usize, first: u64) -> u64
    requires within { start < trees_count (trees_of nodes.now) }
    requires few { trees_count (trees_of nodes.now) < 2 ^ 63 }
    requires small { first + lines_count (trees_of nodes.now) < 2 ^ 63 }
    ensures { result ≡ line_at first (trees_of nodes.now) start }
{
    let mut place = start;
    let mut line = first;
    for node in nodes {
        if place == 0 {
            return line;
        }
        let below = node.children.as_slice();
        let size = count(below);
        let own = node.payload.line_count();
        if place <= size {
            return line_in(below, place - 1, line + own);
        }
        place -= 1 + size;
        line += own + count_lines(below);
    }
    unreachable!()
}

/// The line of the structure at a place in records that begin on a line.
#[tactic(auto, using(crate::proofs::Steps::line_steps))]
fn line_in_records(records: &[RecordNode], start: usize, first: u64) -> u64
    requires within { start < trees_count (record_trees records.now) }
    requires few { trees_count (record_trees records.now) < 2 ^ 63 }
    requires small { first + lines_count (record_trees records.now) < 2 ^ 63 }
    ensures { result ≡ line_at first (record_trees records.now) start }
{
    let mut place = start;
    let mut line = first;
    for each in records {
        if place == 0 {
            return line;
        }
        let below = each.node.children.as_slice();
        let size = count(below);
        let own = each.node.payload.line_count();
        if place <= size {
            return line_in(below, place - 1, line + own);
        }
        place -= 1 + size;
        line += own + count_lines(below);
    }
    unreachable!()
}

impl Document {
    /// How many structures there are.
    pub(crate) fn count(&self) -> usize
        ensures count { result ≡ trees_count self.now }
        ensures small { result < 2 ^ 63 }
        ensures document { is_document self.now ≡ true }
    {
        let (head, records) = self.parts();
        1 + count(head.children.as_slice()) + count_records(records)
    }

    /// The structure at a place.
    #[tactic(auto, using(crate::proofs::Steps::founds))]
    pub(crate) fn find(&self, place: usize) -> Found<'_>
        requires { place < trees_count self.now }
        ensures structure { first_structure (trees_from self.now place)
            ≡ structure_of (option_copied result.xref) result.node.now }
        ensures below { below_first (trees_from self.now place) ≡ result.node.now.children }
        ensures level { result.level ≡ level_at 0 self.now place }
        ensures few { trees_count self.now < 2 ^ 63 }
    {
        let (head, records) = self.parts();
        if place == 0 {
            return Found {
                level: 0,
                xref: None,
                node: head,
            };
        }
        let below = head.children.as_slice();
        let size = count(below);
        if place <= size {
            look_up(below, place - 1, 1)
        } else {
            look_up_record(records, place - 1 - size)
        }
    }

    /// The line of the structure at a place.
    #[tactic(auto, using(crate::proofs::Steps::line_steps))]
    pub(crate) fn line_at(&self, place: usize) -> u64
        requires { place < trees_count self.now }
        ensures { result ≡ line_at 1 self.now place }
    {
        let (head, records) = self.parts();
        if place == 0 {
            return 1;
        }
        let below = head.children.as_slice();
        let size = count(below);
        let own = head.payload.line_count();
        if place <= size {
            line_in(below, place - 1, 1 + own)
        } else {
            let first = 1 + own + count_lines(below);
            line_in_records(records, place - 1 - size, first)
        }
    }
}
