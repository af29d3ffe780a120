// The structures of a document, each with those below it.
ghost use Rattle.std.specs.Prelude.{◌≡◌, ◌≤◌, IfOk, SomeIff};
ghost use Rattle.std.specs.Option.{option_copied};
ghost use Rattle.ged_tree.specs.Trees.{trees_of, structure_of, lines_count};
ghost use Rattle.ged_tree.specs.Documents.{is_structure_at, are_at};
ghost use Rattle.ged_tree.specs.inner.DocumentParts.{is_xref_at};

use ged_line::{Tag, Xref};
use ged_tree::Payload;
use std::alloc::{AllocError, Global};
use std::marker::Model;

/// A structure without a cross-reference identifier, and the structures below it, in order.
///
/// Nodes may be put together in any way; [`crate::Document::new`] refuses what no document has, and judges no level past
/// 100. Copying, printing and dropping a node recurses as deep as its nodes go: 100 deep at most in a document, and as
/// deep as they were nested where a caller made them by hand.
#[derive(Debug, Drop)]
pub struct Node {
    pub tag: Tag,
    pub payload: Payload,
    pub children: Vec<Node>,
}

impl Model for Node {
    ghost use Rattle.ged_tree.specs.Trees.{Tree, trees_of};
    ghost use Rattle.ged_document.specs.inner.Trees.{structure_count};
    ghost use Rattle.ged_tree.specs.inner.TreeCodes.{tree_code};
    ghost use Rattle.ged_document.specs.inner.TreeSizes.{most_of_trees};
    ghost use Rattle.std.proofs.Common.{arith};

    ghost Value = { Tree };

    ghost coded = { tree_code };

    ghost view = { λ n. record { tag = n.tag; payload = n.payload; children = trees_of n.children.items } };

    ghost size = { structure_count };

    ghost size_decreases = { λ n h. omega (arith, most_of_trees n.children.items) };
}

/// A record, with its cross-reference identifier where it has one (FamilySearch GEDCOM 7.0, "Records").
#[derive(Debug, Drop)]
pub struct RecordNode {
    pub xref: Option<Xref>,
    pub node: Node,
}

impl Node {
    /// A copy of the node, and of all nodes below it. Grows.
    pub fn copy(&self, alloc: Global) -> Result<Node, AllocError>
        ensures { IfOk result (λ copy. copy ≡ self.now) }
    {
        let mut children = Vec::new(alloc);
        for child in &self.children {
            children.push(child.copy(alloc)?)?;
        }
        let tag = self.tag.copy(alloc)?;
        let payload = self.payload.copy(alloc)?;
        Ok(Node {
            tag,
            payload,
            children,
        })
    }
}

impl RecordNode {
    /// A copy of the record. Grows.
    pub fn copy(&self, alloc: Global) -> Result<RecordNode, AllocError>
        ensures { IfOk result (λ copy. copy ≡ self.now) }
    {
        let xref = match &self.xref {
            Some(name) => Some(name.copy(alloc)?),
            None => None,
        };
        let node = self.node.copy(alloc)?;
        Ok(RecordNode { xref, node })
    }
}

/// Whether the structure at the top of a tree may stand at a level.
pub(crate) fn may_stand_at(xref: Option<&Xref>, node: &Node, level: u8) -> bool
    ensures { result ≡ is_structure_at level (structure_of (option_copied xref.entry) node.now) }
{
    level <= 99
        && node.tag.as_str() != "CONT"
        && may_identify(xref, level)
        && node.payload.may_stand_at(level)
}

fn may_identify(xref: Option<&Xref>, level: u8) -> bool
    ensures { result ≡ is_xref_at level (option_copied xref.entry) }
{
    match xref {
        Some(name) => {
            // An identifier needs no test: that it is one is what `as_str` tells.
            let _name = name.as_str();
            level == 0
        }
        None => true,
    }
}

/// Whether trees may stand side by side at a level.
pub(crate) fn may_stand_below(nodes: &[Node], level: u8) -> bool
    requires { level ≤ 100 }
    ensures { result ≡ are_at level (trees_of nodes.now) }
{
    for node in nodes {
        if !may_stand_at(None, node, level)
            || !may_stand_below(node.children.as_slice(), level + 1)
        {
            return false;
        }
    }
    true
}

/// How many lines trees have, where they have no more than `room`.
pub(crate) fn lines_within(nodes: &[Node], room: u64) -> Option<u64>
    ensures { SomeIff result (lines_count (trees_of nodes.now) ≤ room) (lines_count (trees_of nodes.now)) }
{
    let mut left = room;
    for node in nodes {
        left = left.checked_sub(node.payload.line_count())?;
        left -= lines_within(node.children.as_slice(), left)?;
    }
    Some(room - left)
}
