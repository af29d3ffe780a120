// The document of a forest, as nodes.
ghost use Rattle.std.specs.Prelude.{◌≡◌, ℕ, ◌<◌, ◌+◌, true, IfOk, ◌∷◌};
ghost use Rattle.std.specs.Option.{option_copied};
ghost use Rattle.ged_line.specs.Lines.{may_be_xref};
ghost use Rattle.ged_line.specs.Names.{is_tag, is_xref};
ghost use Rattle.ged_tree.specs.Trees.{trees_of, trees_count, further_lines};
ghost use Rattle.ged_tree.specs.Documents.{are_at, is_payload_at};
ghost use Rattle.ged_tree.specs.Places.{structure_at};
ghost use Rattle.ged_document.specs.Records.{record_trees};
ghost use Rattle.ged_tree.specs.Runs.{trees_between, IsRunOfTrees, IsStep};
ghost use Rattle.ged_document.specs.inner.Copies.{StandBelow};

use crate::document::Document;
use crate::node::{Node, RecordNode};
use ged_line::{Tag, Text, Xref};
use ged_tree::{Forest, Payload, PayloadView, TextLines, end_of_all, next_in_run};
use std::alloc::{AllocError, Global};

/// The tag that a text is known to be. Grows.
pub(crate) fn copy_tag(alloc: Global, tag: &str) -> Result<Tag, AllocError>
    requires { is_tag tag.now ≡ true }
    ensures { IfOk result (λ copy. copy ≡ tag.now) }
{
    match Tag::read(alloc, tag)? {
        Some(tag) => Ok(tag),
        None => unreachable!(),
    }
}

fn copy_xref(alloc: Global, name: &str) -> Result<Xref, AllocError>
    requires { is_xref name.now ≡ true }
    ensures { IfOk result (λ copy. copy ≡ name.now) }
{
    match Xref::read(alloc, name)? {
        Some(name) => Ok(name),
        None => unreachable!(),
    }
}

/// The text of a payload that begins with a line.
fn copy_text<F: Forest>(
    alloc: Global,
    forest: &F,
    place: usize,
    first: &str,
) -> Result<TextLines, AllocError>
    requires { place < trees_count (F.trees forest.now) }
    ensures { IfOk result (λ text. text ≡ first.now ∷ further_lines (structure_at (F.trees forest.now) place).payload) }
{
    let mut lines = Vec::new(alloc);
    lines.push(Text::from_str(alloc, first)?)?;
    for number in 0..forest.further(place) {
        lines.push(Text::from_str(alloc, forest.further_line(place, number))?)?;
    }
    match TextLines::new(lines) {
        Some(text) => Ok(text),
        None => unreachable!(),
    }
}

fn copy_payload<F: Forest>(alloc: Global, forest: &F, place: usize) -> Result<Payload, AllocError>
    requires within { place < trees_count (F.trees forest.now) }
    requires payload { (level : ℕ) × (is_payload_at level (structure_at (F.trees forest.now) place).payload ≡ true) }
    ensures { IfOk result (λ payload. payload ≡ (structure_at (F.trees forest.now) place).payload) }
{
    match forest.payload(place) {
        PayloadView::Void => Ok(Payload::Void),
        PayloadView::Pointer(name) => Ok(Payload::Pointer(copy_xref(alloc, name)?)),
        PayloadView::Text(first) => Ok(Payload::Text(copy_text(alloc, forest, place, first)?)),
    }
}

/// The node of the structure at a place, with these nodes below it.
fn copy_node<F: Forest>(
    alloc: Global,
    forest: &F,
    place: usize,
    children: Vec<Node>,
) -> Result<Node, AllocError>
    requires within { place < trees_count (F.trees forest.now) }
    requires tag { is_tag (structure_at (F.trees forest.now) place).tag ≡ true }
    requires payload { (level : ℕ) × (is_payload_at level (structure_at (F.trees forest.now) place).payload ≡ true) }
    ensures tag { IfOk result (λ node. node.tag ≡ (structure_at (F.trees forest.now) place).tag) }
    ensures payload { IfOk result (λ node. node.payload ≡ (structure_at (F.trees forest.now) place).payload) }
    ensures children { IfOk result (λ node. node.children ≡ trees_of children.items) }
{
    let tag = copy_tag(alloc, forest.tag(place))?;
    let payload = copy_payload(alloc, forest, place)?;
    Ok(Node {
        tag,
        payload,
        children,
    })
}

/// The nodes of a run of trees, none of which is a record's.
#[tactic(auto, using(crate::proofs::Copies::copies))]
fn copy_between<F: Forest>(
    alloc: Global,
    forest: &F,
    start: usize,
    end: usize,
) -> Result<Vec<Node>, AllocError>
    requires run { IsRunOfTrees (F.trees forest.now) start end }
    requires below { StandBelow (trees_between (F.trees forest.now) start end) }
    ensures { IfOk result (λ nodes. trees_of nodes.items ≡ trees_between (F.trees forest.now) start end) }
{
    let mut nodes = Vec::new(alloc);
    let mut place = start;
    while let Some(after) = next_in_run(forest, place, end) {
        let children = copy_between(alloc, forest, place + 1, after)?;
        let node = copy_node(alloc, forest, place, children)?;
        nodes.push(node)?;
        place = after;
    }
    Ok(nodes)
}

fn copy_optional_xref(alloc: Global, name: Option<&str>) -> Result<Option<Xref>, AllocError>
    requires { may_be_xref (option_copied name) ≡ true }
    ensures { IfOk result (λ copy. copy ≡ option_copied name.entry) }
{
    match name {
        Some(name) => Ok(Some(copy_xref(alloc, name)?)),
        None => Ok(None),
    }
}

/// The node of the first tree of a run of trees at level 0.
fn copy_first<F: Forest>(
    alloc: Global,
    forest: &F,
    place: usize,
    end: usize,
    after: usize,
) -> Result<Node, AllocError>
    requires step { IsStep (F.trees forest.now) place end after }
    requires fits { are_at 0 (trees_between (F.trees forest.now) place end) ≡ true }
    ensures tag { IfOk result (λ node. node.tag ≡ (structure_at (F.trees forest.now) place).tag) }
    ensures payload { IfOk result (λ node. node.payload ≡ (structure_at (F.trees forest.now) place).payload) }
    ensures children { IfOk result (λ node. node.children ≡ trees_between (F.trees forest.now) (place + 1) after) }
{
    let children = copy_between(alloc, forest, place + 1, after)?;
    copy_node(alloc, forest, place, children)
}

/// The records of a run of trees at level 0.
#[tactic(auto, using(crate::proofs::Copies::record_copies))]
fn copy_records<F: Forest>(
    alloc: Global,
    forest: &F,
    start: usize,
    end: usize,
) -> Result<Vec<RecordNode>, AllocError>
    requires run { IsRunOfTrees (F.trees forest.now) start end }
    requires fits { are_at 0 (trees_between (F.trees forest.now) start end) ≡ true }
    ensures { IfOk result (λ records. record_trees records.items ≡ trees_between (F.trees forest.now) start end) }
{
    let mut records = Vec::new(alloc);
    let mut place = start;
    while let Some(after) = next_in_run(forest, place, end) {
        let xref = copy_optional_xref(alloc, forest.xref(place))?;
        let node = copy_first(alloc, forest, place, end, after)?;
        records.push(RecordNode { xref, node })?;
        place = after;
    }
    Ok(records)
}

/// The document of a forest, as nodes. Grows; recurses as deep as the structures stand, at most 100 deep.
#[tactic(auto, using(crate::proofs::Copies::placed_all, crate::proofs::Copies::record_copies))]
pub fn document_of<F: Forest>(alloc: Global, forest: &F) -> Result<Document, AllocError>
    ensures { IfOk result (λ document. document ≡ F.trees forest.now) }
{
    let end = end_of_all(forest);
    let Some(after) = next_in_run(forest, 0, end) else {
        unreachable!()
    };
    let head = copy_first(alloc, forest, 0, end, after)?;
    let records = copy_records(alloc, forest, after, end)?;
    match Document::new(head, records) {
        Some(document) => Ok(document),
        None => unreachable!(),
    }
}
