// The line of a structure by its path.
ghost use Rattle.std.specs.Prelude.{◌≡◌, ◌+◌, ◌<◌, ◌^◌, ℕ, Some, None};
ghost use Rattle.ged_tree.specs.Trees.{lines_count, line_count};
ghost use Rattle.ged_tree.specs.Places.{line_at};
ghost use Rattle.ged_document.specs.Paths.{LeadsTo};
ghost use Rattle.ged_document.specs.inner.PathLines.{path_line, line_below, line_of_path};
ghost use Rattle.ged_document.specs.Records.{record_trees};

use crate::document::Document;
use crate::node::{Node, RecordNode};
use crate::walks::count_lines;

/// The line on which the structure at a path begins, counted from 1, or `None` where the path is empty or leads to no
/// structure. The path's first number is 0 for HEAD and `i + 1` for the record `i`, and each further one is the place
/// of a child among its siblings, counted from 0. Takes no memory.
pub fn line_of(document: &Document, path: &[usize]) -> Option<u64>
    ensures found { (place : ℕ) → LeadsTo path.now document.now place → result ≡ Some (line_at 1 document.now place) }
    ensures none { ((place : ℕ) → ¬ (LeadsTo path.now document.now place)) → result ≡ None }
{
    find_line(document, path)
}

/// The line that a path leads to.
#[tactic(auto, using(crate::proofs::Leading::path_steps))]
fn find_line(document: &Document, path: &[usize]) -> Option<u64>
    ensures { result ≡ line_of_path 1 document.now path.now }
{
    let Some((number, rest)) = path.split_first() else {
        return None;
    };
    let (head, records) = document.parts();
    if *number == 0 {
        return find_below(head, rest, 1);
    }
    let first = 1 + head.payload.line_count() + count_lines(head.children.as_slice());
    find_among(records, *number - 1, rest, first)
}

/// The line that a path leads to from the records on, of which the first begins on a line.
#[tactic(auto, using(crate::proofs::Leading::path_steps))]
fn find_among(records: &[RecordNode], number: usize, path: &[usize], first: u64) -> Option<u64>
    requires small { first + lines_count (record_trees records.now) < 2 ^ 63 }
    ensures { result ≡ path_line first (record_trees records.now) number path.now }
{
    let mut left = number;
    let mut line = first;
    for each in records {
        let node = &each.node;
        if left == 0 {
            return find_below(node, path, line);
        }
        left -= 1;
        line += node.payload.line_count() + count_lines(node.children.as_slice());
    }
    None
}

/// The line that a path leads to from a structure on, which begins on a line.
#[tactic(auto, using(crate::proofs::Leading::path_steps))]
fn find_below(node: &Node, path: &[usize], first: u64) -> Option<u64>
    requires small { first + (line_count node.now.payload + lines_count node.now.children) < 2 ^ 63 }
    ensures { result ≡ line_below first node.now.payload node.now.children path.now }
{
    let Some((number, rest)) = path.split_first() else {
        return Some(first);
    };
    let mut left = *number;
    let mut line = first + node.payload.line_count();
    for child in &node.children {
        if left == 0 {
            return find_below(child, rest, line);
        }
        left -= 1;
        line += child.payload.line_count() + count_lines(child.children.as_slice());
    }
    None
}
