// What copies of a document's nodes have.
use crate::forests::say_payload;
use ged_document::{Document, Node, RecordNode};
use ged_examples_answers::Answer;
use ged_tree::Payload;
use std::alloc::Global;

/// A line for HEAD, each structure right below it and each record, with what copies of their nodes have.
pub(crate) fn say_nodes(alloc: Global, document: &Document, answer: &mut Answer) {
    if let Some(head) = answer.given(document.head().copy(alloc)) {
        say_head(alloc, &head, answer);
    }
    for record in document.records() {
        if let Some(copy) = answer.given(record.copy(alloc)) {
            say_record(alloc, &copy, answer);
        }
    }
}

fn say_head(alloc: Global, head: &Node, answer: &mut Answer) {
    say_node(alloc, head, answer);
    for child in &head.children {
        say_node(alloc, child, answer);
    }
}

fn say_record(alloc: Global, record: &RecordNode, answer: &mut Answer) {
    if let Some(name) = &record.xref {
        answer.say(name.as_str());
        answer.say(" ");
    }
    say_node(alloc, &record.node, answer);
}

/// The tag and payload of a node, and how many lines, further lines and children it has.
fn say_node(alloc: Global, node: &Node, answer: &mut Answer) {
    answer.say(node.tag.as_str());
    if let Some(payload) = answer.given(node.payload.copy(alloc)) {
        say_lines(&payload, answer);
    }
    answer.say(" children=");
    answer.say_number(node.children.len() as u64);
    answer.say("\n");
}

fn say_lines(payload: &Payload, answer: &mut Answer) {
    say_payload(answer, payload.view());
    answer.say(" lines=");
    answer.say_number(payload.line_count());
    answer.say(" further=");
    answer.say_number(payload.further_lines().len() as u64);
}
