// The calls that grow and are made on a file that comes piece by piece.
use crate::calls::{say_made_document, say_made_fault, say_memory};
use crate::growths::Marks;
use ged_document::ToDocument;
use ged_examples_answers::Answer;
use ged_examples_whole::{Answered, are_same, written};
use ged_tool::{Fault, Feed, Settings};
use std::alloc::Global;

/// Makes a call on a file that comes piece by piece; false where there is none of this name.
pub(crate) fn call_of_feed(
    alloc: Global,
    settings: Settings,
    name: &str,
    file: &[u8],
    marks: &mut Marks,
    answer: &mut Answer,
) -> bool {
    match name {
        "Feed::piece" => call_piece(alloc, settings, file, marks, answer),
        "Feed::finish_as" => call_finish(alloc, settings, file, marks, answer),
        "told_feed" => call_told(alloc, settings, file, marks, answer),
        _ => return false,
    }
    true
}

/// What a feed ends with, where it has memory.
fn end_of(alloc: Global, settings: Settings, feed: &Feed) -> Answered {
    written(alloc, feed.finish_as(alloc, settings))
}

fn say_end(answer: &mut Answer, end: &Answered) {
    match end {
        Ok(text) => answer.say_bytes(text),
        Err(Fault::Memory(_)) => answer.lack_memory(),
        Err(fault) => say_made_fault(answer, *fault),
    }
}

/// Takes in a file by its halves.
fn call_piece(
    alloc: Global,
    settings: Settings,
    file: &[u8],
    marks: &mut Marks,
    answer: &mut Answer,
) {
    let (first, second) = file.split_at(file.len() / 2);
    let mut feed = Feed::new(alloc);
    match feed.piece(first) {
        Ok(()) => call_second(alloc, settings, second, &mut feed, marks, answer),
        Err(_) => answer.say("the first half is refused"),
    }
}

/// Takes in the second half of a file. Where that found no memory the feed is as before: it ends with what ends the first
/// half, and once more, with memory, it takes the second half in.
fn call_second(
    alloc: Global,
    settings: Settings,
    second: &[u8],
    feed: &mut Feed,
    marks: &mut Marks,
    answer: &mut Answer,
) {
    let before = end_of(alloc, settings, feed);
    marks.begin();
    let made = feed.piece(second);
    marks.end();
    let after = end_of(alloc, settings, feed);
    match made {
        Ok(()) => say_end(answer, &after),
        Err(Fault::Memory(_)) => {
            let is_kept = are_same(&before, &after);
            say_kept(alloc, second, is_kept, feed, answer);
        }
        Err(fault) => say_made_fault(answer, fault),
    }
}

/// Says that a feed found no memory for a piece, where it was kept, and now takes the piece in.
fn say_kept(alloc: Global, piece: &[u8], is_kept: bool, feed: &mut Feed, answer: &mut Answer) {
    let is_taken = feed.piece(piece).is_ok() && feed.finish(alloc).is_ok();
    if is_kept && is_taken {
        say_memory(answer, None);
    } else {
        answer.say("another feed than before");
    }
}

/// Ends a file that came in two pieces.
fn call_finish(
    alloc: Global,
    settings: Settings,
    file: &[u8],
    marks: &mut Marks,
    answer: &mut Answer,
) {
    let (first, second) = file.split_at(file.len() / 2);
    let mut feed = Feed::new(alloc);
    let taken = feed.piece(first);
    match taken.and(feed.piece(second)) {
        Ok(()) => call_end(alloc, settings, &feed, marks, answer),
        Err(_) => answer.say("a piece is refused"),
    }
}

fn call_end(
    alloc: Global,
    settings: Settings,
    feed: &Feed,
    marks: &mut Marks,
    answer: &mut Answer,
) {
    marks.begin();
    let made = feed.finish_as(alloc, settings);
    marks.end();
    match made {
        Ok(accepted) => say_made_document(alloc, answer, accepted.document(alloc)),
        Err(fault) => say_made_fault(answer, fault),
    }
}

/// A feed that has told a fault: neither its pieces nor its end take memory any more.
fn call_told(
    alloc: Global,
    settings: Settings,
    file: &[u8],
    marks: &mut Marks,
    answer: &mut Answer,
) {
    let mut feed = Feed::new(alloc);
    if feed.piece(b"\n").is_ok() {
        return answer.say("an empty line is taken");
    }
    marks.begin();
    let piece = feed.piece(file);
    let end = feed.finish_as(alloc, settings).err();
    marks.end();
    match (piece, end) {
        (Err(fault), Some(told)) if fault == told => say_made_fault(answer, fault),
        _ => answer.say("the fault is not told again"),
    }
}
