// Files that come piece by piece.
use crate::agreement::{Answered, answered_word, are_same, say_fault, written};
use ged_canon::canonical_bytes_in;
use ged_document::ToDocument;
use ged_examples_answers::Answer;
use ged_tool::{Accepted, Fault, Feed, Settings};
use std::alloc::{AllocError, Global};

/// The most bytes that a file is cut at every place.
const MOST: usize = 1000;

/// What a file ends with that comes in two pieces: the accepted file's document as it is written, or the fault.
fn fed_in_two(alloc: Global, settings: Settings, file: &[u8], length: usize) -> Answered {
    let mut feed = Feed::new(alloc);
    let first = feed.piece(file.get(..length).unwrap_or(file));
    let second = feed.piece(file.get(length..).unwrap_or(b""));
    let end = written(alloc, feed.finish_as(alloc, settings));
    if is_told(first.and(second), &end) {
        return end;
    }
    answered_word(alloc, "a piece has another fault than the file")
}

/// Whether a fault of a piece is the fault of the file.
fn is_told(pieces: Result<(), Fault>, end: &Answered) -> bool {
    match (pieces, end) {
        (Ok(()), _) => true,
        (Err(fault), Err(told)) => fault == *told,
        (Err(_), Ok(_)) => false,
    }
}

/// What a file ends with that comes byte by byte.
fn fed_by_bytes(alloc: Global, settings: Settings, file: &[u8]) -> Answered {
    let mut feed = Feed::new(alloc);
    for byte in file.chunks(1) {
        if feed.piece(byte).is_err() {
            break;
        }
    }
    written(alloc, feed.finish_as(alloc, settings))
}

/// Whether a file that comes in two pieces, cut at any place, or byte by byte, ends with this answer. A long file is cut in
/// its middle alone.
pub(crate) fn is_fed(alloc: Global, settings: Settings, file: &[u8], wanted: &Answered) -> bool {
    if file.len() > MOST {
        return are_same(&fed_in_two(alloc, settings, file, file.len() / 2), wanted);
    }
    for length in 0..=file.len() {
        if !are_same(&fed_in_two(alloc, settings, file, length), wanted) {
            return false;
        }
    }
    are_same(&fed_by_bytes(alloc, settings, file), wanted)
}

/// The canonical bytes of an accepted file, by its document.
fn canonical_of(alloc: Global, accepted: &Accepted<'_>) -> Result<Vec<u8>, AllocError> {
    let document = accepted.document(alloc)?;
    let edition = Settings::new().edition();
    canonical_bytes_in(alloc, edition, &document, accepted.index())
}

/// Says what a feed ends with: the canonical bytes, or the fault; twice where the second time it is another.
fn say_end(alloc: Global, feed: &Feed, answer: &mut Answer) {
    answer.say("finish: ");
    if !ends_again(alloc, feed) {
        answer.say("not the same when it is called again, but first ");
    }
    match feed.finish(alloc) {
        Ok(accepted) => say_canonical(alloc, &accepted, answer),
        Err(fault) => {
            say_fault(answer, fault);
            answer.say("\n");
        }
    }
}

/// Whether a feed ends with the same when it is called again.
fn ends_again(alloc: Global, feed: &Feed) -> bool {
    let first = written(alloc, feed.finish_as(alloc, Settings::new()));
    let again = written(alloc, feed.finish_as(alloc, Settings::new()));
    are_same(&first, &again)
}

fn say_canonical(alloc: Global, accepted: &Accepted<'_>, answer: &mut Answer) {
    if let Some(text) = answer.given(canonical_of(alloc, accepted)) {
        answer.say_bytes(&text);
    }
}

/// What each piece is answered, and the end. The byte 0 parts the pieces; of an empty argument there are none.
pub(crate) fn answer_pieces(alloc: Global, argument: &[u8], answer: &mut Answer) {
    let mut feed = Feed::new(alloc);
    if !argument.is_empty() {
        for piece in argument.split(|byte| *byte == 0) {
            match feed.piece(piece) {
                Ok(()) => answer.say("Ok"),
                Err(fault) => say_fault(answer, fault),
            }
            answer.say("\n");
        }
    }
    say_end(alloc, &feed, answer);
}
