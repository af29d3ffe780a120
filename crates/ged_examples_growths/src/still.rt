// The calls that take no memory, whose answers are the same where every growth is refused.
ghost use Rattle.ged_link.specs.Indexes.{IsIndexOf};

use crate::calls::say_made_fault;
use crate::growths::Marks;
use ged_canon::{Edition, is_normal_in};
use ged_document::{Document, ToDocument};
use ged_examples_answers::Answer;
use ged_line::{LineFault, ParseFault, parse_line};
use ged_link::Index;
use ged_schema::check;
use ged_tool::{Accepted, accept};
use ged_tree::{Flat, Forest, PayloadView, flatten};
use ged_value::{Given, Kind, fits};
use std::alloc::Global;

/// A number for many answers, in their order. It takes no memory.
#[derive(Clone, Copy)]
struct Digest(u64);

impl Digest {
    /// Takes in a number.
    fn add(&mut self, number: u64) {
        self.0 = (self.0 ^ number).wrapping_mul(0x0100_0000_01B3);
    }

    /// Takes in a text, and that it ends.
    fn add_text(&mut self, text: &str) {
        for byte in text.as_bytes() {
            self.add(u64::from(*byte));
        }
        self.add(256);
    }
}

/// The kinds that are asked of each payload.
const KINDS: [Kind; 8] = [
    Kind::Nothing,
    Kind::Text,
    Kind::EventFlag,
    Kind::Integer,
    Kind::Version,
    Kind::DateValue,
    Kind::Name,
    Kind::EnumAny,
];

fn add_payload(payload: PayloadView<'_>, digest: &mut Digest) {
    let given = match payload {
        PayloadView::Void => Given::Void,
        PayloadView::Pointer(name) => {
            digest.add_text(name);
            Given::Pointer
        }
        PayloadView::Text(line) => {
            digest.add_text(line);
            Given::One(line)
        }
    };
    for kind in KINDS {
        digest.add(u64::from(fits(kind, given)));
    }
}

/// What a forest answers at each of its places.
fn add_forest<F: Forest>(forest: &F, digest: &mut Digest) {
    for place in 0..forest.size() {
        digest.add(u64::from(forest.level(place)));
        digest.add(forest.after(place) as u64);
        digest.add(forest.line(place));
        digest.add_text(forest.tag(place));
        digest.add_text(forest.xref(place).unwrap_or(""));
        add_payload(forest.payload(place), digest);
        digest.add(u64::from(forest.points(place)));
        if let Some(line) = forest.own_line(place) {
            digest.add_text(line.rest);
        }
        for number in 0..forest.further(place) {
            digest.add_text(forest.further_line(place, number));
        }
        if let Some(further) = forest.further_lines(place) {
            digest.add(further.count() as u64);
        }
    }
}

/// What takes no memory, of a file and its document.
fn digest_of(document: &Document, index: &Index, flat: &Flat<'_>) -> u64
    requires { IsIndexOf document.now index.now }
{
    let mut digest = Digest(0xCBF2_9CE4_8422_2325);
    add_forest(document, &mut digest);
    add_forest(flat, &mut digest);
    digest.add(u64::from(check(document, index).is_ok()));
    digest.add(u64::from(is_normal_in(Edition::First, document, index)));
    digest.add(u64::from(is_normal_in(Edition::Second, document, index)));
    digest.0
}

/// Makes all calls that take no memory on a file.
pub(crate) fn no_growth(alloc: Global, file: &[u8], marks: &mut Marks, answer: &mut Answer) {
    match accept(alloc, file) {
        Ok(accepted) => call_on_accepted(alloc, file, &accepted, marks, answer),
        Err(fault) => say_made_fault(answer, fault),
    }
}

fn call_on_accepted(
    alloc: Global,
    file: &[u8],
    accepted: &Accepted<'_>,
    marks: &mut Marks,
    answer: &mut Answer,
) {
    match flatten(alloc, file) {
        Ok(flat) => call_still(alloc, accepted, &flat, marks, answer),
        Err(_) => answer.say("a fault"),
    }
}

fn call_still(
    alloc: Global,
    accepted: &Accepted<'_>,
    flat: &Flat<'_>,
    marks: &mut Marks,
    answer: &mut Answer,
) {
    let Ok(document) = accepted.document(alloc) else {
        return answer.lack_memory();
    };
    marks.begin();
    let empty = parse_line(alloc, b"");
    let digest = digest_of(&document, accepted.index(), flat);
    marks.end();
    match empty {
        Err(ParseFault::Bad(LineFault::EmptyLine)) => answer.say_number(digest),
        _ => answer.say("the empty line has another fault"),
    }
}
