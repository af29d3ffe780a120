// Long files that are made here, since no row could have them: many records, names, pointers and siblings, and many
// bytes.
use ged_examples_answers::Answer;
use ged_tool::{accept, canonicalise};
use std::alloc::Global;

const HEADER: &str = "0 HEAD\n1 GEDC\n2 VERS 7.0\n";

const TRAILER: &str = "0 TRLR\n";

/// A part of a long line.
const FIFTY: &str = "xxxxxxxxxxxxxxxxxxxxxxxxxxxxxxxxxxxxxxxxxxxxxxxxxx";

const MARK: &str = "\u{FEFF}";

/// A file, and the canonical bytes that it has to have.
#[derive(Drop)]
struct Pair {
    file: Answer,
    canonical: Answer,
}

/// Answers a call on a file that is made here, of as many records, siblings or lines as the argument tells, or none where that is
/// no number: whether it is accepted, and has its canonical bytes. False where there is no call of this name.
pub(crate) fn answer(alloc: Global, call: &str, argument: &[u8], answer: &mut Answer) -> bool {
    let text = std::str::from_utf8(argument).unwrap_or("");
    let count = text.parse::<u32>().unwrap_or(0);
    let mut pair = Pair {
        file: Answer::new(alloc),
        canonical: Answer::new(alloc),
    };
    pair.file.say(HEADER);
    pair.canonical.say(MARK);
    pair.canonical.say(HEADER);
    match call {
        "couples" => say_couples(u64::from(count), &mut pair),
        "siblings" => say_siblings(count, &mut pair),
        "long" => {
            say_long_lines(&mut pair.file, count);
            say_long_lines(&mut pair.canonical, count);
        }
        _ => return false,
    }
    pair.file.say(TRAILER);
    pair.canonical.say(TRAILER);
    tell_pair(alloc, &pair, answer);
    true
}

fn tell_pair(alloc: Global, pair: &Pair, answer: &mut Answer) {
    if pair.file.lacks_memory() || pair.canonical.lacks_memory() {
        return answer.lack_memory();
    }
    let (file, canonical) = (pair.file.as_slice(), pair.canonical.as_slice());
    answer.say("accepted=");
    answer.say_truth(accept(alloc, file).is_ok());
    answer.say(" canonical=");
    answer.say_truth(is_canonical(alloc, file, canonical));
    answer.say(" bytes=");
    answer.say_number(canonical.len() as u64);
}

/// Whether a file has these canonical bytes.
fn is_canonical(alloc: Global, file: &[u8], wanted: &[u8]) -> bool {
    match canonicalise(alloc, file) {
        Ok(text) => text.as_slice() == wanted,
        Err(_) => false,
    }
}

/// Says a record with one pointer.
fn say_record(out: &mut Answer, start: &str, number: u64, link: &str, target: u64) {
    out.say(start);
    out.say_number(number);
    out.say(link);
    out.say_number(target);
    out.say("@\n");
}

/// So many persons, each with a family of its own. The families are put before the persons, so the family of the first
/// person is X1, and this person comes behind all families.
fn say_couples(count: u64, pair: &mut Pair) {
    for number in 0..count {
        say_record(&mut pair.file, "0 @P", number, "@ INDI\n1 FAMS @F", number);
        say_record(&mut pair.file, "0 @F", number, "@ FAM\n1 HUSB @P", number);
    }
    for number in 1..=count {
        let person = number.saturating_add(count);
        say_record(
            &mut pair.canonical,
            "0 @X",
            number,
            "@ FAM\n1 HUSB @X",
            person,
        );
    }
    for number in 1..=count {
        let person = number.saturating_add(count);
        say_record(
            &mut pair.canonical,
            "0 @X",
            person,
            "@ INDI\n1 FAMS @X",
            number,
        );
    }
}

fn say_often(out: &mut Answer, count: u32, text: &str) {
    for _ in 0..count {
        out.say(text);
    }
}

/// A record with so many pairs of substructures, of two tags in turn.
fn say_siblings(count: u32, pair: &mut Pair) {
    pair.file.say("0 INDI\n");
    say_often(&mut pair.file, count, "1 _B\n1 _A\n");
    pair.canonical.say("0 INDI\n");
    say_often(&mut pair.canonical, count, "1 _A\n");
    say_often(&mut pair.canonical, count, "1 _B\n");
}

/// A note of so many lines, of 1,000 characters each.
fn say_long_lines(out: &mut Answer, count: u32) {
    out.say("1 NOTE\n");
    for _ in 0..count {
        out.say("2 CONT ");
        say_often(out, 20, FIFTY);
        out.say("\n");
    }
}
