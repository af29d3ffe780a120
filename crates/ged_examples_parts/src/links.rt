// Calls of `ged_link`, which any forest answers.
ghost use Rattle.std.specs.Prelude.{IfOk};
ghost use Rattle.ged_link.specs.Indexes.{IsIndexOf};

use ged_examples_answers::{Answer, Question};
use ged_line::Xref;
use ged_link::{
    Index, LinkFault, Notice, NoticeKind, PointerCursor, RecordCursor, RecordReader, RecordType,
    first_one_way, identifiers_have_places, one_link_fault, one_record_has_name, one_way,
    one_way_has_place, resolve, resolve_with, resolved_is_faultless, resolved_or_fault,
};
use ged_tree::{BuildFault, Forest, PayloadView, flatten_with};
use std::alloc::Global;

pub(crate) fn has_call(name: &str) -> bool {
    [
        "resolve",
        "Index::record_of",
        "Index::record_named",
        "Index::place_of",
        "Index::leads_to",
        "Index::is_used",
        "Index::are_led_by_tags",
        "pointers_at",
        "records_standing_at",
        "one_way",
        "first_one_way",
        "used_and_one_way",
        "payload_at",
        "link_laws",
    ]
    .contains(&name)
}

/// Whether a call is asked of the table alone, since a document would take a walk for each of many places.
pub(crate) fn is_about_tables(name: &str) -> bool {
    name == "used_and_one_way"
}

/// Tells what a call answers for a forest.
pub(crate) fn tell<F: Forest>(
    alloc: Global,
    question: Question<'_>,
    forest: &F,
    told: &mut Answer,
) {
    tell_resolved(alloc, question, forest, resolve(alloc, forest), told);
}

/// Tells what a call answers for the table of a file whose records a reader has listed while it was made.
pub(crate) fn tell_listed(alloc: Global, question: Question<'_>, file: &[u8], told: &mut Answer) {
    let Ok(mut records) = RecordReader::new(alloc) else {
        return told.lack_memory();
    };
    match flatten_with(alloc, file, &mut records) {
        Ok(flat) => {
            let resolved = resolve_with(alloc, &flat, records);
            tell_resolved(alloc, question, &flat, resolved, told);
        }
        Err(BuildFault::At(_)) => told.say("no document"),
        Err(BuildFault::Memory(_)) => told.lack_memory(),
    }
}

fn tell_resolved<F: Forest>(
    alloc: Global,
    question: Question<'_>,
    forest: &F,
    resolved: Result<Index, LinkFault>,
    told: &mut Answer,
)
    requires { IfOk resolved (λ index. IsIndexOf (F.trees forest.now) index) }
{
    match resolved {
        Ok(index) => tell_index(alloc, question, forest, &index, told),
        Err(LinkFault::Duplicate(line)) => told.say_fault(17, line),
        Err(LinkFault::Dangling(line)) => told.say_fault(18, line),
        Err(LinkFault::Memory(_)) => told.lack_memory(),
    }
}

fn tell_index<F: Forest>(
    alloc: Global,
    question: Question<'_>,
    forest: &F,
    index: &Index,
    told: &mut Answer,
)
    requires { IsIndexOf (F.trees forest.now) index.now }
{
    match question.name {
        "payload_at" => say_payload(question.word, forest, told),
        "pointers_at" => say_pointers(question.word, forest, index, told),
        "records_standing_at" => say_standing(question.word, index, told),
        "first_one_way" => told.say_optional(first_one_way(forest, index)),
        "one_way" => {
            if let Some(notices) = told.given(one_way(alloc, forest, index)) {
                say_notices(told, &notices);
            }
        }
        "used_and_one_way" => say_counts(alloc, forest, index, told),
        _ => tell_record(alloc, question, index, told),
    }
}

/// The calls that ask about one record, by its name or its number.
fn tell_record(alloc: Global, question: Question<'_>, index: &Index, told: &mut Answer) {
    let word = question.word;
    match question.name {
        "Index::record_of" => match Xref::read(alloc, word) {
            Ok(Some(xref)) => say_place(told, index.record_of(&xref)),
            Ok(None) => told.say("no identifier"),
            Err(_) => told.lack_memory(),
        },
        "Index::record_named" => say_place(told, index.record_named(word)),
        "Index::place_of" => say_place(told, index.place_of(word)),
        "Index::leads_to" => say_types(word, index, told),
        "Index::is_used" => told.say_truth(index.is_used(place_in(word))),
        "Index::are_led_by_tags" => told.say_truth(index.are_led_by_tags()),
        "link_laws" => state_laws(told),
        _ => told.say("Index"),
    }
}

fn say_place(told: &mut Answer, place: Option<usize>) {
    told.say_optional(place.map(|place| place as u64));
}

/// The number that a word is, or the greatest one.
fn place_in(word: &str) -> usize {
    word.parse::<usize>().unwrap_or(usize::MAX)
}

const TYPES: [(RecordType, &str); 6] = [
    (RecordType::Fam, "Fam"),
    (RecordType::Indi, "Indi"),
    (RecordType::Obje, "Obje"),
    (RecordType::Snote, "Snote"),
    (RecordType::Sour, "Sour"),
    (RecordType::Subm, "Subm"),
];

/// Says each type that the record of a name has.
fn say_types(name: &str, index: &Index, told: &mut Answer) {
    for (wanted, word) in TYPES {
        if index.leads_to(name, wanted) {
            told.say(word);
        }
    }
}

/// Says for each pointer at these places, in this order and with one cursor, the number of the record that it names, and
/// with another cursor each type that this record has.
fn say_pointers<F: Forest>(places: &str, forest: &F, index: &Index, told: &mut Answer) {
    let mut numbers = PointerCursor::new();
    let mut types = PointerCursor::new();
    for place in places.split(',') {
        let place = place_in(place);
        if let Some(name) = pointer_at(forest, place) {
            say_place(told, index.record_at(place, name, &mut numbers));
            for (wanted, word) in TYPES {
                if index.leads_at(place, name, wanted, &mut types) {
                    told.say(" ");
                    told.say(word);
                }
            }
            told.say("\n");
        }
    }
}

fn pointer_at<F: Forest>(forest: &F, place: usize) -> Option<&str> {
    if place >= forest.size() {
        return None;
    }
    match forest.payload(place) {
        PayloadView::Pointer(name) => Some(name),
        _ => None,
    }
}

/// Says the number of each record that stands at one of these places, in this order and with one cursor, whether it has an identifier or not.
fn say_standing(places: &str, index: &Index, told: &mut Answer) {
    let mut cursor = RecordCursor::new();
    for place in places.split(',') {
        say_place(told, index.record_standing_at(place_in(place), &mut cursor));
        told.say("\n");
    }
}

/// Says the payload at a place.
fn say_payload<F: Forest>(place: &str, forest: &F, told: &mut Answer) {
    let place = place_in(place);
    if place >= forest.size() {
        return told.say("None");
    }
    match forest.payload(place) {
        PayloadView::Void => told.say("Void"),
        PayloadView::Pointer(name) => {
            told.say("Pointer(");
            told.say(name);
            told.say(")");
        }
        PayloadView::Text(first) => {
            told.say(first);
            for number in 0..forest.further(place) {
                told.say("\n");
                told.say(forest.further_line(place, number));
            }
        }
    }
}

pub(crate) fn say_notices(told: &mut Answer, notices: &[Notice]) {
    for notice in notices {
        told.say_number(notice.line);
        let word = match notice.kind {
            NoticeKind::OneWay => " OneWay\n",
            NoticeKind::Unlisted => " Unlisted\n",
        };
        told.say(word);
    }
}

/// Says how many records are used, and how many notices there are.
fn say_counts<F: Forest>(alloc: Global, forest: &F, index: &Index, told: &mut Answer)
    requires { IsIndexOf (F.trees forest.now) index.now }
{
    let mut used = 0u64;
    for number in 0..forest.size() {
        used = used.saturating_add(u64::from(index.is_used(number)));
    }
    told.say_number(used);
    told.say(" ");
    if let Some(notices) = told.given(one_way(alloc, forest, index)) {
        told.say_number(notices.len() as u64);
    }
}

/// Calls each law of the definitions once: their contracts are proved, and they do nothing.
fn state_laws(told: &mut Answer) {
    resolved_is_faultless();
    one_link_fault();
    one_way_has_place();
    identifiers_have_places();
    one_record_has_name();
    resolved_or_fault();
    told.say("stated")
}
