// Calls of `ged_canon`: those that any forest answers, and those about a document.
ghost use Rattle.std.specs.Prelude.{IfOk, IfSome};
ghost use Rattle.ged_link.specs.Indexes.{IsIndexOf};
ghost use Rattle.ged_schema.specs.Checked.{Checked};

use crate::questions::document_of_file;
use ged_canon::{
    Edition, canonical_bytes, canonical_bytes_in, editions_agree, editions_agree_in_place,
    equal_normal_forms, equal_tidy_forms, equivalence, is_normal, is_normal_in, normal_form_exists,
    normal_form_is_accepted, normal_form_is_unique, normal_form_of_tidy, steps, steps_in_place,
    tidy_bytes_in, tidy_form_exists, tidy_form_is_unique,
};
use ged_document::{Document, canonical, canonical_in, write_document};
use ged_examples_answers::{Answer, Question};
use ged_link::{Index, LinkFault, resolve};
use ged_schema::check;
use ged_tree::Forest;
use std::alloc::{AllocError, Global};

pub(crate) fn has_call(name: &str) -> bool {
    ["is_normal", "canonical_bytes", "tidy_bytes", "canon_laws"].contains(&name)
}

/// The edition of a word; `None` asks the call that speaks of none.
pub(crate) fn edition_of(word: &str) -> Option<Edition> {
    match word {
        "First" => Some(Edition::First),
        "Second" => Some(Edition::Second),
        _ => None,
    }
}

/// The index of a forest that is as the structure tables ask, or `None` for any other.
pub(crate) fn index_of<F: Forest>(alloc: Global, forest: &F) -> Result<Option<Index>, AllocError>
    ensures index { IfOk result (λ found. IfSome found (λ index. IsIndexOf (F.trees forest.now) index)) }
    ensures checked { IfOk result (λ found. IfSome found (λ _. Checked (F.trees forest.now))) }
{
    match resolve(alloc, forest) {
        Ok(index) => match check(forest, &index) {
            Ok(()) => Ok(Some(index)),
            Err(_) => Ok(None),
        },
        Err(LinkFault::Memory(error)) => Err(error),
        Err(_) => Ok(None),
    }
}

/// Tells what a call answers for a forest.
pub(crate) fn tell<F: Forest>(
    alloc: Global,
    question: Question<'_>,
    forest: &F,
    told: &mut Answer,
) {
    match index_of(alloc, forest) {
        Ok(Some(index)) => tell_index(alloc, question, forest, &index, told),
        Ok(None) => told.say("not checked"),
        Err(_) => told.lack_memory(),
    }
}

fn tell_index<F: Forest>(
    alloc: Global,
    question: Question<'_>,
    forest: &F,
    index: &Index,
    told: &mut Answer,
)
    requires index { IsIndexOf (F.trees forest.now) index.now }
    requires checked { Checked (F.trees forest.now) }
{
    let edition = edition_of(question.word);
    match question.name {
        "is_normal" => told.say_truth(tells_normal(edition, forest, index)),
        "canonical_bytes" => say_bytes(alloc, edition, forest, index, told),
        "tidy_bytes" => say_tidy(alloc, edition, forest, index, told),
        _ => state_laws(told),
    }
}

fn tells_normal<F: Forest>(edition: Option<Edition>, forest: &F, index: &Index) -> bool
    requires { IsIndexOf (F.trees forest.now) index.now }
{
    match edition {
        Some(edition) => is_normal_in(edition, forest, index),
        None => is_normal(forest, index),
    }
}

fn say_bytes<F: Forest>(
    alloc: Global,
    edition: Option<Edition>,
    forest: &F,
    index: &Index,
    told: &mut Answer,
)
    requires index { IsIndexOf (F.trees forest.now) index.now }
    requires checked { Checked (F.trees forest.now) }
{
    let made = match edition {
        Some(edition) => canonical_bytes_in(alloc, edition, forest, index),
        None => canonical_bytes(alloc, forest, index),
    };
    if let Some(bytes) = told.given(made) {
        told.say_bytes(&bytes);
    }
}

fn say_tidy<F: Forest>(
    alloc: Global,
    edition: Option<Edition>,
    forest: &F,
    index: &Index,
    told: &mut Answer,
)
    requires index { IsIndexOf (F.trees forest.now) index.now }
    requires checked { Checked (F.trees forest.now) }
{
    let edition = edition.unwrap_or(Edition::First);
    if let Some(bytes) = told.given(tidy_bytes_in(alloc, edition, forest, index)) {
        told.say_bytes(&bytes);
    }
}

/// Answers a call on an argument; false where this module has no call of this name.
pub(crate) fn answer(alloc: Global, call: &str, argument: &[u8], answer: &mut Answer) -> bool {
    let question = Question::of(call);
    if !["canonical", "canonical_is_normal", "write_document"].contains(&question.name) {
        return false;
    }
    match document_of_file(alloc, argument) {
        Ok(Some(document)) => tell_document(alloc, question, &document, answer),
        Ok(None) => answer.say("no document"),
        Err(_) => answer.lack_memory(),
    }
    true
}

fn tell_document(alloc: Global, question: Question<'_>, document: &Document, answer: &mut Answer) {
    if question.name == "write_document" {
        return say_document(alloc, document, answer);
    }
    match index_of(alloc, document) {
        Ok(Some(index)) => tell_checked(alloc, question, document, &index, answer),
        Ok(None) => answer.say("not checked"),
        Err(_) => answer.lack_memory(),
    }
}

/// Tells what a call answers for the canonical form of a document.
fn tell_checked(
    alloc: Global,
    question: Question<'_>,
    document: &Document,
    index: &Index,
    answer: &mut Answer,
)
    requires index { IsIndexOf document.now index.now }
    requires checked { Checked document.now }
{
    let made = match edition_of(question.word) {
        Some(edition) => canonical_in(alloc, edition, document, index),
        None => canonical(alloc, document, index),
    };
    if let Some(made) = answer.given(made) {
        tell_made(alloc, question, &made, answer);
    }
}

fn tell_made(alloc: Global, question: Question<'_>, made: &Document, answer: &mut Answer) {
    if question.name == "canonical" {
        return say_document(alloc, made, answer);
    }
    let word = question.word;
    let name = "is_normal";
    tell(alloc, Question { name, word }, made, answer);
}

fn say_document(alloc: Global, document: &Document, answer: &mut Answer) {
    if let Some(bytes) = answer.given(write_document(alloc, document)) {
        answer.say_bytes(&bytes);
    }
}

/// Calls each law of the definitions once: their contracts are proved, and they do nothing.
fn state_laws(answer: &mut Answer) {
    normal_form_is_unique();
    normal_form_exists();
    normal_form_is_accepted();
    equal_normal_forms();
    equivalence();
    steps();
    editions_agree();
    tidy_form_is_unique();
    tidy_form_exists();
    equal_tidy_forms();
    steps_in_place();
    normal_form_of_tidy();
    editions_agree_in_place();
    answer.say("stated")
}
