// Calls of `ged_canon` on a form in slices of its file.
ghost use Rattle.ged_tree.specs.BareLines.{AreBareLines};
ghost use Rattle.ged_link.specs.Indexes.{IsIndexOf};
ghost use Rattle.ged_schema.specs.Checked.{Checked};

use crate::canon::{edition_of, index_of};
use ged_canon::{
    Edition, IndexedDocument, SpelledForm, have_same_form, spell_canonical_in, spell_tidy_in,
};
use ged_examples_answers::{Answer, Question, two_parts};
use ged_link::Index;
use ged_tree::{Flat, flatten};
use std::alloc::{AllocError, Global};

/// Answers a call on a file; false where this module has no call of this name.
pub(crate) fn answer(alloc: Global, call: &str, argument: &[u8], answer: &mut Answer) -> bool {
    let question = Question::of(call);
    if question.name == "have_same_form" {
        tell_sameness(alloc, question, argument, answer);
        return true;
    }
    if !["canonical_form", "tidy_form"].contains(&question.name) {
        return false;
    }
    match flatten(alloc, argument) {
        Ok(flat) => tell_table(alloc, question, &flat, answer),
        Err(_) => answer.say("no document"),
    }
    true
}

fn tell_table(alloc: Global, question: Question<'_>, flat: &Flat<'_>, told: &mut Answer) {
    match index_of(alloc, flat) {
        Ok(Some(index)) => tell_form(alloc, question, flat, &index, told),
        Ok(None) => told.say("not checked"),
        Err(_) => told.lack_memory(),
    }
}

fn tell_form(
    alloc: Global,
    question: Question<'_>,
    flat: &Flat<'_>,
    index: &Index,
    told: &mut Answer,
)
    requires index { IsIndexOf flat.now index.now }
    requires checked { Checked flat.now }
{
    let edition = edition_of(question.word).unwrap_or(Edition::First);
    let lines = flat.bare_lines();
    let made = match question.name {
        "tidy_form" => spell_tidy_in(alloc, edition, flat, index, lines),
        _ => spell_canonical_in(alloc, edition, flat, index, lines),
    };
    if let Some(form) = told.given(made) {
        say_form(alloc, form, told);
    }
}

/// Tells the bytes of a form, where all ways to read them agree.
fn say_form(alloc: Global, form: SpelledForm<'_>, told: &mut Answer) {
    let Some(read) = told.given(read_by_sevens(alloc, &form)) else {
        return;
    };
    if !form.reader().passes(&read) {
        told.say("passes: other bytes");
    }
    if form.reader().next_up_to(3) != "\u{feff}".as_bytes() {
        told.say("next_up_to: no mark");
    }
    if let Some(bytes) = told.given(form.into_bytes(alloc)) {
        if bytes.as_slice() != read.as_slice() {
            told.say("into_bytes: other bytes");
        }
        told.say_bytes(&bytes);
    }
}

/// The bytes of a form, read through a buffer of seven.
fn read_by_sevens(alloc: Global, form: &SpelledForm<'_>) -> Result<Vec<u8>, AllocError> {
    let mut bytes = Vec::new(alloc);
    let mut reader = form.reader();
    let mut buffer = [0u8; 7];
    for _ in 0..u64::MAX {
        let count = reader.fill(&mut buffer);
        if count == 0 {
            break;
        }
        bytes.extend_from_slice(&buffer[..count])?;
    }
    Ok(bytes)
}

/// Tells whether the documents of two files, which the byte 0 parts, have the same form.
fn tell_sameness(alloc: Global, question: Question<'_>, argument: &[u8], told: &mut Answer) {
    let (first, second) = two_parts(argument);
    let (Ok(flat), Ok(other_flat)) = (flatten(alloc, first), flatten(alloc, second)) else {
        told.say("no document");
        return;
    };
    let (Ok(Some(index)), Ok(Some(other_index))) = (
        index_of(alloc, &flat),
        index_of(alloc, &other_flat),
    ) else {
        told.say("not checked");
        return;
    };
    let one = IndexedDocument {
        forest: &flat,
        index: &index,
        lines: flat.bare_lines(),
    };
    let other = IndexedDocument {
        forest: &other_flat,
        index: &other_index,
        lines: other_flat.bare_lines(),
    };
    tell_same_form(alloc, question, &one, &other, told);
}

/// Tells whether two documents have the same form; also whether their forms have other bytes all the same, or the same bytes where they have not.
fn tell_same_form(
    alloc: Global,
    question: Question<'_>,
    one: &IndexedDocument<'_, Flat<'_>>,
    other: &IndexedDocument<'_, Flat<'_>>,
    told: &mut Answer,
)
    requires lines { AreBareLines one.now.forest.now one.now.lines }
    requires index { IsIndexOf one.now.forest.now one.now.index.now }
    requires checked { Checked one.now.forest.now }
    requires other_lines { AreBareLines other.now.forest.now other.now.lines }
    requires other_index { IsIndexOf other.now.forest.now other.now.index.now }
    requires other_checked { Checked other.now.forest.now }
{
    let edition = edition_of(question.word).unwrap_or(Edition::First);
    let Some(same) = told.given(have_same_form(alloc, edition, one, other)) else {
        return;
    };
    told.say_truth(same);
    let made = spell_canonical_in(alloc, edition, one.forest, one.index, one.lines);
    let other_made = spell_canonical_in(alloc, edition, other.forest, other.index, other.lines);
    if let (Some(form), Some(other_form)) = (told.given(made), told.given(other_made)) {
        if form.has_bytes_of(&other_form) != same {
            told.say(" has_bytes_of: not as told");
        }
    }
}
