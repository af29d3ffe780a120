// Calls of `ged_schema`: the rows of the tables, and what they find in a file, which any forest answers.
ghost use Rattle.ged_link.specs.Indexes.{IsIndexOf};

use crate::links::say_notices;
use ged_examples_answers::{Answer, Question};
use ged_line::Tag;
use ged_link::{Index, LinkFault, resolve};
use ged_schema::{
    Context, ContextRows, Coverage, LineWalk, Profile, Rule, SchemaAt, SchemaFault, check,
    check_as, check_coverage, check_walked, checked_or_fault, context_below, distinct_tags,
    fault_of_unchecked, first_unlisted, lookup, lookup_name, no_fault_of_checked, none_is_unlisted,
    one_first_fault, one_listing, one_notice, rows, unlisted, unlisted_has_place,
};
use ged_tree::{BuildFault, Forest, flatten_with};
use std::alloc::Global;
use std::io::Write;

pub(crate) fn has_call(name: &str) -> bool {
    [
        "check_tables",
        "check_as",
        "check_coverage",
        "check_walked",
        "unlisted",
        "first_unlisted",
        "table_laws",
    ]
    .contains(&name)
}

/// Tells what a call answers for a forest.
pub(crate) fn tell<F: Forest>(
    alloc: Global,
    question: Question<'_>,
    forest: &F,
    told: &mut Answer,
) {
    match question.name {
        "unlisted" => {
            if let Some(notices) = told.given(unlisted(alloc, forest)) {
                say_notices(told, &notices);
            }
        }
        "first_unlisted" => told.say_optional(first_unlisted(forest)),
        _ => tell_resolved(alloc, question, forest, told),
    }
}

fn tell_resolved<F: Forest>(alloc: Global, question: Question<'_>, forest: &F, told: &mut Answer) {
    match resolve(alloc, forest) {
        Ok(index) => tell_index(question, forest, &index, told),
        Err(LinkFault::Memory(_)) => told.lack_memory(),
        Err(_) => told.say("no index"),
    }
}

fn profile_of(word: &str) -> Profile {
    match word {
        "Strict" => Profile::Strict,
        _ => Profile::Lenient,
    }
}

fn say_walked(told: &mut Answer, name: &str, judgment: Result<Coverage, SchemaAt>) {
    match judgment {
        Ok(_) if name == "check_tables" => told.say("Checked"),
        _ => say_coverage(told, judgment),
    }
}

/// Tells what `check_walked` answers for the table of a file whose lines a walk has read while it was made.
pub(crate) fn tell_walked(alloc: Global, question: Question<'_>, file: &[u8], told: &mut Answer) {
    let mut walk = LineWalk::new();
    match flatten_with(alloc, file, &mut walk) {
        Ok(flat) => match resolve(alloc, &flat) {
            Ok(index) => {
                let judgment = check_walked(profile_of(question.word), &flat, &index, &walk);
                say_walked(told, question.name, judgment);
            }
            Err(LinkFault::Memory(_)) => told.lack_memory(),
            Err(_) => told.say("no index"),
        },
        Err(BuildFault::At(_)) => told.say("no document"),
        Err(BuildFault::Memory(_)) => told.lack_memory(),
    }
}

fn tell_index<F: Forest>(question: Question<'_>, forest: &F, index: &Index, told: &mut Answer)
    requires { IsIndexOf (F.trees forest.now) index.now }
{
    let profile = profile_of(question.word);
    match question.name {
        "check_tables" => say_judgment(told, check(forest, index)),
        "check_as" => say_judgment(told, check_as(profile, forest, index)),
        "check_coverage" | "check_walked" => {
            say_coverage(told, check_coverage(profile, forest, index))
        }
        _ => {
            state_laws(profile, forest, index);
            told.say("stated")
        }
    }
}

fn fault_number(fault: SchemaFault) -> u64 {
    match fault {
        SchemaFault::WrongVersion => 19,
        SchemaFault::BadPayload => 20,
        SchemaFault::WrongTarget => 21,
        SchemaFault::TooMany => 22,
        SchemaFault::Missing => 23,
        SchemaFault::OneWayLink => 28,
        SchemaFault::UnlistedTag => 29,
    }
}

fn say_judgment(told: &mut Answer, judgment: Result<(), SchemaAt>) {
    match judgment {
        Ok(()) => told.say("Checked"),
        Err(at) => told.say_fault(fault_number(at.fault), at.line),
    }
}

fn say_coverage(told: &mut Answer, judgment: Result<Coverage, SchemaAt>) {
    match judgment {
        Ok(Coverage::Whole) => told.say("Whole"),
        Ok(Coverage::Partial) => told.say("Partial"),
        Err(at) => told.say_fault(fault_number(at.fault), at.line),
    }
}

/// Answers a call on an argument; false where this module has no call of this name.
pub(crate) fn answer(alloc: Global, call: &str, argument: &[u8], answer: &mut Answer) -> bool {
    let Ok(text) = str::from_utf8(argument) else {
        return false;
    };
    let (word, name) = text.split_once(' ').unwrap_or((text, ""));
    let Some((_, context)) = CONTEXTS.iter().find(|(name, _)| *name == word) else {
        return false;
    };
    match call {
        "rows" => say_rows(*context, answer),
        "lookup" => match Tag::read(alloc, name) {
            Ok(tag) => {
                let found = tag.and_then(|tag| lookup(*context, &tag));
                say_found(answer, found.as_ref());
            }
            Err(_) => answer.lack_memory(),
        },
        "lookup_name" => say_found(answer, lookup_name(*context, name).as_ref()),
        "ContextRows::row" => say_found(answer, ContextRows::of(*context).row(name)),
        "context_below" => say_context(answer, context_below(ContextRows::of(*context).row(name))),
        _ => return false,
    }
    true
}

fn say_rows(context: Context, answer: &mut Answer) {
    for rule in rows(context) {
        say_rule(answer, rule);
        answer.say("\n");
    }
}

fn say_found(answer: &mut Answer, rule: Option<&Rule>) {
    match rule {
        Some(rule) => say_rule(answer, rule),
        None => answer.say("None"),
    }
}

/// Says a row as the tables write it.
fn say_rule(answer: &mut Answer, rule: &Rule) {
    answer.say(rule.tag);
    answer.say(" ");
    answer.say_number(u64::from(rule.least));
    answer.say(":");
    match rule.most {
        Some(most) => answer.say_number(u64::from(most)),
        None => answer.say("M"),
    }
    answer.say(" ");
    answer.say(rule.kind.word());
    answer.say(" ");
    say_context(answer, rule.below);
}

fn say_context(answer: &mut Answer, context: Context) {
    let done = write!(answer.bytes, "{context:?}");
    if done.is_err() {
        answer.lack_memory();
    }
}

/// The contexts by their names.
const CONTEXTS: [(&str, Context); 34] = [
    ("File", Context::File),
    ("Head", Context::Head),
    ("Gedc", Context::Gedc),
    ("Schma", Context::Schma),
    ("HeadSour", Context::HeadSour),
    ("HeadData", Context::HeadData),
    ("HeadPlac", Context::HeadPlac),
    ("DateTime", Context::DateTime),
    ("DateMore", Context::DateMore),
    ("Phrase", Context::Phrase),
    ("Typed", Context::Typed),
    ("Indi", Context::Indi),
    ("IndiFact", Context::IndiFact),
    ("IndiNamed", Context::IndiNamed),
    ("IndiBirth", Context::IndiBirth),
    ("IndiAdop", Context::IndiAdop),
    ("AdopFamc", Context::AdopFamc),
    ("IndiFamc", Context::IndiFamc),
    ("Notes", Context::Notes),
    ("NameMore", Context::NameMore),
    ("NameTran", Context::NameTran),
    ("Fam", Context::Fam),
    ("FamFact", Context::FamFact),
    ("FamNamed", Context::FamNamed),
    ("FamAge", Context::FamAge),
    ("NonEvent", Context::NonEvent),
    ("Chan", Context::Chan),
    ("Crea", Context::Crea),
    ("Asso", Context::Asso),
    ("Cite", Context::Cite),
    ("CiteData", Context::CiteData),
    ("Note", Context::Note),
    ("Leaf", Context::Leaf),
    ("Unchecked", Context::Unchecked),
];

/// Calls each law of the definitions once: their contracts are proved, and they change nothing.
fn state_laws<F: Forest>(profile: Profile, forest: &F, index: &Index)
    requires { IsIndexOf (F.trees forest.now) index.now }
{
    distinct_tags(Context::Indi);
    one_first_fault();
    no_fault_of_checked();
    fault_of_unchecked(profile, forest, index);
    one_notice();
    unlisted_has_place();
    one_listing();
    none_is_unlisted();
    checked_or_fault();
}
