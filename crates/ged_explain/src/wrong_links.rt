// What is wrong with an identifier or a pointer: faults 17, 18, 21 and 28.
use crate::explanation::Explanation;
use crate::kinds::wanted;
use crate::path::{NAME_COLUMNS, Step, say_identifier};
use crate::site::{Record, Site};
use ged_faults::FileFault;

pub(crate) fn say_wrong_link(
    kind: FileFault,
    site: &Site<'_, '_>,
    own: Step<'_>,
    told: &mut Explanation,
) {
    match kind {
        FileFault::DuplicateXref => say_duplicate(site, own, told),
        FileFault::DanglingPointer => say_dangling(own, told),
        FileFault::WrongTarget => say_target(site, own, told),
        _ => say_one_way(site, own, told),
    }
}

fn say_duplicate(site: &Site<'_, '_>, own: Step<'_>, told: &mut Explanation) {
    let name = own.xref.unwrap_or("");
    say_identifier(name, told);
    told.say(" is the identifier of ");
    say_record(site.record_named(name), told);
    told.say(" too");
}

fn say_dangling(own: Step<'_>, told: &mut Explanation) {
    say_identifier(own.pointer().unwrap_or(""), told);
    told.say(" is no record's identifier");
}

fn say_target(site: &Site<'_, '_>, own: Step<'_>, told: &mut Explanation) {
    let name = own.pointer().unwrap_or("");
    if let Some(rule) = site.rule(own) {
        told.say(wanted(rule.kind));
        told.say(" belongs here; ");
    }
    say_identifier(name, told);
    told.say(" is ");
    say_record(site.record_named(name), told);
}

/// Says `the SOUR record of line 30`.
fn say_record(record: Option<Record<'_>>, told: &mut Explanation) {
    let Some(record) = record else {
        return told.say("no record");
    };
    told.say("the ");
    told.say_clipped(record.tag.as_bytes(), NAME_COLUMNS);
    told.say(" record of line ");
    told.say_number(record.line);
}

fn say_one_way(site: &Site<'_, '_>, own: Step<'_>, told: &mut Explanation) {
    let Some(name) = site.path.record().and_then(|record| record.xref) else {
        return told.say(
            "the record has no identifier, so that no other record can name it: give the record an identifier first",
        );
    };
    let pointed = own.pointer().unwrap_or("");
    say_record(site.record_named(pointed), told);
    told.say(" has no ");
    told.say(answering(own.tag));
    told.say(" ");
    say_identifier(name, told);
}

/// The tag of the link that answers one with this tag.
fn answering(tag: &str) -> &'static str {
    match tag {
        "FAMC" => "CHIL",
        "CHIL" => "FAMC",
        "FAMS" => "HUSB or WIFE",
        _ => "FAMS",
    }
}
