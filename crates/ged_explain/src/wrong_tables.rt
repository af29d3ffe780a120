// What the structure tables find wrong: faults 19, 20, 22, 23 and 29.
use crate::explanation::Explanation;
use crate::kinds::wanted;
use crate::path::{NAME_COLUMNS, Step, say_identifier};
use crate::site::Site;
use ged_faults::FileFault;
use ged_line::ValueView;
use ged_schema::rows;

pub(crate) fn say_wrong_by_tables(
    kind: FileFault,
    site: &Site<'_, '_>,
    own: Step<'_>,
    told: &mut Explanation,
) {
    match kind {
        FileFault::WrongVersion => say_version(site, own, told),
        FileFault::BadPayload => say_payload(site, own, told),
        FileFault::TooMany => say_too_many(site, own, told),
        FileFault::Missing => say_missing(site, own, told),
        _ => say_unlisted(site, own, told),
    }
}

fn say_version(site: &Site<'_, '_>, own: Step<'_>, told: &mut Explanation) {
    told.say("this file says ");
    match own.value {
        _ if site.is_continued(own) => told.say("a version of several lines"),
        ValueView::Empty => told.say("no version"),
        ValueView::Text(_) => {
            told.say("version ");
            say_value(own.value, told);
        }
        _ => say_value(own.value, told),
    }
    told.say("; gedtool reads 7.0");
}

fn say_payload(site: &Site<'_, '_>, own: Step<'_>, told: &mut Explanation) {
    if let Some(rule) = site.rule(own) {
        told.say(wanted(rule.kind));
        told.say(" belongs here; ");
    }
    told.say("found ");
    if site.is_continued(own) {
        return told.say("a text of several lines");
    }
    say_value(own.value, told);
}

pub(crate) fn say_value(value: ValueView<'_>, told: &mut Explanation) {
    match value {
        ValueView::Empty => told.say("nothing"),
        ValueView::Void => told.say("the pointer @VOID@"),
        ValueView::Pointer(name) => {
            told.say("the pointer ");
            say_identifier(name, told);
        }
        ValueView::Text(text) => {
            told.say("\"");
            told.say_clipped(text.as_bytes(), NAME_COLUMNS);
            told.say("\"");
        }
    }
}

fn say_tag(own: Step<'_>, told: &mut Explanation) {
    told.say_clipped(own.tag.as_bytes(), NAME_COLUMNS);
}

fn say_too_many(site: &Site<'_, '_>, own: Step<'_>, told: &mut Explanation) {
    say_tag(own, told);
    told.say(" may stand once here; the first one stands at line ");
    told.say_number(site.first_sibling(own));
}

/// Says the tags that have to stand below a line and do not.
fn say_missing(site: &Site<'_, '_>, own: Step<'_>, told: &mut Explanation) {
    let mut is_one = false;
    let mut are_many = false;
    for rule in rows(site.context_below(own)) {
        if rule.least > 0 && !site.has_below(own, rule.tag) {
            if is_one {
                told.say(" and ");
            }
            told.say(rule.tag);
            are_many = is_one;
            is_one = true;
        }
    }
    told.say(if are_many {
        " have to stand below "
    } else {
        " has to stand below "
    });
    say_tag(own, told);
}

fn say_unlisted(site: &Site<'_, '_>, own: Step<'_>, told: &mut Explanation) {
    say_tag(own, told);
    told.say(" is not listed ");
    match site.path.superstructure(own.level) {
        Some(above) => {
            told.say("below ");
            say_tag(above, told);
        }
        None => told.say("at level 0"),
    }
    if own.tag == "CONC" {
        return told.say("; GEDCOM 7.0 has no CONC: join its text to the line before");
    }
    say_listed(site, own, told);
}

/// Says the tags that the structure tables list at the place of a line.
fn say_listed(site: &Site<'_, '_>, own: Step<'_>, told: &mut Explanation) {
    let listed = rows(site.path.context(own.level));
    if listed.is_empty() {
        return told.say("; no tag is listed there");
    }
    told.say("; listed there:");
    for rule in listed {
        // A header stands on the first line alone.
        if rule.tag != "HEAD" {
            told.say(" ");
            told.say(rule.tag);
        }
    }
}
