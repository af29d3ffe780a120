// What is wrong with a line among its neighbours: faults 9 to 16.
use crate::explanation::Explanation;
use crate::path::Step;
use crate::site::Site;
use crate::wrong_tables::say_value;
use ged_faults::FileFault;
use ged_line::ValueView;

pub(crate) fn say_wrong_structure(
    kind: FileFault,
    site: &Site<'_, '_>,
    own: Step<'_>,
    told: &mut Explanation,
) {
    match kind {
        FileFault::LevelJump => say_jump(site.path.before(), own.level, told),
        FileFault::XrefNotAllowed => told.say(
            "only records have identifiers; HEAD and TRLR are not records",
        ),
        FileFault::MisplacedCont => say_misplaced(own, told),
        FileFault::NoHeader => told.say("the first line has to be 0 HEAD"),
        FileFault::SecondHeader => told.say("only the first line may be 0 HEAD"),
        FileFault::TrailerNotEmpty => say_trailer_not_empty(own, told),
        _ => say_trailer(site.path.before(), told),
    }
}

fn say_jump(before: Option<Step<'_>>, level: u8, told: &mut Explanation) {
    let Some(before) = before else {
        return told.say("the first line has to be 0 HEAD");
    };
    told.say("level ");
    told.say_number(u64::from(level));
    told.say(" follows level ");
    told.say_number(u64::from(before.level));
    told.say("; the greatest level here is ");
    told.say_number(u64::from(before.level).saturating_add(1));
}

fn say_misplaced(own: Step<'_>, told: &mut Explanation) {
    if own.tag != "CONT" {
        return told.say("nothing stands below a CONT");
    }
    told.say(
        "a CONT comes straight after the text that it continues, one level deeper, and is no pointer",
    );
    match own.value {
        ValueView::Pointer(_) | ValueView::Void => told.say(
            "; a line of text that begins with @ is written with @@",
        ),
        _ => {}
    }
}

fn say_trailer_not_empty(own: Step<'_>, told: &mut Explanation) {
    told.say("0 TRLR ends the file; it has no value, and nothing stands below it");
    if own.level == 0 {
        told.say("; found ");
        say_value(own.value, told);
    }
}

fn say_trailer(before: Option<Step<'_>>, told: &mut Explanation) {
    told.say("0 TRLR");
    if let Some(before) = before {
        told.say(" of line ");
        told.say_number(before.line);
    }
    told.say(" ends the file");
}
