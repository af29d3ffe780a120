// What is wrong with a line by itself: faults 1 to 8.
use crate::explanation::Explanation;
use crate::path::NAME_COLUMNS;
use crate::site::Site;
use ged_faults::FileFault;
use ged_line::is_plain;
use std::str;

pub(crate) fn say_wrong_line(kind: FileFault, piece: &[u8], told: &mut Explanation) {
    match kind {
        FileFault::NotUtf8 => say_wrong_byte(piece, told),
        FileFault::BannedCharacter => say_banned(piece, told),
        FileFault::EmptyLine => told.say("every line has a level and a tag"),
        FileFault::BadLevel => told.say(
            "a line begins with its level, such as 0 or 1, and one space",
        ),
        FileFault::LevelTooLarge => told.say(
            "the number in front is the level; the greatest one is 99",
        ),
        FileFault::BadXref => {
            told.say(
                "after the level belongs a tag, or an identifier such as @I7@, a space and a tag",
            )
        }
        FileFault::BadTag => say_wrong_tag(piece, told),
        _ => told.say(
            "a value that begins with @ is a pointer such as @F1@, or a text that begins with @@",
        ),
    }
}

fn say_wrong_byte(piece: &[u8], told: &mut Explanation) {
    if let Err(error) = str::from_utf8(piece) {
        let place = error.valid_up_to();
        if let Some(byte) = piece.get(place) {
            told.say("the byte ");
            told.say_byte(*byte);
            told.say(", number ");
            told.say_number((place as u64).saturating_add(1));
            told.say(" of the line, belongs to no UTF-8 character");
        }
    }
}

fn say_banned(piece: &[u8], told: &mut Explanation) {
    let text = str::from_utf8(piece).unwrap_or("");
    let mut place = 1u64;
    for character in text.chars() {
        if is_banned(character) {
            told.say("no line may have the character ");
            told.say_character_number(u32::from(character));
            told.say("; it stands at byte ");
            told.say_number(place);
            return told.say(" of the line");
        }
        place = place.saturating_add(character.len_utf8() as u64);
    }
}

fn is_banned(character: char) -> bool {
    let mut room = [0; 4];
    !is_plain(character.encode_utf8(&mut room))
}

fn say_wrong_tag(piece: &[u8], told: &mut Explanation) {
    told.say("\"");
    told.say_clipped(
        tag_of(str::from_utf8(piece).unwrap_or("")).as_bytes(),
        NAME_COLUMNS,
    );
    told.say(
        "\" is not a tag; a tag begins with a capital letter, such as SEX, or with _ and one more character, such as _MILT, and has only capital letters, digits and _",
    );
}

/// Says of a line that is none that it may be half of one, where the file ends within it: what is wrong with it is then no mistake of
/// whoever wrote it.
pub(crate) fn say_cut_off(kind: FileFault, site: &Site<'_, '_>, told: &mut Explanation) {
    if is_of_half_line(kind) && site.ends_file() && !is_trailer(site.piece.unwrap_or(&[])) {
        told.say(
            "  end: the file ends within this line, so it may have been cut off: get it again\n",
        );
    }
}

/// Whether half a line may have a fault.
fn is_of_half_line(kind: FileFault) -> bool {
    matches!(
        kind,
        FileFault::NotUtf8
            | FileFault::BadLevel
            | FileFault::BadXref
            | FileFault::BadTag
            | FileFault::BadValue
    )
}

/// Whether a line is meant to be the last one, behind which the line end is often left out.
fn is_trailer(piece: &[u8]) -> bool {
    let text = str::from_utf8(piece).unwrap_or("");
    text.ends_with("TRLR") || text.ends_with("trlr")
}

/// What stands at the tag's place: behind the level, and behind an identifier if there is one, up to the next space.
fn tag_of(text: &str) -> &str {
    let behind = behind_space(text);
    let rest = if behind.starts_with('@') {
        behind_space(behind)
    } else {
        behind
    };
    match rest.split_once(' ') {
        Some((tag, _)) => tag,
        None => rest,
    }
}

/// What stands behind the first space.
fn behind_space(text: &str) -> &str {
    match text.split_once(' ') {
        Some((_, behind)) => behind,
        None => "",
    }
}
