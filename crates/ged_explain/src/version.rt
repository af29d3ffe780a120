// The version that the header of a file says, where it is another one than is read.
use crate::explanation::Explanation;
use crate::path::NAME_COLUMNS;
use ged_faults::FileFault;
use ged_line::{ValueView, split_pieces, view_line};
use ged_value::{Given, Kind, fits};

/// Says that the file is of another version. The fault of the version says so itself; with any other one the file would be mended by
/// hand, line by line, where it only has to be exported again. What is a notice is told of a file whose version is read: the header is
/// not looked at, so that many notices do not read it many times.
pub(crate) fn say_other_version(kind: FileFault, bytes: &[u8], told: &mut Explanation) {
    match kind {
        FileFault::WrongVersion | FileFault::OneWayLink | FileFault::UnlistedTag => return,
        _ => {}
    }
    if let Some((line, value)) = version_in(bytes) {
        let version = text_of(value);
        if is_other(version) {
            told.say("  version: line ");
            told.say_number(line);
            told.say(" says ");
            told.say_clipped(version.as_bytes(), NAME_COLUMNS);
            told.say(", and gedtool reads 7.0: export the file again as GEDCOM 7.0\n");
        }
    }
}

/// The number and the value of the header's line that says the version.
fn version_in<'a>(bytes: &'a [u8]) -> Option<(u64, ValueView<'a>)> {
    let mut number = 0u64;
    let mut is_below_gedc = false;
    for piece in split_pieces(bytes) {
        number = number.saturating_add(1);
        if is_outside_header(number, piece) {
            break;
        }
        if has_level(piece, b'1') {
            is_below_gedc = false;
        }
        if let Ok(line) = view_line(piece) {
            let level = line.level();
            if level == 1 && line.tag() == "GEDC" {
                is_below_gedc = true;
            }
            if level == 2 && is_below_gedc && line.tag() == "VERS" {
                return Some((number, line.value()));
            }
        }
    }
    None
}

/// Whether a line is none of the header, if those before it are: the first one is the header's if it is 0 HEAD, and a further one if it
/// has not level 0. A record ends the header even if its identifier is none.
fn is_outside_header(number: u64, piece: &[u8]) -> bool {
    if number == 1 {
        return !is_head(piece);
    }
    has_level(piece, b'0')
}

/// Whether what stands between two line ends begins with a level of one digit, even if it is no line.
fn has_level(piece: &[u8], digit: u8) -> bool {
    match piece {
        [first, b' ', ..] => *first == digit,
        _ => false,
    }
}

fn is_head(piece: &[u8]) -> bool {
    match view_line(piece) {
        Ok(line) => line.level() == 0 && line.tag() == "HEAD",
        Err(_) => false,
    }
}

/// A version without the blanks behind it, which are no version and no reason to export the file again.
fn text_of<'a>(value: ValueView<'a>) -> &'a str {
    match value {
        ValueView::Text(text) => text.trim_end_matches(' '),
        _ => "",
    }
}

/// Whether a version is one, and not read.
fn is_other(version: &str) -> bool {
    !version.is_empty() && !fits(Kind::Version, Given::One(version))
}
