// How bytes are written in rows.
use ged_examples_answers::Answer;
use std::alloc::Global;
use std::io::Write;

/// More bytes of an answer are not printed.
const MOST_PRINTED: usize = 1000;

/// Appends the bytes that a text of a row stands for; false where it has an escape that is none.
///
/// `|` stands for LF, `<41>` for the byte of this hexadecimal number, `<CR>`, `<LF>` and `<BOM>` for what they say, `{H}`
/// for a header of version 7.0, and `{T}` for a trailer. `<TEXT*3>` stands for TEXT three times, and `<TEXT*0..9>` for TEXT
/// with each number from 0 to 9 in the place of `#`; TEXT may have escapes, and one such part may stand within another.
pub(crate) fn unescape(alloc: Global, text: &str, out: &mut Answer) -> bool {
    let mut outer = Answer::new(alloc);
    say_repeated(text, &mut outer);
    let mut inner = Answer::new(alloc);
    say_repeated(outer.as_str(), &mut inner);
    if outer.lacks_memory() || inner.lacks_memory() {
        out.lack_memory();
    }
    say_meant(inner.as_str(), out)
}

/// Says what a text without repeated parts stands for; false where it has an escape that is none.
fn say_meant(text: &str, out: &mut Answer) -> bool {
    let mut rest = text;
    for _ in 0..text.len() {
        rest = say_plain(rest, out);
        if rest.is_empty() {
            break;
        }
        let Some(behind) = say_escaped(rest, out) else {
            return false;
        };
        rest = behind;
    }
    true
}

/// Says the text up to the first sign that stands for another, and gives what is left.
fn say_plain<'a>(text: &'a str, out: &mut Answer) -> &'a str {
    let length = text.find(['<', '{', '|']).unwrap_or(text.len());
    let (plain, rest) = text.split_at_checked(length).unwrap_or((text, ""));
    out.say(plain);
    rest
}

/// Says what the escape at the front of a text stands for, and gives what is behind it; `None` where it is none.
fn say_escaped<'a>(text: &'a str, out: &mut Answer) -> Option<&'a str> {
    for (escape, meant) in [
        ("|", "\n"),
        ("{H}", "0 HEAD\n1 GEDC\n2 VERS 7.0\n"),
        ("{T}", "0 TRLR\n"),
        ("<CR>", "\r"),
        ("<LF>", "\n"),
        ("<BOM>", "\u{FEFF}"),
    ] {
        if let Some(behind) = text.strip_prefix(escape) {
            out.say(meant);
            return Some(behind);
        }
    }
    let (byte, behind) = byte_at_front(text)?;
    out.say_bytes(&[byte]);
    Some(behind)
}

/// The byte that `<41>` at the front of a text stands for, and what is behind it.
fn byte_at_front(text: &str) -> Option<(u8, &str)> {
    let (digits, behind) = text.strip_prefix('<')?.split_once('>')?;
    if digits.len() != 2 {
        return None;
    }
    let byte = u8::from_str_radix(digits, 16).ok()?;
    Some((byte, behind))
}

/// Says the text with each `<TEXT*3>` in it written out, but for those within others.
fn say_repeated(text: &str, out: &mut Answer) {
    let mut rest = text;
    for _ in 0..text.len() {
        let Some((before, behind)) = rest.split_once('<') else {
            break;
        };
        out.say(before);
        rest = match split_closed(behind) {
            Some((inside, after)) => {
                say_part(inside, out);
                after
            }
            None => {
                out.say("<");
                behind
            }
        };
    }
    out.say(rest);
}

/// Says what stands between two signs `<` and `>`, as often as it says, or as it was.
fn say_part(inside: &str, out: &mut Answer) {
    if let Some((part, count)) = inside.rsplit_once('*') {
        if let Ok(count) = count.parse::<u32>() {
            for _ in 0..count {
                out.say(part);
            }
            return;
        }
        if let Some((first, last)) = read_range(count) {
            for number in first..=last {
                say_numbered(part, number, out);
            }
            return;
        }
    }
    out.say("<");
    out.say(inside);
    out.say(">");
}

/// The first and the last number of `0..99`.
fn read_range(text: &str) -> Option<(u32, u32)> {
    let (first, last) = text.split_once("..")?;
    Some((first.parse::<u32>().ok()?, last.parse::<u32>().ok()?))
}

/// Says a text with a number in the place of each `#`.
fn say_numbered(text: &str, number: u32, out: &mut Answer) {
    let mut is_first = true;
    for part in text.split('#') {
        if !is_first {
            out.say_number(u64::from(number));
        }
        out.say(part);
        is_first = false;
    }
}

/// What stands before the `>` that closes a `<` before the text, and what stands behind it.
fn split_closed(text: &str) -> Option<(&str, &str)> {
    let mut open = 0u32;
    for (at, byte) in text.bytes().enumerate() {
        if byte == b'<' {
            open = open.saturating_add(1);
        } else if byte == b'>' {
            if open == 0 {
                let (inside, closed) = text.split_at_checked(at)?;
                return Some((inside, closed.strip_prefix('>')?));
            }
            open = open.saturating_sub(1);
        }
    }
    None
}

/// Says the bytes as a row would have them, or their front.
pub(crate) fn escape(bytes: &[u8], out: &mut Answer) {
    for byte in bytes.iter().take(MOST_PRINTED) {
        match *byte {
            b'\n' => out.say("|"),
            b'<' | b'{' | b'|' | ..b' ' | 127.. => say_hexadecimal(*byte, out),
            _ => out.say_bytes(&[*byte]),
        }
    }
    if bytes.len() > MOST_PRINTED {
        out.say(".. (");
        out.say_number(bytes.len() as u64);
        out.say(" bytes)");
    }
}

fn say_hexadecimal(byte: u8, out: &mut Answer) {
    if write!(out.bytes, "<{byte:02X}>").is_err() {
        out.lack_memory();
    }
}
