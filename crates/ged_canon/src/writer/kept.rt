// Lines that stand in a file as they are written.
ghost use Rattle.std.specs.Prelude.{◌≡◌, ◌≤◌, ◌+◌, ◌++◌, ◌∷◌, [], None, Some, IfSome, IsTrue, length, take, decimal, codes, slice_range};
ghost use Rattle.std.specs.Option.{option_copied};
ghost use Rattle.ged_line.specs.Bytes.{at_sign, line_feed, space};
ghost use Rattle.ged_line.specs.Lines.{line_parts, xref_part};
ghost use Rattle.ged_line.specs.Spelling.{spelling};
ghost use Rattle.ged_tree.specs.DocumentLines.{line_value};

use crate::writer::same::are_same;

/// What stands behind a level and a space, if bytes begin with this level, which has one digit.
#[inline(always)]
fn behind_level(bytes: &[u8], level: u8) -> Option<&[u8]>
    requires { level ≤ 9 }
    ensures count { IfSome result (λ behind. length bytes.now ≡ 2 + length behind.now) }
    ensures bytes { IfSome result (λ behind. bytes.now ≡ (48 + level) ∷ space ∷ behind.now) }
{
    match bytes {
        [digit, b' ', behind @ ..] if *digit == b'0' + level => Some(behind),
        _ => None,
    }
}

/// What stands behind the tag CONT, if bytes begin with it.
#[inline(always)]
fn behind_cont(bytes: &[u8]) -> Option<&[u8]>
    ensures count { IfSome result (λ behind. length bytes.now ≡ 4 + length behind.now) }
    ensures bytes { IfSome result (λ behind. bytes.now ≡ codes "CONT" ++ behind.now) }
{
    match bytes {
        [b'C', b'O', b'N', b'T', behind @ ..] => Some(behind),
        _ => None,
    }
}

/// What stands behind a byte, if bytes begin with it.
#[inline(always)]
fn behind_byte(bytes: &[u8], byte: u8) -> Option<&[u8]>
    ensures count { IfSome result (λ behind. length bytes.now ≡ 1 + length behind.now) }
    ensures bytes { IfSome result (λ behind. bytes.now ≡ byte ∷ behind.now) }
{
    match bytes {
        [first, behind @ ..] if *first == byte => Some(behind),
        _ => None,
    }
}

/// Whether bytes begin with a text and a line feed.
#[inline(always)]
fn begins_with_line(bytes: &[u8], text: &str) -> bool
    ensures fits { IsTrue result → length text.now + 1 ≤ length bytes.now }
    ensures line { IsTrue result → take (length text.now + 1) bytes.now ≡ text.now ++ line_feed ∷ [] }
{
    let count = text.len();
    if bytes.len() <= count {
        return false;
    }
    if bytes[count] != b'\n' {
        return false;
    }
    are_same(&bytes[..count], text.as_bytes())
}

/// What stands behind the identifier with this name, which stands between two `@`, and a space, if bytes begin with them.
fn behind_xref<'f>(bytes: &'f [u8], name: &str) -> Option<&'f [u8]>
    ensures count { IfSome result (λ behind. length bytes.now ≡ length name.now + 3 + length behind.now) }
    ensures bytes { IfSome result (λ behind. bytes.now ≡ xref_part (Some name.now) ++ behind.now) }
{
    let named = behind_byte(bytes, b'@')?;
    let closed = named.strip_prefix(name.as_bytes())?;
    let spaced = behind_byte(closed, b'@')?;
    let behind = behind_byte(spaced, b' ')?;
    Some(behind)
}

/// What [`kept_line`] answers for a line without an identifier.
#[inline(always)]
fn kept_without_identifier(
    file: &[u8],
    level: u8,
    rest: &str,
    place: Option<usize>,
) -> Option<(usize, usize)>
    ensures order { IfSome result (λ run. (run.0 ≤ run.1) × (run.1 ≤ length file.now)) }
    ensures line { IfSome result (λ run. slice_range file.now run.0 run.1 ≡ (decimal level ++ space ∷ rest.now) ++ line_feed ∷ []) }
{
    if level > 9 {
        return None;
    }
    let start = place?.checked_sub(2)?;
    if start > file.len() {
        return None;
    }
    let behind = behind_level(&file[start..], level)?;
    if !begins_with_line(behind, rest) {
        return None;
    }
    Some((start, start + (2 + rest.len() + 1)))
}

/// The same for the line of a record with this identifier, which has level 0.
fn kept_with_identifier(
    file: &[u8],
    name: &str,
    rest: &str,
    place: Option<usize>,
) -> Option<(usize, usize)>
    ensures order { IfSome result (λ run. (run.0 ≤ run.1) × (run.1 ≤ length file.now)) }
    ensures line { IfSome result (λ run. slice_range file.now run.0 run.1 ≡ (decimal 0 ++ space ∷ (xref_part (Some name.now) ++ rest.now)) ++ line_feed ∷ []) }
{
    let start = place?.checked_sub(name.len() + 5)?;
    if start > file.len() {
        return None;
    }
    let named = behind_level(&file[start..], 0)?;
    let behind = behind_xref(named, name)?;
    if !begins_with_line(behind, rest) {
        return None;
    }
    Some((start, start + (name.len() + 5 + rest.len() + 1)))
}

/// From where up to where a line stands in a file that has this level, this identifier or none, and this rest, if the rest stands at this
/// place and the line is spelled as it is written. Levels above 9 are not looked for, nor identifiers but at level 0.
#[inline(always)]
pub(crate) fn kept_line(
    file: &[u8],
    level: u8,
    xref: Option<&str>,
    rest: &str,
    place: Option<usize>,
) -> Option<(usize, usize)>
    ensures order { IfSome result (λ run. (run.0 ≤ run.1) × (run.1 ≤ length file.now)) }
    ensures line { IfSome result (λ run. slice_range file.now run.0 run.1
        ≡ (decimal level ++ space ∷ (xref_part (option_copied xref.entry) ++ rest.now)) ++ line_feed ∷ []) }
{
    match xref {
        None => kept_without_identifier(file, level, rest, place),
        Some(name) if level == 0 => kept_with_identifier(file, name, rest, place),
        Some(_) => None,
    }
}

/// Up to where a CONT line with this level and text stands in a file, if it does at this place, in bytes, and is spelled as it is
/// written. Levels above 9, and texts that begin with a sign that is doubled, are not looked for.
#[inline(always)]
pub(crate) fn kept_cont(file: &[u8], level: u8, text: &str, place: usize) -> Option<usize>
    ensures order { IfSome result (λ end. (place ≤ end) × (end ≤ length file.now)) }
    ensures line { IfSome result (λ end. slice_range file.now place end ≡ spelling (line_parts level None (codes "CONT") (line_value text.now)) ++ line_feed ∷ []) }
{
    if level > 9 {
        return None;
    }
    if place > file.len() {
        return None;
    }
    let tagged = behind_level(&file[place..], level)?;
    let value = behind_cont(tagged)?;
    if text.is_empty() {
        if !begins_with_line(value, text) {
            return None;
        }
        return Some(place + 7);
    }
    if text.as_bytes()[0] == b'@' {
        return None;
    }
    let behind = behind_byte(value, b' ')?;
    if !begins_with_line(behind, text) {
        return None;
    }
    Some(place + (7 + text.len() + 1))
}
