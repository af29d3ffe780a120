// Reading a line as slices of it, part by part from the left.
ghost use Rattle.std.specs.Prelude.{◌≡◌, ◌≤◌, ◌<◌, ◌++◌, ◌∷◌, ◌⊎◌, [], decimal, MatchOption, MatchResult, IfSome, IsOk, IsOkAnd, IfOk, IfErr, true, false};
ghost use Rattle.ged_line.specs.Bytes.{Bytes, space, at_sign};
ghost use Rattle.std.specs.List.{list_all};
ghost use Rattle.std.specs.Str.{NoCharPasses};
ghost use Rattle.ged_line.specs.Characters.{is_banned, has_banned as tests_banned};
ghost use Rattle.std.specs.Char.{is_ascii_digit};
ghost use Rattle.ged_line.specs.Names.{is_tag as tests_tag};
ghost use Rattle.ged_line.specs.Lines.{LineParts, is_value, Empty};
ghost use Rattle.ged_line.specs.inner.LineTexts.{IsValuePart};
ghost use Rattle.ged_line.specs.Spelling.{LineText};
ghost use Rattle.ged_line.specs.Views.{viewed_value};
ghost use Rattle.ged_line.specs.Reading.{TellsSpelled};
ghost use Rattle.ged_line.specs.Faults.{StandsAt, IsFaultOf, number_after, AfterXref, BeginsWith, word, IsPointer, is_level as tests_level};

use crate::bytes::characters::has_banned;
use crate::fault::LineFault;
use crate::file::spelled_line::SpelledLine;
use crate::line::names::{
    any_tag_characters, begins_as_tag, begins_with_capitals, many_tag_characters, names_record,
};
use crate::line::view::{LineView, ValueView};

fn are_digits(bytes: &[u8]) -> bool
    ensures { result ≡ list_all is_ascii_digit bytes.now }
{
    bytes.iter().all(|byte| byte.is_ascii_digit())
}

fn is_level(digits: &[u8]) -> bool
    ensures { result ≡ tests_level digits.now }
{
    match digits.split_first() {
        None => false,
        Some((first, rest)) if *first == b'0' => rest.is_empty(),
        Some((first, rest)) => first.is_ascii_digit() && are_digits(rest),
    }
}

/// The level that digits spell. Whether it is too large is told by their number, which may be of any length.
fn read_level(digits: &[u8]) -> Result<u8, LineFault>
    ensures { MatchResult result
        (λ level. (level ≤ 99) × (digits.now ≡ decimal level))
        (λ fault. ((fault ≡ LineFault.BadLevel) × (tests_level digits.now ≡ false))
        ⊎ ((fault ≡ LineFault.LevelTooLarge) × (tests_level digits.now ≡ true) × (99 < number_after 0 digits.now))) }
{
    if !is_level(digits) {
        return Err(LineFault::BadLevel);
    }
    match digits {
        [unit] => Ok(*unit - b'0'),
        [ten, unit] => Ok((*ten - b'0') * 10 + (*unit - b'0')),
        _ => Err(LineFault::LevelTooLarge),
    }
}

/// What [`view_level`] answers, for a level of any digits.
fn view_any_level(text: &str) -> Result<(u8, &str), LineFault>
    ensures { MatchResult result
        (λ p. (p.0 ≤ 99) × (text.now ≡ decimal p.0 ++ space ∷ p.1.now))
        (λ f. ((f ≡ LineFault.BadLevel) × StandsAt LineFault.BadLevel text.now)
        ⊎ ((f ≡ LineFault.LevelTooLarge) × StandsAt LineFault.LevelTooLarge text.now)) }
{
    let Some((digits, rest)) = text.split_once(' ') else {
        return Err(LineFault::BadLevel);
    };
    let level = read_level(digits.as_bytes())?;
    Ok((level, rest))
}

/// The level alone that [`view_any_level`] answers.
// An answer that is two bytes keeps the caller, which stands on the path of every line, from clearing room for a larger one.
#[cold]
#[inline(never)]
fn any_level(text: &str) -> Result<u8, LineFault>
    ensures { MatchResult result
        (λ level. (level ≤ 99) × ((rest : Bytes) × (text.now ≡ decimal level ++ space ∷ rest)))
        (λ f. ((f ≡ LineFault.BadLevel) × StandsAt LineFault.BadLevel text.now)
        ⊎ ((f ≡ LineFault.LevelTooLarge) × StandsAt LineFault.LevelTooLarge text.now)) }
{
    if let [ten @ b'1'..=b'9', unit @ b'0'..=b'9', b' ', ..] = text.as_bytes() {
        return Ok((*ten - b'0') * 10 + (*unit - b'0'));
    }
    match view_any_level(text) {
        Ok((level, _)) => Ok(level),
        Err(fault) => Err(fault),
    }
}

/// What [`view_level`] answers, where the first two bytes are no level of one digit.
#[inline(always)]
fn view_long_level(text: &str) -> Result<(u8, &str), LineFault>
    ensures { MatchResult result
        (λ p. (p.0 ≤ 99) × (text.now ≡ decimal p.0 ++ space ∷ p.1.now))
        (λ f. ((f ≡ LineFault.BadLevel) × StandsAt LineFault.BadLevel text.now)
        ⊎ ((f ≡ LineFault.LevelTooLarge) × StandsAt LineFault.LevelTooLarge text.now)) }
{
    match any_level(text) {
        Ok(level) if level < 10 => Ok((level, &text[2..])),
        Ok(level) => Ok((level, &text[3..])),
        Err(fault) => Err(fault),
    }
}

/// The level, and what stands behind its space.
#[inline(always)]
fn view_level(text: &str) -> Result<(u8, &str), LineFault>
    ensures { MatchResult result
        (λ p. (p.0 ≤ 99) × (text.now ≡ decimal p.0 ++ space ∷ p.1.now))
        (λ f. ((f ≡ LineFault.BadLevel) × StandsAt LineFault.BadLevel text.now)
        ⊎ ((f ≡ LineFault.LevelTooLarge) × StandsAt LineFault.LevelTooLarge text.now)) }
{
    match text.as_bytes() {
        [unit @ b'0'..=b'9', b' ', ..] => Ok((*unit - b'0', &text[2..])),
        _ => view_long_level(text),
    }
}

/// The name of the cross-reference identifier that follows its first sign, and what stands behind its space.
fn cut_xref(after: &str) -> Option<(&str, &str)>
    ensures { MatchOption result ((name rest : Bytes) → ¬ (AfterXref (at_sign ∷ after.now) name rest))
        (λ p. AfterXref (at_sign ∷ after.now) p.0.now p.1.now) }
{
    let (name, rest) = after.split_at(many_tag_characters(after));
    let [b'@', b' ', ..] = rest.as_bytes() else {
        return None;
    };
    if names_record(name) {
        Some((name, &rest[2..]))
    } else {
        None
    }
}

/// The cross-reference identifier, if one stands there, and what stands behind its space.
#[inline(always)]
fn view_xref(text: &str) -> Result<(Option<&str>, &str), LineFault>
    ensures { MatchResult result
        (λ p. MatchOption p.0 ((text.now ≡ p.1.now) × ¬ (BeginsWith at_sign text.now))
        (λ name. AfterXref text.now name.now p.1.now))
        (λ f. (f ≡ LineFault.BadXref) × BeginsWith at_sign text.now
        × ((name rest : Bytes) → ¬ (AfterXref text.now name rest))) }
{
    match text.as_bytes() {
        [b'@', ..] => {
            let (name, rest) = cut_xref(&text[1..]).ok_or(LineFault::BadXref)?;
            Ok((Some(name), rest))
        }
        _ => Ok((None, text)),
    }
}

/// A tag of four letters, and what stands behind its space, if one stands there.
#[inline(always)]
fn cut_letters(text: &str) -> Option<(&str, &str)>
    ensures { IfSome result (λ p. (tests_tag p.0.now ≡ true)
        × (((text.now ≡ p.0.now) × (p.1.now ≡ [])) ⊎ (text.now ≡ p.0.now ++ space ∷ p.1.now))) }
{
    if !begins_with_capitals(text.as_bytes()) {
        return None;
    }
    let (tag, rest) = text.split_at(4);
    match rest.as_bytes() {
        [] => Some((tag, rest)),
        [b' ', ..] => Some((tag, &rest[1..])),
        _ => None,
    }
}

/// What [`view_tag`] answers, for a tag of any characters.
#[inline(always)]
fn view_any_tag(text: &str) -> Result<(&str, &str), LineFault>
    ensures { MatchResult result
        (λ p. (tests_tag p.0.now ≡ true)
        × (((text.now ≡ p.0.now) × (p.1.now ≡ [])) ⊎ (text.now ≡ p.0.now ++ space ∷ p.1.now)))
        (λ f. (f ≡ LineFault.BadTag) × (tests_tag (word text.now) ≡ false)) }
{
    let (tag, rest) = text.split_at(many_tag_characters(text));
    let value = match rest.as_bytes() {
        [] => rest,
        [b' ', ..] => &rest[1..],
        _ => return Err(LineFault::BadTag),
    };
    if begins_as_tag(tag) {
        Ok((tag, value))
    } else {
        Err(LineFault::BadTag)
    }
}

/// The tag, and what stands behind its space, if one stands there.
#[inline(always)]
fn view_tag(text: &str) -> Result<(&str, &str), LineFault>
    ensures { MatchResult result
        (λ p. (tests_tag p.0.now ≡ true)
        × (((text.now ≡ p.0.now) × (p.1.now ≡ [])) ⊎ (text.now ≡ p.0.now ++ space ∷ p.1.now)))
        (λ f. (f ≡ LineFault.BadTag) × (tests_tag (word text.now) ≡ false)) }
{
    match cut_letters(text) {
        Some(parts) => Ok(parts),
        None => view_any_tag(text),
    }
}

/// The value that a sign and a text without banned characters are.
fn view_signed_value(after: &str) -> Result<ValueView<'_>, LineFault>
    requires { NoCharPasses is_banned after.now }
    ensures { MatchResult result
        (λ v. (is_value (viewed_value v) ≡ true) × IsValuePart (viewed_value v) (space ∷ at_sign ∷ after.now))
        (λ f. (f ≡ LineFault.BadValue) × ¬ (IsPointer (at_sign ∷ after.now)) × ¬ (BeginsWith at_sign after.now)) }
{
    if let [b'@', ..] = after.as_bytes() {
        return Ok(ValueView::Text(after));
    }
    let (name, rest) = after.split_at(any_tag_characters(after));
    let [b'@'] = rest.as_bytes() else {
        return Err(LineFault::BadValue);
    };
    if name == "VOID" {
        Ok(ValueView::Void)
    } else {
        Ok(ValueView::Pointer(name))
    }
}

/// The value that a text without banned characters is.
#[inline(always)]
fn view_value(text: &str) -> Result<ValueView<'_>, LineFault>
    requires { NoCharPasses is_banned text.now }
    ensures { MatchResult result
        (λ v. (is_value (viewed_value v) ≡ true) × IsValuePart (viewed_value v) (space ∷ text.now)
        × (text.now ≡ [] → viewed_value v ≡ Empty))
        (λ f. (f ≡ LineFault.BadValue) × ((more : Bytes) × (text.now ≡ at_sign ∷ more) × ¬ (IsPointer text.now)
        × ¬ (BeginsWith at_sign more))) }
{
    match text.as_bytes() {
        [] => Ok(ValueView::Empty),
        [b'@', ..] => view_signed_value(&text[1..]),
        _ => Ok(ValueView::Text(text)),
    }
}

/// What [`view_text`] answers, of a text with a level of one digit, no identifier, a tag of four letters and a value, as most have; `None` for
/// any other text. That there is all this is told by the first eight bytes, so that the length is looked at once.
#[inline(always)]
fn view_usual(text: &str) -> Option<Result<LineView<'_>, LineFault>>
    requires { tests_banned text.now ≡ false }
    ensures { IfSome result (λ read. MatchResult read (λ line. LineText line text.now) (λ fault. IsFaultOf fault text.now)) }
{
    let [unit @ b'0'..=b'9', b' ', _, _, _, _, b' ', _, ..] = text.as_bytes() else {
        return None;
    };
    let (tag, value) = cut_letters(&text[2..])?;
    match view_value(value) {
        Ok(value) => Some(Ok(LineView::of_parts(*unit - b'0', None, tag, value))),
        Err(fault) => Some(Err(fault)),
    }
}

/// The line that a text is, as slices of it, or the lowest fault that stands at it, where no character of the text is
/// banned. Takes no memory (FamilySearch GEDCOM 7.0, "Lines").
#[inline(always)]
pub fn view_text(text: &str) -> Result<LineView<'_>, LineFault>
    requires { tests_banned text.now ≡ false }
    ensures { MatchResult result (λ line. LineText line text.now) (λ fault. IsFaultOf fault text.now) }
{
    if let Some(read) = view_usual(text) {
        return read;
    }
    if text.is_empty() {
        return Err(LineFault::EmptyLine);
    }
    let (level, rest) = view_level(text)?;
    let (xref, rest) = view_xref(rest)?;
    let (tag, rest) = view_tag(rest)?;
    let value = view_value(rest)?;
    Ok(LineView::of_parts(level, xref, tag, value))
}

/// The line that a text without banned characters is, beside the text.
#[inline(always)]
pub(crate) fn spelled_text(text: &str) -> Result<SpelledLine<'_>, LineFault>
    requires { tests_banned text.now ≡ false }
    ensures { TellsSpelled result text.now }
{
    match view_text(text) {
        Ok(line) => Ok(SpelledLine { line, text }),
        Err(fault) => Err(fault),
    }
}

/// The line that a piece of a file is, beside the piece's text, or the lowest fault that stands at the piece.
pub(crate) fn spelled_line(piece: &[u8]) -> Result<SpelledLine<'_>, LineFault>
    ensures { TellsSpelled result piece.now }
{
    let Ok(text) = simdutf8::basic::from_utf8(piece) else {
        return Err(LineFault::NotUtf8);
    };
    if has_banned(text) {
        return Err(LineFault::BannedCharacter);
    }
    spelled_text(text)
}

fn scan_line(piece: &[u8]) -> Result<LineView<'_>, LineFault>
    ensures { MatchResult result (λ line. LineText line piece.now) (λ fault. IsFaultOf fault piece.now) }
{
    match spelled_line(piece) {
        Ok(spelled) => Ok(spelled.line),
        Err(fault) => Err(fault),
    }
}

/// The line that a piece of a file is, as slices of it, or the lowest fault that stands at the piece.
///
/// The piece has neither the file's mark nor a line end; a CR or LF in it is a [`LineFault::BannedCharacter`]. Takes
/// no memory (FamilySearch GEDCOM 7.0, "Lines").
pub fn view_line(piece: &[u8]) -> Result<LineView<'_>, LineFault>
    // What is read is spelled so, and what is spelled so is read.
    ensures found { IfOk result (λ line. LineText line piece.now) }
    ensures only { (line : LineParts) → LineText line piece.now → IsOkAnd result (λ found. found ≡ line) }

    // Which fault it is, and that a piece with a line has none.
    ensures fault { IfErr result (λ fault. IsFaultOf fault piece.now) }
    ensures none { IsOk result → (fault : LineFault) → ¬ (StandsAt fault piece.now) }
{
    scan_line(piece)
}
