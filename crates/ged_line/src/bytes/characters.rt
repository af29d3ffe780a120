// The characters that may not stand in a line.
ghost use Rattle.std.specs.Prelude.{◌≡◌, ℕ, MatchBool};
ghost use Rattle.ged_line.specs.Characters.{has_banned as tests_banned, is_plain as tests_plain};
ghost use Rattle.ged_line.specs.inner.LineTexts.{is_line_text as tests_line_text};
ghost use Rattle.ged_line.specs.inner.ByteTests.{is_control as tests_control, ControlAt, NoncharacterAt};

use crate::bytes::line_ends::first_special;

pub(crate) fn is_control(byte: u8) -> bool
    ensures { result ≡ tests_control byte }
{
    (byte < 0x20 && byte != b'\t') || byte == 0x7F
}

/// Whether a control character other than tab stands in a text. This and the next one look at all bytes, even behind one that they seek:
/// so they are compiled to look at many bytes at a time.
fn has_control(bytes: &[u8]) -> bool
    ensures { MatchBool result ((at : ℕ) × ControlAt bytes.now at) ((at : ℕ) → ¬ (ControlAt bytes.now at)) }
{
    let mut found = false;
    for at in 0..bytes.len() {
        found = found | is_control(bytes[at]);
    }
    found
}

/// Whether the bytes of U+FFFE or U+FFFF stand in a text.
pub(crate) fn has_noncharacter(bytes: &[u8]) -> bool
    ensures { MatchBool result ((at : ℕ) × NoncharacterAt bytes.now at) ((at : ℕ) → ¬ (NoncharacterAt bytes.now at)) }
{
    let mut found = false;
    for third in 2..bytes.len() {
        let is_first = bytes[third - 2] == 0xEF;
        let is_second = bytes[third - 1] == 0xBF;
        let is_third = matches!(bytes[third], 0xBE | 0xBF);
        found = found | (is_first & is_second & is_third);
    }
    found
}

/// Whether a character that may not stand in a line stands in a text.
pub(crate) fn has_banned(text: &str) -> bool
    ensures { result ≡ tests_banned text.now }
{
    let bytes = text.as_bytes();
    first_special(bytes).is_some() && (has_control(bytes) || has_noncharacter(bytes))
}

/// Whether all characters of a text may stand in a line; the empty text has none. Takes no memory
/// (FamilySearch GEDCOM 7.0, "Characters").
pub fn is_plain(text: &str) -> bool
    ensures { result ≡ tests_plain text.now }
{
    !has_banned(text)
}

/// Whether a text may be a line's value: not empty, and without a character that may not stand in a line.
pub(crate) fn is_line_text(text: &str) -> bool
    ensures { result ≡ tests_line_text text.now }
{
    !text.is_empty() && !has_banned(text)
}
