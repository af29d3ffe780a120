// A line of a file as it is shown.
ghost use Rattle.std.specs.Prelude.{◌≡◌, ◌++◌, ◌∷◌, ◌↔◌, [], codes, string_bytes, IsTrue, MatchOption, OnOk, IfOk, option_map};
ghost use Rattle.std.specs.List.{All};
ghost use Rattle.ged_line.specs.Bytes.{Bytes, line_feed};
ghost use Rattle.ged_explain.specs.Showing.{IsPlain, IsSeen, IsSeenLine, IsShownAs, IsSign};

use crate::explanation::Explanation;
use std::alloc::{AllocError, Global};
use std::str;

/// More columns of a line are not shown.
const LINE_COLUMNS: usize = 120;

/// What stands behind the number of a line: a colon and the line as it stands, or that the file has no such line.
pub(crate) fn shown_line(alloc: Global, piece: Option<&[u8]>) -> Result<String, AllocError>
    ensures { IfOk result (λ text. IsShownAs (option_map (λ piece. piece.now) piece.entry) (string_bytes text)) }
{
    let Some(piece) = piece else {
        let text = String::from_str(alloc, " is past the last line\n")?;
        return Ok(text);
    };
    shown_piece(alloc, piece)
}

/// A colon and a line.
fn shown_piece(alloc: Global, piece: &[u8]) -> Result<String, AllocError>
    ensures { IfOk result (λ text. (seen : Bytes) × (string_bytes text ≡ codes ": " ++ (seen ++ line_feed ∷ []))
        × IsSeenLine piece.now seen) }
{
    let mut text = String::from_str(alloc, ": ")?;
    push_shown(alloc, piece, &mut text)?;
    text.push_str("\n")?;
    Ok(text)
}

/// Appends a line: as it is where it is plain, else so that each byte and character is seen, and clipped.
fn push_shown(alloc: Global, piece: &[u8], text: &mut String) -> Result<(), AllocError>
    ensures { OnOk result ((seen : Bytes) × (string_bytes text.new ≡ string_bytes text.old ++ seen) × IsSeenLine piece.now seen) }
{
    if let Some(plain) = plain_text(piece) {
        return text.push_str(plain);
    }
    let clipped = clipped_text(alloc, piece)?;
    text.push_str(clipped.as_str())
}

/// A line so that each byte and character is seen, and clipped.
fn clipped_text(alloc: Global, piece: &[u8]) -> Result<String, AllocError>
    ensures { IfOk result (λ text. IsSeen (string_bytes text)) }
{
    let mut told = Explanation::new(alloc);
    told.say_clipped(piece, LINE_COLUMNS);
    told.into_text()
}

/// The text of a line that is shown as it is.
fn plain_text(piece: &[u8]) -> Option<&str>
    ensures { MatchOption result (¬ (IsPlain piece.now)) (λ text. (text.now ≡ piece.now) × All IsSign piece.now) }
{
    if piece.len() > LINE_COLUMNS || !are_signs(piece) {
        return None;
    }
    str::from_utf8(piece).ok()
}

/// Whether each byte is a sign of ASCII, or a space.
fn are_signs(bytes: &[u8]) -> bool
    ensures { IsTrue result ↔ All IsSign bytes.now }
{
    bytes.iter().all(|byte| *byte >= 32 && *byte < 127)
}
