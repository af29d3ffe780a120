// Cutting a text into lines from its front, and telling at once whether a line may hold only characters that may stand
// there.
ghost use Rattle.std.specs.Prelude.{◌≡◌, ◌<◌, ◌++◌, ◌∷◌, ◌⊎◌, length, slice_index, IsUtf8};
ghost use Rattle.memchr.specs.Find.{IsFirstByte, is_byte2};
ghost use Rattle.ged_line.specs.Bytes.{Bytes, carriage_return, line_feed};
ghost use Rattle.ged_line.specs.Characters.{has_banned as tests_banned};
ghost use Rattle.ged_line.specs.Pieces.{IsEnd, IsFirstPiece, pieces_of};

use crate::bytes::characters::has_banned;
use crate::bytes::line_ends::{first_end, first_special};

/// The first line of a text.
#[derive(Clone, Copy)]
pub(crate) struct Cut<'a> {
    /// The line without its end.
    pub(crate) piece: &'a str,
    /// What stands behind its end.
    pub(crate) after: &'a str,
    /// Whether a character stands in the line that may not stand there.
    pub(crate) has_banned: bool,
}

/// What stands behind the line end that a text begins with.
fn text_after_end(text: &str) -> &str
    requires some { 0 < length text.now }
    requires is_end { (slice_index text.now 0 ≡ carriage_return) ⊎ (slice_index text.now 0 ≡ line_feed) }
    ensures { (end : Bytes) × IsEnd end result.now × (text.now ≡ end ++ result.now) }
{
    let bytes = text.as_bytes();
    if bytes[0] == b'\n' {
        return &text[1..];
    }
    if bytes.len() > 1 && bytes[1] == b'\n' {
        return &text[2..];
    }
    &text[1..]
}

/// The first line of a text.
#[inline(always)]
pub(crate) fn cut_line(text: &str) -> Cut<'_>
    requires { 0 < length text.now }
    ensures first { IsFirstPiece text.now result.piece.now result.after.now }
    ensures pieces { pieces_of text.now ≡ result.piece.now ∷ pieces_of result.after.now }
    ensures banned { result.has_banned ≡ tests_banned result.piece.now }
    ensures utf8 { IsUtf8 result.after.now }
    ensures piece_utf8 { IsUtf8 result.piece.now }
    ensures shorter { length result.after.now < length text.now }
{
    let bytes = text.as_bytes();
    let Some(special) = first_special(bytes) else {
        return Cut {
            piece: text,
            after: "",
            has_banned: false,
        };
    };
    if bytes[special] == b'\n' {
        let (piece, _) = text.split_at(special);
        return Cut {
            piece,
            after: &text[special + 1..],
            has_banned: false,
        };
    }
    if bytes[special] == b'\r' {
        let (piece, rest) = text.split_at(special);
        return Cut {
            piece,
            after: text_after_end(rest),
            has_banned: false,
        };
    }
    cut_special_line(text)
}

/// The first line end of bytes. A function of its own, whose answer is small, so that the common path need not clear the stack's
/// room for a line.
#[cold]
#[inline(never)]
fn end_behind_special(bytes: &[u8]) -> Option<usize>
    ensures { IsFirstByte (is_byte2 carriage_return line_feed) bytes.now result }
{
    first_end(bytes)
}

/// What [`cut_line`] answers, where some byte of the line may belong to a character that may not stand there.
#[inline(always)]
fn cut_special_line(text: &str) -> Cut<'_>
    requires { 0 < length text.now }
    ensures first { IsFirstPiece text.now result.piece.now result.after.now }
    ensures pieces { pieces_of text.now ≡ result.piece.now ∷ pieces_of result.after.now }
    ensures banned { result.has_banned ≡ tests_banned result.piece.now }
    ensures utf8 { IsUtf8 result.after.now }
    ensures piece_utf8 { IsUtf8 result.piece.now }
    ensures shorter { length result.after.now < length text.now }
{
    let Some(end) = end_behind_special(text.as_bytes()) else {
        return Cut {
            piece: text,
            after: "",
            has_banned: has_banned(text),
        };
    };
    let (piece, rest) = text.split_at(end);
    Cut {
        piece,
        after: text_after_end(rest),
        has_banned: has_banned(piece),
    }
}
