// The lines of a file as slices of it, one after another.
ghost use Rattle.std.specs.Prelude.{◌≡◌, ◌≤◌, ◌<◌, ◌∷◌, [], length, MatchOption, IfSome, IsUtf8};
ghost use Rattle.std.specs.Iterator.{item_count};
ghost use Rattle.ged_line.specs.Bytes.{Bytes};
ghost use Rattle.ged_line.specs.Pieces.{ArePiecesOf, IsBehindMark, IsFirstPiece, pieces_of};
ghost use Rattle.ged_line.specs.Reading.{TellsSpelled, YieldsLine};

use crate::bytes::blocks::split_block;
use crate::bytes::cut::{Cut, cut_line};
use crate::fault::LineFault;
use crate::file::pieces::{Pieces, behind_mark, cut_pieces};
use crate::file::spelled_line::SpelledLine;
use crate::line::read::{spelled_line, spelled_text};
use std::marker::Model;

/// The lines of a file that are left, from the first.
#[derive(Drop)]
pub struct LineViews<'a> {
    /// What is left of a block that is UTF-8.
    text: &'a str,
    /// What is left of a block that is not.
    pieces: Pieces<'a>,
    /// The blocks behind it.
    unread: &'a [u8],
}

impl<'a> Model for LineViews<'a> {
    ghost use Rattle.std.specs.Prelude.{List, ◌++◌};
    ghost use Rattle.ged_line.specs.Bytes.{Bytes};
    ghost use Rattle.ged_line.specs.Pieces.{pieces_of};

    ghost Value = { List Bytes };

    ghost view = { λ v. pieces_of v.text.now ++ (v.pieces ++ pieces_of v.unread.now) };
}

/// The lines of a file: for each of the pieces that [`crate::split_pieces`] gives, in order, the line that [`crate::view_line`]
/// answers and the text of the piece, or the piece's fault.
///
/// They go on after a fault. UTF-8 is validated by blocks, many bytes at a time. Takes no memory
/// (FamilySearch GEDCOM 7.0, "Lines").
pub fn view_lines(bytes: &[u8]) -> LineViews<'_>
    ensures pieces { ArePiecesOf bytes.now result }
    ensures count { length result ≤ length bytes.now }
{
    LineViews {
        text: "",
        pieces: cut_pieces(&[]),
        unread: behind_mark(bytes),
    }
}

/// The lines of bytes without a mark.
pub(crate) fn lines_behind_mark(bytes: &[u8]) -> LineViews<'_>
    ensures { result ≡ pieces_of bytes.now }
{
    LineViews {
        text: "",
        pieces: cut_pieces(&[]),
        unread: bytes,
    }
}

/// The whole text of a file behind an optional byte order mark, or `None` where it is not UTF-8. Many bytes are
/// validated at a time. Takes no memory.
pub fn text_behind_mark(bytes: &[u8]) -> Option<&str>
    ensures { MatchOption result
        ((rest : Bytes) × IsBehindMark bytes.now rest × ¬ (IsUtf8 rest))
        (λ text. IsBehindMark bytes.now text.now × IsUtf8 text.now) }
{
    match simdutf8::basic::from_utf8(behind_mark(bytes)) {
        Ok(text) => Some(text),
        Err(_) => None,
    }
}

/// What the first line of a text without a mark is, as [`crate::view_line`] answers for its piece, and the text behind its end;
/// `None` where the text is empty. The piece stands at the front of the text, and behind it one whole line end or nothing.
/// Takes no memory (FamilySearch GEDCOM 7.0, "Lines").
#[inline(always)]
pub fn first_line(text: &str) -> Option<(Result<SpelledLine<'_>, LineFault>, &str)>
    ensures line { MatchOption result (text.now ≡ []) (λ p. (piece : Bytes)
        × IsFirstPiece text.now piece p.1.now × TellsSpelled p.0 piece) }
    ensures shorter { IfSome result (λ p. length p.1.now < length text.now) }
    ensures utf8 { IfSome result (λ p. IsUtf8 p.1.now) }
{
    if text.is_empty() {
        return None;
    }
    let Cut {
        piece,
        after,
        has_banned,
    } = cut_line(text);
    if has_banned {
        return Some((Err(LineFault::BannedCharacter), after));
    }
    Some((spelled_text(piece), after))
}

/// What the first line of bytes without a mark is, and the lines behind it: those of its block are ready to be read.
#[cold]
fn first_of_blocks(bytes: &[u8]) -> Option<(Result<SpelledLine<'_>, LineFault>, LineViews<'_>)>
    ensures { MatchOption result (pieces_of bytes.now ≡ []) (λ p. (piece : Bytes)
        × (pieces_of bytes.now ≡ piece ∷ p.1) × TellsSpelled p.0 piece) }
{
    let (block, unread) = split_block(bytes);
    let Ok(text) = simdutf8::basic::from_utf8(block) else {
        let mut pieces = cut_pieces(block);
        let Some(piece) = pieces.next() else {
            return None;
        };
        let lines = LineViews {
            text: "",
            pieces,
            unread,
        };
        return Some((spelled_line(piece), lines));
    };
    let Some((line, text)) = first_line(text) else {
        return None;
    };
    let lines = LineViews {
        text,
        pieces: cut_pieces(&[]),
        unread,
    };
    Some((line, lines))
}

impl<'a> Iterator for LineViews<'a> {
    type Item = Result<SpelledLine<'a>, LineFault>;

    ghost next_gives = { YieldsLine };

    ghost remaining = { item_count (λ pieces. pieces) };

    #[inline(always)]
    fn next(&mut self) -> Option<Result<SpelledLine<'a>, LineFault>> {
        if let Some((line, after)) = first_line(self.text) {
            self.text = after;
            return Some(line);
        }
        if let Some(piece) = self.pieces.next() {
            return Some(spelled_line(piece));
        }
        let Some((line, lines)) = first_of_blocks(self.unread) else {
            return None;
        };
        *self = lines;
        Some(line)
    }
}
