// The pieces of a file: what stands between its line ends.
ghost use Rattle.std.specs.Prelude.{◌≡◌, ◌<◌, ◌++◌, ◌⊎◌, length, slice_index};
ghost use Rattle.std.specs.Iterator.{YieldsFirstRef, item_count};
ghost use Rattle.ged_line.specs.Bytes.{Bytes, carriage_return, line_feed};
ghost use Rattle.ged_line.specs.Pieces.{ArePiecesOf, AreCutInto, IsEnd, IsBehindMark};

use crate::bytes::line_ends::first_end;
use std::marker::Model;

/// The pieces of a file that are left, from the first.
#[derive(Drop)]
pub struct Pieces<'a> {
    rest: &'a [u8],
}

impl<'a> Model for Pieces<'a> {
    ghost use Rattle.std.specs.Prelude.{List};
    ghost use Rattle.ged_line.specs.Bytes.{Bytes};
    ghost use Rattle.ged_line.specs.Pieces.{pieces_of};

    ghost Value = { List Bytes };

    ghost view = { λ p. pieces_of p.rest.now };
}

/// What stands in a file behind its byte order mark, or all of it where it has none. Takes no memory.
pub fn behind_mark(bytes: &[u8]) -> &[u8]
    ensures { IsBehindMark bytes.now result.now }
{
    bytes.strip_prefix(&[0xEF, 0xBB, 0xBF]).unwrap_or(bytes)
}

/// What stands behind the line end that the bytes begin with.
fn after_end(bytes: &[u8]) -> &[u8]
    requires some { 0 < length bytes.now }
    requires is_end { (slice_index bytes.now 0 ≡ carriage_return) ⊎ (slice_index bytes.now 0 ≡ line_feed) }
    ensures { (end : Bytes) × IsEnd end result.now × (bytes.now ≡ end ++ result.now) }
{
    if bytes[0] == b'\r' && bytes.len() > 1 && bytes[1] == b'\n' {
        return &bytes[2..];
    }
    &bytes[1..]
}

/// The pieces of a file: what stands between its line ends, after an optional byte order mark. CR LF, CR and LF are
/// line ends, and nothing follows a last one. Takes no memory (FamilySearch GEDCOM 7.0, "Lines").
pub fn split_pieces(bytes: &[u8]) -> Pieces<'_>
    ensures { ArePiecesOf bytes.now result }
{
    cut_pieces(behind_mark(bytes))
}

/// The pieces of bytes without a mark.
pub(crate) fn cut_pieces(bytes: &[u8]) -> Pieces<'_>
    ensures { AreCutInto bytes.now result }
{
    Pieces { rest: bytes }
}

impl<'a> Iterator for Pieces<'a> {
    type Item = &'a [u8];

    ghost next_gives = { YieldsFirstRef (λ pieces. pieces) };

    ghost remaining = { item_count (λ pieces. pieces) };

    fn next(&mut self) -> Option<&'a [u8]> {
        if self.rest.is_empty() {
            return None;
        }
        let Some(end) = first_end(self.rest) else {
            let piece = self.rest;
            self.rest = &[];
            return Some(piece);
        };
        let (piece, rest) = self.rest.split_at(end);
        self.rest = after_end(rest);
        Some(piece)
    }
}
