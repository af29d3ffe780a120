// Bytes that come one part after another: which of their lines are whole, and the lines that come behind those.
ghost use Rattle.std.specs.Prelude.{◌≡◌, ◌++◌, List, None, Some};
ghost use Rattle.std.specs.List.{last_or};
ghost use Rattle.ged_line.specs.Bytes.{Bytes};
ghost use Rattle.ged_line.specs.Pieces.{ArePiecesOf, HasNoEnd};
ghost use Rattle.ged_line.specs.WholeLines.{AreWhole, OneWholeFront, WholePiecesStay};
ghost use Rattle.ged_line.specs.inner.WholeLines.{IsBehindEnd};

use crate::file::line_views::{LineViews, lines_behind_mark, view_lines};
use memchr::memrchr2;

/// Bytes cut behind their last CR or LF: their whole lines, and what waits for its line end. Takes no memory
/// (FamilySearch GEDCOM 7.0, "Lines").
pub fn split_whole(bytes: &[u8]) -> (&[u8], &[u8])
    ensures parts { bytes.now ≡ result.0.now ++ result.1.now }
    ensures whole { AreWhole result.0.now }
    ensures waiting { HasNoEnd result.1.now }
{
    match memrchr2(b'\r', b'\n', bytes) {
        Some(last) => bytes.split_at(last + 1),
        None => bytes.split_at(0),
    }
}

/// The lines that come behind whole lines, when more of a file has come. A byte order mark is skipped where nothing
/// stands in front, and a LF that belongs to the CR in front of it ends no line. Takes no memory
/// (FamilySearch GEDCOM 7.0, "Lines").
pub fn further_lines<'a>(front: &[u8], more: &'a [u8]) -> LineViews<'a>
    requires { AreWhole front.now }
    ensures { (pieces : List Bytes) → ArePiecesOf front.now pieces → ArePiecesOf (front.now ++ more.now) (pieces ++ result) }
{
    match front.last() {
        None => view_lines(more),
        Some(last) => lines_behind_mark(behind_end(*last, more)),
    }
}

/// What comes behind bytes with this last one, but for a LF that belongs to it.
fn behind_end(last: u8, more: &[u8]) -> &[u8]
    ensures { (front : Bytes) → last_or None front ≡ Some last → IsBehindEnd front more.now result.now }
{
    if last == b'\r' {
        return more.strip_prefix(b"\n").unwrap_or(more);
    }
    more
}

/// The pieces of whole lines stay what they are, whatever comes behind them.
pub fn whole_pieces_stay()
    ensures { WholePiecesStay }
{}

/// The whole lines of bytes are one front of them.
pub fn one_whole_front()
    ensures { OneWholeFront }
{}
