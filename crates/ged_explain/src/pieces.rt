// A line of a file by its number.
ghost use Rattle.std.specs.Prelude.{◌≡◌, ◌-◌, ◌<◌, List, None, option_map, slice_get};
ghost use Rattle.ged_line.specs.Bytes.{Bytes};
ghost use Rattle.ged_line.specs.Pieces.{ArePiecesOf};
ghost use Rattle.ged_explain.specs.Showing.{IsPieceAt};
ghost use Rattle.ged_explain.specs.inner.Passing.{HasPassed};

use ged_line::{Pieces, split_pieces};
use std::marker::Model;

/// The line of a file with a number, counted from 1, as it stands without its line end; `None` where the file has no such
/// line. Takes no memory (FamilySearch GEDCOM 7.0, "Lines").
pub fn piece_at(bytes: &[u8], line: u64) -> Option<&[u8]>
    ensures found { 0 < line → (pieces : List Bytes) × ArePiecesOf bytes.now pieces
        × (option_map (λ piece. piece.now) result ≡ slice_get pieces (line - 1)) }
    ensures none { line ≡ 0 → result ≡ None }
{
    let before = line.checked_sub(1)?;
    split_pieces(bytes).nth(before as usize)
}

/// The lines of a file by their numbers, for a caller that asks for many: for one behind the last that was asked for it goes on
/// from there. Contracts see the file's bytes.
#[derive(Drop)]
pub(crate) struct PieceFinder<'a> {
    bytes: &'a [u8],
    /// What stands behind the last line that was asked for.
    rest: Pieces<'a>,
    /// The number of that line.
    passed: u64,
}

impl<'a> Model for PieceFinder<'a> {
    ghost use Rattle.ged_line.specs.Bytes.{Bytes};
    ghost use Rattle.ged_explain.specs.inner.Passing.{HasPassed};

    ghost Value = { Bytes };

    ghost view = { λ f. f.bytes.now };

    ghost invariant = { λ f. HasPassed f.bytes.now f.passed f.rest };
}

impl<'a> PieceFinder<'a> {
    pub(crate) fn new(bytes: &'a [u8]) -> PieceFinder<'a>
        ensures { result ≡ bytes.now }
    {
        PieceFinder {
            bytes,
            rest: split_pieces(bytes),
            passed: 0,
        }
    }

    /// The file.
    pub(crate) fn bytes(&self) -> &'a [u8]
        ensures { result.now ≡ self.now }
    {
        self.bytes
    }

    /// What [`piece_at`] answers.
    pub(crate) fn find(&mut self, line: u64) -> Option<&'a [u8]>
        ensures same { self.new ≡ self.old }
        ensures found { IsPieceAt self.old line (option_map (λ piece. piece.now) result) }
    {
        if line <= self.passed {
            self.rest = split_pieces(self.bytes);
            self.passed = 0;
        }
        let between = line.checked_sub(self.passed + 1)?;
        self.passed = line;
        self.rest.nth(between as usize)
    }
}
