// A form of a document in bytes.
pub(crate) mod reader;

ghost use Rattle.std.specs.Prelude.{◌≡◌, ◌↔◌, IfOk, IsTrue, length, min};

use crate::spelled::reader::{FormReader, Pieces};
use std::alloc::{AllocError, Global};
use std::cmp;
use std::marker::Model;

/// A run of bytes that a form has as they stand in a file, behind others that were made.
#[derive(Clone, Copy)]
pub(crate) struct KeptRun {
    /// How many bytes were made before it, behind the run before.
    pub(crate) made: u32,
    /// Where it begins in the file, in bytes.
    pub(crate) start: u32,
    /// How many bytes it has.
    pub(crate) length: u32,
}

/// A form of a document in bytes, most of them slices of the file that the document was read from. Contracts see it as all
/// these bytes.
#[derive(Drop)]
pub struct SpelledForm<'a> {
    pub(crate) file: &'a [u8],
    pub(crate) runs: Vec<KeptRun>,
    /// What stands before, between and behind the runs.
    pub(crate) made: Vec<u8>,
}

impl<'a> Model for SpelledForm<'a> {
    ghost use Rattle.ged_line.specs.Bytes.{Bytes};
    ghost use Rattle.ged_canon.specs.SpelledForms.{joined_runs};

    ghost Value = { Bytes };

    ghost view = { λ f. joined_runs f.file.now f.runs.items f.made.items };
}

/// How many bytes the shorter of two texts has.
#[inline(always)]
fn shorter(left: &[u8], right: &[u8]) -> usize
    ensures { result ≡ min (length left.now) (length right.now) }
{
    cmp::min(left.len(), right.len())
}

impl<'a> SpelledForm<'a> {
    /// What reads the bytes, from the first on. Takes no memory.
    pub fn reader(&self) -> FormReader<'_>
        ensures { result ≡ self.now }
    {
        FormReader {
            piece: &[],
            pieces: self.pieces(),
        }
    }

    fn pieces(&self) -> Pieces<'_>
        ensures { result ≡ self.now }
    {
        Pieces {
            file: self.file,
            runs: &self.runs,
            made: &self.made,
            kept: &[],
        }
    }

    /// Whether another form has the same bytes. They are compared piece by piece, where they stand. Takes no memory.
    pub fn has_bytes_of(&self, other: &SpelledForm<'_>) -> bool
        ensures { IsTrue result ↔ (self.now ≡ other.now) }
    {
        let (mut pieces, mut others) = (self.pieces(), other.pieces());
        let (mut left, mut right): (&[u8], &[u8]) = (&[], &[]);
        loop {
            left = pieces.left_or_next(left);
            right = others.left_or_next(right);
            let count = shorter(left, right);
            if count == 0 {
                return left.len() == right.len();
            }
            let (front, rest) = left.split_at(count);
            let (other_front, other_rest) = right.split_at(count);
            if front != other_front {
                return false;
            }
            left = rest;
            right = other_rest;
        }
    }

    /// How many bytes it has. It says for how many to take room, and no clause rests on it.
    fn length(&self) -> usize {
        let mut length = self.made.len();
        for run in &self.runs {
            length = length.saturating_add(run.length as usize);
        }
        length
    }

    /// All the bytes in one vector. Grows where some are slices of the file.
    pub fn into_bytes(self, alloc: Global) -> Result<Vec<u8>, AllocError>
        ensures { IfOk result (λ bytes. bytes.items ≡ self.entry) }
    {
        if self.runs.is_empty() {
            let SpelledForm {
                file: _,
                runs: _,
                made,
            } = self;
            return Ok(made);
        }
        let mut bytes = Vec::with_capacity(alloc, self.length())?;
        let mut pieces = self.pieces();
        loop {
            let piece = pieces.next_piece();
            if piece.is_empty() {
                return Ok(bytes);
            }
            bytes.extend_from_slice(piece)?;
        }
    }
}
