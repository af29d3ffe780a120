// Reading the bytes of a form, which stand in many places.
ghost use Rattle.std.specs.Prelude.{◌≡◌, ℕ, ◌+◌, ◌^◌, ◌≤◌, ◌<◌, ◌++◌, [], IsTrue, false, length, take, drop};
ghost use Rattle.std.specs.Io.{StartsWith};
ghost use Rattle.ged_line.specs.Bytes.{Bytes};

use crate::spelled::KeptRun;
use std::marker::Model;
use std::{cmp, mem};

/// How many bytes are copied at once of what was made before a run, where it has no more.
const MADE_BLOCK: usize = 64;

/// The same of a run. Both are lengths that most do not reach; this one is the longer, so that what has room for it has room for the
/// other.
const KEPT_BLOCK: usize = 128;

/// The pieces of a form that are still to be read. Contracts see them as their bytes.
#[derive(Drop)]
pub(crate) struct Pieces<'a> {
    pub(crate) file: &'a [u8],
    pub(crate) runs: &'a [KeptRun],
    pub(crate) made: &'a [u8],
    /// A run of which only what was made before it is read.
    pub(crate) kept: &'a [u8],
}

impl<'a> Model for Pieces<'a> {
    ghost use Rattle.std.specs.Prelude.{◌++◌};
    ghost use Rattle.ged_line.specs.Bytes.{Bytes};
    ghost use Rattle.ged_canon.specs.SpelledForms.{joined_runs};

    ghost Value = { Bytes };

    ghost view = { λ p. p.kept.now ++ joined_runs p.file.now p.runs.now p.made.now };
}

impl<'a> Pieces<'a> {
    /// The next piece, which has at least one byte, or none where all are read.
    pub(crate) fn next_piece(&mut self) -> &'a [u8]
        ensures front { self.old ≡ result.now ++ self.new }
        ensures some { result.now ≡ [] → self.old ≡ [] }
    {
        loop {
            if !self.kept.is_empty() {
                return mem::replace(&mut self.kept, &[]);
            }
            let Some((run, runs)) = self.runs.split_first() else {
                return mem::replace(&mut self.made, &[]);
            };
            let (made, behind) = front_of(self.made, run.made as usize);
            let (_, from) = front_of(self.file, run.start as usize);
            let (kept, _) = front_of(from, run.length as usize);
            self.runs = runs;
            self.made = behind;
            self.kept = kept;
            if !made.is_empty() {
                return made;
            }
        }
    }

    /// What is left of the piece that was read last, or the next one where nothing is: nothing where all are read.
    #[inline(always)]
    pub(crate) fn left_or_next(&mut self, left: &'a [u8]) -> &'a [u8]
        ensures whole { left.entry.now ++ self.old ≡ result.now ++ self.new }
        ensures some { result.now ≡ [] → self.new ≡ [] }
    {
        if left.is_empty() {
            return self.next_piece();
        }
        left
    }

    /// Puts whole runs, each behind what was made before it, to the front of a buffer, and answers how many bytes they are. It may stop
    /// before any run: that it goes far is no clause. Of what stands in the buffer behind them, it may overwrite as many bytes as the
    /// form has there.
    #[inline(never)]
    fn put_runs(&mut self, buffer: &mut [u8]) -> usize
        ensures count { result ≤ length buffer.old }
        ensures few { result ≤ length self.old }
        ensures length { length buffer.new ≡ length buffer.old }
        ensures front { take result buffer.new ≡ take result self.old }
        ensures behind { drop (length self.old) buffer.new ≡ drop (length self.old) buffer.old }
        ensures rest { self.new ≡ drop result self.old }
    {
        let mut put = 0usize;
        loop {
            let count = self.put_run(&mut buffer[put..]);
            if count == 0 {
                return put;
            }
            put += count;
        }
    }

    /// The same of the next run alone, or of none. As many bytes as a block has are still made behind the run, and these are all part of
    /// the form; so what is copied too much is where later bytes of it will stand.
    #[inline(always)]
    fn put_run(&mut self, buffer: &mut [u8]) -> usize
        ensures count { result ≤ length buffer.old }
        ensures few { result ≤ length self.old }
        ensures length { length buffer.new ≡ length buffer.old }
        ensures front { take result buffer.new ≡ take result self.old }
        ensures behind { drop (length self.old) buffer.new ≡ drop (length self.old) buffer.old }
        ensures rest { self.new ≡ drop result self.old }
    {
        if !self.kept.is_empty() {
            return 0;
        }
        let Some((run, runs)) = self.runs.split_first() else {
            return 0;
        };
        let made = run.made as usize;
        let start = run.start as usize;
        let length = run.length as usize;
        if self.made.len() < made + KEPT_BLOCK {
            return 0;
        }
        if self.file.len() < start + KEPT_BLOCK {
            return 0;
        }
        if buffer.len() < made + KEPT_BLOCK {
            return 0;
        }
        if !put_both(buffer, self.made, made, &self.file[start..], length) {
            return 0;
        }
        self.runs = runs;
        self.made = &self.made[made..];
        made + length
    }
}

/// Puts the first bytes of two texts to the front of a buffer, one behind the other, and answers true; or false, where it did not. It may
/// overwrite what a block behind the first of them reaches.
#[inline(always)]
fn put_both(
    buffer: &mut [u8],
    made: &[u8],
    made_count: usize,
    kept: &[u8],
    kept_count: usize,
) -> bool
    ensures length { length buffer.new ≡ length buffer.old }
    ensures room { IsTrue result → made_count + kept_count ≤ length buffer.old }
    ensures made { IsTrue result → made_count ≤ length made.now }
    ensures kept { IsTrue result → kept_count ≤ length kept.now }
    ensures put { IsTrue result → take (made_count + kept_count) buffer.new ≡ take made_count made.now ++ take kept_count kept.now }
    ensures behind { (at : ℕ) → MADE_BLOCK ≤ at → length (take made_count made.now) + KEPT_BLOCK ≤ at
        → length (take made_count made.now) + length (take kept_count kept.now) ≤ at → drop at buffer.new ≡ drop at buffer.old }
{
    if !put_front::<MADE_BLOCK>(buffer, made, made_count) {
        return false;
    }
    put_front::<KEPT_BLOCK>(&mut buffer[made_count..], kept, kept_count)
}

/// Puts the first bytes of a text to the front of a buffer and answers true; or false, where it did not. A block is copied whole, by a few
/// moves: a branch on how many bytes of it are wanted would be mispredicted, and their copy a call. It is copied by way of a local
/// array, since two slices may overlap as far as the compiler knows, which it would test first.
#[inline(always)]
fn put_front<const BLOCK: usize>(buffer: &mut [u8], text: &[u8], count: usize) -> bool
    requires { BLOCK < 2 ^ 32 }
    ensures length { length buffer.new ≡ length buffer.old }
    ensures room { IsTrue result → count ≤ length buffer.old }
    ensures whole { IsTrue result → count ≤ length text.now }
    ensures put { IsTrue result → take count buffer.new ≡ take count text.now }
    ensures behind { (at : ℕ) → BLOCK ≤ at → length (take count text.now) ≤ at → drop at buffer.new ≡ drop at buffer.old }
{
    if BLOCK < count {
        return put_exactly(buffer, text, count);
    }
    let Some(block) = text.first_chunk::<BLOCK>() else {
        return false;
    };
    if buffer.len() < BLOCK {
        return false;
    }
    let block = *block;
    buffer[..BLOCK].copy_from_slice(&block);
    true
}

/// The same where no more than these bytes are copied. It stays a call, or the compiler makes one copy of this one and that of a block,
/// whose length is no constant.
#[inline(never)]
fn put_exactly(buffer: &mut [u8], text: &[u8], count: usize) -> bool
    ensures length { length buffer.new ≡ length buffer.old }
    ensures room { IsTrue result → count ≤ length buffer.old }
    ensures whole { IsTrue result → count ≤ length text.now }
    ensures put { IsTrue result → take count buffer.new ≡ take count text.now }
    ensures behind { (at : ℕ) → length (take count text.now) ≤ at → drop at buffer.new ≡ drop at buffer.old }
{
    if text.len() < count {
        return false;
    }
    if buffer.len() < count {
        return false;
    }
    buffer[..count].copy_from_slice(&text[..count]);
    true
}

/// The first so many bytes, or as many as there are, and the others.
pub(crate) fn front_of(bytes: &[u8], count: usize) -> (&[u8], &[u8])
    ensures front { result.0.now ≡ take count bytes.now }
    ensures rest { result.1.now ≡ drop count bytes.now }
{
    bytes.split_at(cmp::min(count, bytes.len()))
}

/// Reads the bytes of a form in their order, without a copy of them. Contracts see it as the bytes that are still to be read.
#[derive(Drop)]
pub struct FormReader<'a> {
    /// What is left of the piece that is being read.
    pub(crate) piece: &'a [u8],
    pub(crate) pieces: Pieces<'a>,
}

impl<'a> Model for FormReader<'a> {
    ghost use Rattle.std.specs.Prelude.{◌++◌};
    ghost use Rattle.ged_line.specs.Bytes.{Bytes};

    ghost Value = { Bytes };

    ghost view = { λ r. r.piece.now ++ r.pieces };
}

impl<'a> FormReader<'a> {
    /// The next bytes that stand together, at most so many: at least one, unless all are read or none is wanted. Takes no memory.
    pub fn next_up_to(&mut self, most: usize) -> &'a [u8]
        ensures front { self.old ≡ result.now ++ self.new }
        ensures few { length result.now ≤ most }
        ensures some { 0 < most → result.now ≡ [] → self.old ≡ [] }
    {
        if self.piece.is_empty() {
            self.piece = self.pieces.next_piece();
        }
        let (front, rest) = front_of(self.piece, most);
        self.piece = rest;
        front
    }

    /// Puts whole runs to the front of a buffer, as the pieces do, unless a piece is being read: then none.
    #[inline(always)]
    fn put_runs(&mut self, buffer: &mut [u8]) -> usize
        ensures count { result ≤ length buffer.old }
        ensures few { result ≤ length self.old }
        ensures length { length buffer.new ≡ length buffer.old }
        ensures front { take result buffer.new ≡ take result self.old }
        ensures behind { drop (length self.old) buffer.new ≡ drop (length self.old) buffer.old }
        ensures rest { self.new ≡ drop result self.old }
    {
        if !self.piece.is_empty() {
            return 0;
        }
        self.pieces.put_runs(buffer)
    }

    /// Reads as many bytes as the buffer has, or all that are left, to its front, and answers how many. What stands behind them in the
    /// buffer stays. Takes no memory.
    pub fn fill(&mut self, buffer: &mut [u8]) -> usize
        ensures count { result ≤ length buffer.old }
        ensures length { length buffer.new ≡ length buffer.old }
        ensures front { take result buffer.new ≡ take (length buffer.old) self.old }
        ensures behind { drop result buffer.new ≡ drop result buffer.old }
        ensures rest { self.new ≡ drop (length buffer.old) self.old }
    {
        let mut filled = 0usize;
        loop {
            filled += self.put_runs(&mut buffer[filled..]);
            let piece = self.next_up_to(buffer.len() - filled);
            if piece.is_empty() {
                return filled;
            }
            let end = filled + piece.len();
            buffer[filled..end].copy_from_slice(piece);
            filled = end;
        }
    }

    /// Whether the bytes that are left begin with this text, which is then read; otherwise any part of them may be read. Takes no
    /// memory.
    pub fn passes(&mut self, text: &[u8]) -> bool
        ensures passed { IsTrue result → self.old ≡ text.now ++ self.new }
        ensures part { (read : Bytes) × (self.old ≡ read ++ self.new) }
        ensures other { result ≡ false → ¬ StartsWith self.old text.now }
    {
        let mut left = text;
        while !left.is_empty() {
            let piece = self.next_up_to(left.len());
            let (front, rest) = left.split_at(piece.len());
            if piece.is_empty() {
                return false;
            }
            if front != piece {
                return false;
            }
            left = rest;
        }
        true
    }
}
