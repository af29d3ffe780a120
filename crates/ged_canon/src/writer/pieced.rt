// Runs of a file, and what was made between them.
ghost use Rattle.std.specs.Prelude.{◌≡◌, ◌≤◌, ◌-◌, ◌++◌, ◌∷◌, [], IfOk, IfSome, OnOk, length, take, drop, slice_range};
ghost use Rattle.ged_canon.specs.SpelledForms.{joined_runs};
ghost use Rattle.ged_canon.specs.inner.Runs.{ArePlaced};

use crate::spelled::KeptRun;
use crate::spelled::reader::front_of;
use ged_tree::room_in_large_pages;
use std::alloc::{AllocError, Global};
use std::mem::size_of;

/// How many bytes are taken for each structure of a document before it is written, a little more than most need.
const BYTES_PER_STRUCTURE: usize = 28;

/// How many bytes of the file, at least, are kept as a run. Fewer are copied between those that were made, so that there are not
/// too many runs.
const SHORTEST_RUN: usize = 32;

/// Runs of a file, and what was made before, between and behind them.
#[derive(Drop)]
pub(crate) struct Pieced {
    pub(crate) runs: Vec<KeptRun>,
    pub(crate) made: Vec<u8>,
    /// How many of the bytes that were made stand before the last run.
    pub(crate) placed: usize,
}

impl Pieced {
    /// The byte order mark, in memory for a document of so many structures, from a file of so many bytes. What is made for an
    /// ordinary one has room there, and so have the runs of the file; any other one makes them grow.
    pub(crate) fn start(
        alloc: Global,
        structures: usize,
        bytes: usize,
    ) -> Result<Pieced, AllocError>
        ensures runs { IfOk result (λ pieced. pieced.runs.items ≡ []) }
        ensures made { IfOk result (λ pieced. pieced.made.items ≡ 0xEF ∷ 0xBB ∷ 0xBF ∷ []) }
        ensures placed { IfOk result (λ pieced. pieced.placed ≡ 0) }
    {
        let room = structures.saturating_mul(BYTES_PER_STRUCTURE);
        let mut made = Vec::with_capacity(alloc, room_in_large_pages(room))?;
        made.extend_from_slice(&[0xEF, 0xBB, 0xBF])?;
        let most = bytes / SHORTEST_RUN * size_of::<KeptRun>();
        let runs = Vec::with_capacity(alloc, room_in_large_pages(most) / size_of::<KeptRun>())?;
        Ok(Pieced {
            runs,
            made,
            placed: 0,
        })
    }

    /// No bytes. Takes no memory.
    pub(crate) fn none(alloc: Global) -> Pieced
        ensures runs { result.runs.items ≡ [] }
        ensures made { result.made.items ≡ [] }
        ensures placed { result.placed ≡ 0 }
    {
        Pieced {
            runs: Vec::new(alloc),
            made: Vec::new(alloc),
            placed: 0,
        }
    }

    /// Appends the bytes of a file from one place up to another, as far as it has them.
    #[inline(always)]
    pub(crate) fn place(&mut self, file: &[u8], start: usize, end: usize) -> Result<(), AllocError>
        requires order { start ≤ end }
        requires placed { ArePlaced self.old.runs.items self.old.made.items self.old.placed }
        ensures placed { ArePlaced self.new.runs.items self.new.made.items self.new.placed }
        ensures joined { OnOk result (joined_runs file.now self.new.runs.items self.new.made.items
            ≡ joined_runs file.now self.old.runs.items self.old.made.items ++ slice_range file.now start end) }
    {
        if start == end {
            return Ok(());
        }
        self.place_some(file, start, end)
    }

    /// The same where there is a byte.
    #[inline(never)]
    fn place_some(&mut self, file: &[u8], start: usize, end: usize) -> Result<(), AllocError>
        requires order { start ≤ end }
        requires placed { ArePlaced self.old.runs.items self.old.made.items self.old.placed }
        ensures placed { ArePlaced self.new.runs.items self.new.made.items self.new.placed }
        ensures joined { OnOk result (joined_runs file.now self.new.runs.items self.new.made.items
            ≡ joined_runs file.now self.old.runs.items self.old.made.items ++ slice_range file.now start end) }
    {
        let Some(run) = run_of(self.made.len() - self.placed, start, end) else {
            return push_part(&mut self.made, file, start, end - start);
        };
        self.runs.push(run)?;
        self.placed = self.made.len();
        Ok(())
    }
}

/// Appends so many bytes of a file from a place on, or as many as it has there. Few are copied as a whole block, by a few moves, and what is
/// too much is taken away again: how many a line has can't be foreseen, so a branch on that would often be mispredicted.
#[inline(always)]
fn push_part(made: &mut Vec<u8>, file: &[u8], start: usize, count: usize) -> Result<(), AllocError>
    ensures ok { OnOk result (made.new.items ≡ made.old.items ++ take count (drop start file.now)) }
    ensures kept { length made.old.items ≤ length made.new.items }
{
    let (_, from) = front_of(file, start);
    if count > SHORTEST_RUN {
        return push_front(made, from, count);
    }
    let Some(block) = from.first_chunk::<SHORTEST_RUN>() else {
        return push_front(made, from, count);
    };
    let length = made.len() + count;
    made.extend_from_slice(block)?;
    made.truncate(length);
    Ok(())
}

/// The same of the first bytes of a text, of any number.
#[cold]
#[inline(never)]
fn push_front(made: &mut Vec<u8>, text: &[u8], count: usize) -> Result<(), AllocError>
    ensures ok { OnOk result (made.new.items ≡ made.old.items ++ take count text.now) }
    ensures kept { length made.old.items ≤ length made.new.items }
{
    let (front, _) = front_of(text, count);
    made.extend_from_slice(front)
}

/// A run from one place of the file up to another behind so many bytes that were made, or `None` where it is too short to be
/// kept, or a number too large.
fn run_of(made: usize, start: usize, end: usize) -> Option<KeptRun>
    requires { start ≤ end }
    ensures { IfSome result (λ run. (run.made ≡ made) × (run.start ≡ start) × (run.length ≡ end - start)) }
{
    let length = end - start;
    if length < SHORTEST_RUN {
        return None;
    }
    let (Ok(made), Ok(start), Ok(length)) = (
        u32::try_from(made),
        u32::try_from(start),
        u32::try_from(length),
    ) else {
        return None;
    };
    Some(KeptRun {
        made,
        start,
        length,
    })
}
