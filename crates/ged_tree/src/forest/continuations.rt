// The lines of a payload past the first.
ghost use Rattle.std.specs.Prelude.{◌≡◌, ◌≤◌, ◌<◌, ◌+◌, ◌-◌, ℕ, [], List, Some, IsSome, IsTrue, IfOk, IfSome, length, map, take, drop, nat_le, slice_get, slice_index_or};
ghost use Rattle.std.specs.List.Sorted.{IsNonDecreasingBy};
ghost use Rattle.ged_line.specs.Bytes.{Bytes};
ghost use Rattle.ged_tree.specs.Rows.{further_before, further_of, places_of, texts_of, HasFurther};
ghost use Rattle.ged_tree.specs.declared.forest.continuations.FurtherSlice.{FurtherSlice as AnySlice};
ghost use Rattle.ged_tree.specs.inner.Tables.{IsFurtherPut, IsSliceAt};

use crate::room::give_back;
use std::alloc::{AllocError, Global};
use std::marker::Model;
use std::mem::size_of;

/// A line of a payload past the first as a slice of the file, in 12 bytes.
#[derive(Clone, Copy)]
pub(crate) struct FurtherSlice {
    /// The place past the structure whose payload has it.
    pub(crate) after: u32,
    /// Where its text begins in the file, in bytes.
    pub(crate) start: u32,
    /// How many bytes its text has.
    pub(crate) length: u32,
}

const _: () = prove!(size_of::<FurtherSlice>() == 12);

/// The greatest number that is kept of a slice.
const GREATEST: usize = u32::MAX as usize;

/// For each row of so many structures it is kept how many slices stand before its first one.
const BLOCK: usize = 64;

/// A line of a payload past the first whose text is kept as it is.
#[derive(Clone, Copy)]
pub(crate) struct FurtherApart<'a> {
    pub(crate) after: usize,
    pub(crate) text: &'a str,
}

/// The lines of all payloads past their first ones, in the order of the file.
#[derive(Drop)]
pub(crate) struct FurtherTable<'a> {
    slices: Vec<FurtherSlice>,
    /// For each [`BLOCK`] of structures, up to the last one with a slice, about how many slices stand before its first structure: where to
    /// look, so no clause speaks of it.
    starts: Vec<u32>,
    /// Those from the first on that is no slice of the file, or has a number that is too large to be kept.
    apart: Vec<FurtherApart<'a>>,
}

/// A line as a slice of the file, or `None` where no place in the file is told, or one of the numbers is too large.
// Comparing the numbers is cheaper than three conversions that may fail.
#[inline(always)]
fn further_slice(after: usize, start: Option<usize>, length: usize) -> Option<FurtherSlice>
    ensures true_ones { IfSome result (λ slice. (after ≡ slice.after) × (start ≡ Some slice.start) × (length ≡ slice.length)) }
    ensures small_ones { (at : ℕ) → start ≡ Some at → after < 4294967296 → at < 4294967296 → length < 4294967296 → IsSome result }
{
    let start = start?;
    if after > GREATEST || start > GREATEST || length > GREATEST {
        return None;
    }
    Some(FurtherSlice {
        after: after as u32,
        start: start as u32,
        length: length as u32,
    })
}

/// Keeps for each block up to that of a place how many slices there are, if nothing is kept of it yet.
#[inline(always)]
fn list_starts(starts: &mut Vec<u32>, place: usize, count: usize) -> Result<(), AllocError> {
    for _ in starts.len()..place / BLOCK + 1 {
        starts.push(count.min(GREATEST) as u32)?;
    }
    Ok(())
}

/// How many slices are kept to stand before a block, and where nothing is kept, the number of all.
fn slices_before_block(starts: &[u32], block: usize, count: usize) -> usize
    ensures { result ≤ count }
{
    match starts.get(block) {
        Some(start) => count.min(*start as usize),
        None => count,
    }
}

/// How many slices stand before the structure at a place, as a search of all of them tells.
fn count_before(slices: &[FurtherSlice], place: usize) -> usize
    ensures bound { result ≤ length slices.now }
    ensures count { IsNonDecreasingBy (λ line. line.after) slices.now → result ≡ further_before place (map (λ line. line.after) slices.now) }
{
    slices.partition_point(
        |line: &FurtherSlice| -> bool
            ensures { result ≡ nat_le line.now.after place }
        { line.after as usize <= place },
    )
}

/// Whether the last of so many slices stands before the structure at a place; true where there is none.
fn is_last_before(slices: &[FurtherSlice], place: usize, number: usize) -> bool
    requires { number ≤ length slices.now }
    ensures { IsTrue result → (d : AnySlice) → 0 < number → (slice_index_or slices.now (number - 1) d).after ≤ place }
{
    number == 0 || slices[number - 1].after as usize <= place
}

/// Whether the slice behind so many doesn't stand before the structure at a place; true where there is none.
fn is_first_behind(slices: &[FurtherSlice], place: usize, number: usize) -> bool
    requires { number ≤ length slices.now }
    ensures { IsTrue result → (d : AnySlice) → number < length slices.now → place < (slice_index_or slices.now number d).after }
{
    number == slices.len() || slices[number].after as usize > place
}

/// Whether so many slices stand before the structure at a place, and no more.
fn ends_before(slices: &[FurtherSlice], place: usize, number: usize) -> bool
    requires order { IsNonDecreasingBy (λ line. line.after) slices.now }
    requires within { number ≤ length slices.now }
    ensures { IsTrue result → number ≡ further_before place (map (λ line. line.after) slices.now) }
{
    is_last_before(slices, place, number) && is_first_behind(slices, place, number)
}

impl<'a> FurtherTable<'a> {
    pub(crate) fn new(alloc: Global) -> FurtherTable<'a>
        ensures slices { result.slices.items ≡ [] }
        ensures apart { result.apart.items ≡ [] }
    {
        FurtherTable {
            slices: Vec::new(alloc),
            starts: Vec::new(alloc),
            apart: Vec::new(alloc),
        }
    }

    /// Adds a line behind the others. `start` tells where in the file its text begins; without it the text is kept apart. Contracts see
    /// the slices and the lines apart as one list, so no clause says that a line which could be kept as a slice is.
    #[inline(always)]
    pub(crate) fn push(
        &mut self,
        after: usize,
        text: &'a str,
        start: Option<usize>,
    ) -> Result<(), AllocError>
        ensures { (file : Bytes) → IfSome start (λ at. IsSliceAt file at text.now)
            → IfOk result (λ _. IsFurtherPut file self.old self.new after text.now) }
    {
        if self.apart.is_empty() {
            if let Some(slice) = further_slice(after, start, text.len()) {
                list_starts(&mut self.starts, after, self.slices.len())?;
                self.slices.push(slice)?;
                return Ok(());
            }
        }
        self.apart.push(FurtherApart { after, text })?;
        Ok(())
    }

    /// Gives back the room that the slices did not take.
    pub(crate) fn fit(&mut self)
        ensures slices { self.new.slices.items ≡ self.old.slices.items }
        ensures apart { self.new.apart.items ≡ self.old.apart.items }
    {
        give_back(&mut self.slices);
    }

    /// How many slices stand before the structure at a place, as what is kept of its block tells. No clause says that this is exact, so
    /// who asks has to test it.
    fn about_before(&self, place: usize) -> usize
        ensures { result ≤ length self.now.slices.items }
    {
        let count = self.slices.len();
        let block = place / BLOCK;
        let low = slices_before_block(self.starts.as_slice(), block, count);
        let high = slices_before_block(self.starts.as_slice(), block + 1, count);
        if low > high {
            return count;
        }
        low + count_before(&self.slices[low..high], place)
    }

    /// How many slices stand before the structure at a place. Few are looked at.
    fn slices_before(&self, place: usize) -> usize
        requires { IsNonDecreasingBy (λ line. line.after) self.now.slices.items }
        ensures bound { result ≤ length self.now.slices.items }
        ensures count { result ≡ further_before place (map (λ line. line.after) self.now.slices.items) }
    {
        let slices = self.slices.as_slice();
        let about = self.about_before(place);
        if ends_before(slices, place, about) {
            return about;
        }
        count_before(slices, place)
    }

    /// How many lines stand before the structure at a place.
    #[inline(never)]
    pub(crate) fn before(&self, place: usize) -> usize
        requires slices { IsNonDecreasingBy (λ line. line.after) self.now.slices.items }
        requires apart { IsNonDecreasingBy (λ line. line.after) self.now.apart.items }
        ensures { (file : Bytes) → result ≡ further_before place (places_of (further_of file self.now)) }
    {
        let before = self.slices_before(place);
        if before < self.slices.len() {
            return before;
        }
        before
            + self.apart.partition_point(
                |line: &FurtherApart<'_>| -> bool
                    ensures { result ≡ nat_le line.now.after place }
                { line.after <= place },
            )
    }

    /// The text of the line of a number.
    pub(crate) fn text(&self, file: &'a str, number: usize) -> &'a str
        requires within { number < length (further_of file.now self.now) }
        requires slices { HasFurther file.now self.now }
        ensures { slice_get (texts_of (further_of file.now self.now)) number ≡ Some result.now }
    {
        let count = self.slices.len();
        if number < count {
            let slice = self.slices[number];
            let start = slice.start as usize;
            let end = start + slice.length as usize;
            return &file[start..end];
        }
        self.apart[number - count].text
    }
}

/// The lines of a payload past the first, counted from 0. Contracts see them as the list of their texts.
#[derive(Drop)]
pub struct FurtherLines<'a> {
    file: &'a str,
    table: &'a FurtherTable<'a>,
    start: usize,
    count: usize,
}

impl<'a> Model for FurtherLines<'a> {
    ghost use Rattle.std.specs.Prelude.{◌+◌, ◌≤◌, List, length, take, drop};
    ghost use Rattle.ged_line.specs.Bytes.{Bytes};
    ghost use Rattle.ged_tree.specs.Rows.{further_of, texts_of, HasFurther};

    ghost Value = { List Bytes };

    ghost view = { λ f. take f.count (drop f.start (texts_of (further_of f.file.now f.table.now))) };

    ghost invariant = { λ f. HasFurther f.file.now f.table.now × (f.start + f.count ≤ length (further_of f.file.now f.table.now)) };
}

impl<'a> FurtherLines<'a> {
    #[inline(always)]
    pub(crate) fn of(
        file: &'a str,
        table: &'a FurtherTable<'a>,
        start: usize,
        count: usize,
    ) -> FurtherLines<'a>
        requires slices { HasFurther file.now table.now }
        requires within { start + count ≤ length (further_of file.now table.now) }
        ensures { result ≡ take count (drop start (texts_of (further_of file.now table.entry.now))) }
    {
        FurtherLines {
            file,
            table,
            start,
            count,
        }
    }

    /// How many lines there are. Takes no memory.
    #[inline(always)]
    pub fn count(&self) -> usize
        ensures { result ≡ length self.now }
    {
        self.count
    }

    /// The line of a number. Takes no memory.
    pub fn line(&self, number: usize) -> &'a str
        requires { number < length self.now }
        ensures { slice_get self.now number ≡ Some result.now }
    {
        self.table.text(self.file, self.start + number)
    }
}
