// The structures of a table as they are kept, in few bytes.
ghost use Rattle.std.specs.Prelude.{◌≡◌, ◌≤◌, ◌<◌, ◌+◌, ◌%◌, ◌++◌, ◌∷◌, ℕ, [], false, Some, IfSome, IsTrue, OnOk, decimal, length, nat_lt};
ghost use Rattle.std.specs.List.Sorted.{IsNonDecreasingBy};
ghost use Rattle.ged_tree.specs.BareLines.{KeepsBare};
ghost use Rattle.ged_tree.specs.Rows.{HasSlice, kept_level, kept_further, kept_tag_length, kept_points, text_at};
ghost use Rattle.ged_tree.specs.Rows.{text_apart as finds_apart};

use crate::table::structure::digits_of_level;
use std::alloc::AllocError;
use std::mem::size_of;

/// The length that says of a text that it is kept apart.
pub(crate) const APART: u8 = 255;

/// How many bytes a tag has at most whose length is kept.
pub(crate) const LONGEST_TAG: usize = 127;

/// A structure as a table keeps it, in 8 bytes.
#[derive(Clone, Copy)]
pub(crate) struct KeptStructure {
    /// Where its line begins in the file, in bytes. Of a line that is kept apart this is told only where it is kept.
    pub(crate) start: u32,
    /// How many bytes its line has, or [`APART`] where the line has as many or more, or begins too far behind in the
    /// file: then its text is among those kept apart.
    pub(crate) length: u8,
    /// Its level, and 128 more where its payload has lines past the first.
    pub(crate) mark: u8,
    /// Where its tag begins in the line, in bytes.
    pub(crate) tag_start: u8,
    /// How many bytes its tag has, or 0 where either number is too large to be kept; and 128 more where its payload is a
    /// pointer that names a record, if the tag's length is kept.
    pub(crate) tag_mark: u8,
}

const _: () = prove!(size_of::<KeptStructure>() == 8);

/// What stands in the room of a structure before it is written.
const NOTHING_KEPT: KeptStructure = KeptStructure {
    start: 0,
    length: 0,
    mark: 0,
    tag_start: 0,
    tag_mark: 0,
};

/// The whole line of a structure that keeps no slice of the file.
#[derive(Clone, Copy)]
pub(crate) struct TextApart<'a> {
    /// The place of the structure.
    pub(crate) place: usize,
    pub(crate) text: &'a str,
}

impl KeptStructure {
    /// A copy, made field by field: a copy of the whole is one number, from which each field is then taken by shifts.
    #[inline(always)]
    pub(crate) fn by_fields(&self) -> KeptStructure
        ensures { result ≡ self.now }
    {
        KeptStructure {
            start: self.start,
            length: self.length,
            mark: self.mark,
            tag_start: self.tag_start,
            tag_mark: self.tag_mark,
        }
    }

    #[inline(always)]
    pub(crate) fn level(&self) -> u8
        ensures { result ≡ kept_level self.now }
    {
        self.mark % 128
    }

    /// How many bytes its tag has, or 0 where that is not kept.
    #[inline(always)]
    pub(crate) fn tag_length(&self) -> u8
        ensures { result ≡ kept_tag_length self.now }
    {
        self.tag_mark % 128
    }

    /// Whether its line is kept as a slice, has this level and no identifier, and does not end in a space that stands alone behind the tag.
    #[inline(always)]
    pub(crate) fn is_bare(&self, level: u8) -> bool
        ensures level { IsTrue result → kept_level self.now ≡ level }
        ensures kept { IsTrue result → KeepsBare self.now }
    {
        let tag_length = self.tag_length();
        if tag_length == 0 || !self.has_tag_behind(level) {
            return false;
        }
        if self.length == APART || self.length == self.tag_start + tag_length + 1 {
            return false;
        }
        self.level() == level
    }

    /// The same, where its payload is no pointer that names a record, and has no lines past the first.
    #[inline(always)]
    pub(crate) fn is_sole(&self, level: u8) -> bool
        ensures level { IsTrue result → kept_level self.now ≡ level }
        ensures kept { IsTrue result → KeepsBare self.now }
        ensures value { IsTrue result → kept_points self.now ≡ false }
        ensures alone { IsTrue result → kept_further self.now ≡ false }
    {
        // where nothing more is kept in a mark, it is the level, and the other one the length of the tag
        if self.mark != level || !self.has_tag_behind(level) {
            return false;
        }
        if self.tag_mark == 0 || self.tag_mark > 127 {
            return false;
        }
        self.length != APART && self.length != self.tag_start + self.tag_mark + 1
    }

    /// Whether its tag stands where this level and a space end.
    #[inline(always)]
    fn has_tag_behind(&self, level: u8) -> bool
        ensures front { IsTrue result → self.now.tag_start ≡ length (decimal level) + 1 }
        ensures small { IsTrue result → (level ≤ 99) × (self.now.tag_start ≤ 3) }
    {
        level <= 99 && usize::from(self.tag_start) == digits_of_level(level) + 1
    }

    /// Whether its payload is a pointer that names a record, or `None` where that is not kept.
    #[inline(always)]
    pub(crate) fn points(&self) -> Option<bool>
        ensures kept { IfSome result (λ points. (0 < kept_tag_length self.now) × (kept_points self.now ≡ points)) }
        ensures told { 0 < kept_tag_length self.now → result ≡ Some (kept_points self.now) }
    {
        if self.tag_length() == 0 {
            return None;
        }
        Some(self.tag_mark > 127)
    }

    /// About where its tag begins in the file, in bytes: for a line that begins past the first 4 GiB it is another place. `None` where
    /// that is not kept.
    #[inline(always)]
    pub(crate) fn start_of_rest(&self) -> Option<usize> {
        if self.tag_length() == 0 {
            return None;
        }
        Some(self.start as usize + self.tag_start as usize)
    }

    /// Whether its payload has lines past the first.
    #[inline(always)]
    pub(crate) fn has_further(&self) -> bool
        ensures { result ≡ kept_further self.now }
    {
        self.mark > 127
    }
}

/// Adds a structure. Its fields are written one by one to where it stands: a value that is pushed would first be put together from them as
/// one number, by shifts. Grows.
#[inline(always)]
pub(crate) fn push_kept(
    structures: &mut Vec<KeptStructure>,
    structure: KeptStructure,
) -> Result<(), AllocError>
    ensures { OnOk result (structures.new.items ≡ structures.old.items ++ structure ∷ []) }
{
    let place = structures.len();
    structures.push(NOTHING_KEPT)?;
    let kept = &mut structures[place];
    kept.start = structure.start;
    kept.length = structure.length;
    kept.mark = structure.mark;
    kept.tag_start = structure.tag_start;
    kept.tag_mark = structure.tag_mark;
    Ok(())
}

/// The mark of the same level where the payload has lines past the first.
pub(crate) fn mark_with_further(mark: u8) -> u8
    ensures level { result % 128 ≡ mark % 128 }
    ensures further { 127 < result }
{
    if mark < 128 { mark + 128 } else { mark }
}

/// Where a line begins and its length as a structure keeps them, or `None` where its text is to be kept apart: no place
/// in the file is told, or one of the numbers is too large, that of its tag's bytes among them.
#[inline(always)]
pub(crate) fn kept_slice(
    start: Option<usize>,
    length: usize,
    tag_length: usize,
) -> Option<(u32, u8)>
    ensures true_ones { IfSome result (λ kept. (start ≡ Some kept.0) × (length ≡ kept.1) × (kept.1 < 255)) }
    ensures small_ones { (at : ℕ) → start ≡ Some at → at < 4294967296 → length < 255 → tag_length < 128 → result ≡ Some (at, length) }
{
    // A structure keeps no length of such a tag. That it is told here leaves nothing of it to tell where the others are kept.
    if tag_length > LONGEST_TAG {
        return None;
    }
    let Ok(start) = u32::try_from(start?) else {
        return None;
    };
    if length >= APART as usize {
        return None;
    }
    Some((start, length as u8))
}

/// Where the line of a structure begins whose text is kept apart, as far as that is kept: it is 0 where no place in the file is told,
/// or the number is too large.
pub(crate) fn start_if_kept(start: Option<usize>) -> u32 {
    match start {
        Some(start) => u32::try_from(start).unwrap_or(0),
        None => 0,
    }
}

/// The text of the structure at a place among those kept apart.
#[cold]
fn text_apart<'a>(apart: &[TextApart<'a>], place: usize) -> &'a str
    requires in_order { IsNonDecreasingBy (λ text. text.place) apart.now }
    requires some { ¬ (finds_apart apart.now place ≡ []) }
    ensures { result.now ≡ finds_apart apart.now place }
{
    let index = apart.partition_point(
        |text: &TextApart<'_>| -> bool
            ensures { result ≡ nat_lt text.now.place place }
        { text.place < place },
    );
    apart[index].text
}

/// The text of the structure at a place.
#[inline(always)]
pub(crate) fn text_of<'a>(
    file: &'a str,
    apart: &[TextApart<'a>],
    place: usize,
    structure: &KeptStructure,
) -> &'a str
    requires slice { HasSlice file.now structure.now }
    requires in_order { IsNonDecreasingBy (λ text. text.place) apart.now }
    requires some { ¬ (text_at file.now apart.now place structure.now ≡ []) }
    ensures { result.now ≡ text_at file.now apart.now place structure.now }
{
    if structure.length == APART {
        return text_apart(apart, place);
    }
    let start = structure.start as usize;
    let end = start + structure.length as usize;
    &file[start..end]
}
