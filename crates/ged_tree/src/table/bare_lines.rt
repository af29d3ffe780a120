// Lines of a table that stand in its text as the canonical spelling has them.
ghost use Rattle.std.specs.Prelude.{◌≡◌, ◌≤◌, ◌+◌, ◌++◌, ◌∷◌, [], false, IfSome, Some, length, decimal, slice_get, slice_range};
ghost use Rattle.ged_line.specs.Bytes.{line_feed, space};
ghost use Rattle.ged_tree.specs.Trees.{Trees, further_lines};
ghost use Rattle.ged_tree.specs.Views.{is_pointer};
ghost use Rattle.ged_tree.specs.Places.{structure_at};
ghost use Rattle.ged_tree.specs.DocumentLines.{rest_of_line};
ghost use Rattle.ged_tree.specs.BareLines.{AreBareLines, lines_text};

use crate::table::packed::KeptStructure;

/// The own lines of structures without an identifier, where they stand in a text as the canonical spelling has them, each with a line
/// feed behind it.
#[derive(Clone, Copy)]
pub struct BareLines<'f, 't> {
    pub(crate) text: &'f [u8],
    pub(crate) structures: &'t [KeptStructure],
}

impl<'f, 't> BareLines<'f, 't> {
    /// No lines.
    pub fn none() -> BareLines<'f, 't>
        ensures { (d : Trees) → AreBareLines d result }
    {
        BareLines {
            text: &[],
            structures: &[],
        }
    }

    /// The text in which the lines stand.
    #[inline(always)]
    pub fn text(&self) -> &'f [u8]
        ensures { result.now ≡ lines_text self.now }
    {
        self.text
    }

    /// About where the line of the structure at a place begins in the text, in bytes; or where the text ends, if there is none at that
    /// place. It is a hint, and no clause rests on it.
    pub fn start_of(&self, place: usize) -> usize {
        match self.structures.get(place) {
            Some(kept) => kept.start as usize,
            None => self.text.len(),
        }
    }

    /// From where up to where the own line of the structure at a place stands in the text, with its line feed, if it has this level and no
    /// identifier; or `None` where that is not kept.
    #[inline(always)]
    pub fn at(&self, place: usize, level: u8) -> Option<(usize, usize)>
        ensures order { IfSome result (λ run. (run.0 ≤ run.1) × (run.1 ≤ length (lines_text self.now))) }
        ensures line { (d : Trees) → AreBareLines d self.now → IfSome result (λ run. slice_range (lines_text self.now) run.0 run.1
            ≡ (decimal level ++ space ∷ rest_of_line (structure_at d place)) ++ line_feed ∷ []) }
    {
        let kept = self.structures.get(place)?;
        if !kept.is_bare(level) {
            return None;
        }
        self.range_of(kept)
    }

    /// The same for a structure whose payload is no pointer that names a record, and has no lines past the first.
    #[inline(always)]
    pub fn sole_at(&self, place: usize, level: u8) -> Option<(usize, usize)>
        ensures order { IfSome result (λ run. (run.0 ≤ run.1) × (run.1 ≤ length (lines_text self.now))) }
        ensures line { (d : Trees) → AreBareLines d self.now → IfSome result (λ run. slice_range (lines_text self.now) run.0 run.1
            ≡ (decimal level ++ space ∷ rest_of_line (structure_at d place)) ++ line_feed ∷ []) }
        ensures value { (d : Trees) → AreBareLines d self.now → IfSome result (λ _. is_pointer (structure_at d place).payload ≡ false) }
        ensures alone { (d : Trees) → AreBareLines d self.now → IfSome result (λ _. length (further_lines (structure_at d place).payload) ≡ 0) }
    {
        let kept = self.structures.get(place)?;
        if !kept.is_sole(level) {
            return None;
        }
        self.range_of(kept)
    }

    /// From where up to where the line of a structure stands in the text, with its line feed, if it has one.
    #[inline(always)]
    fn range_of(&self, kept: &KeptStructure) -> Option<(usize, usize)>
        ensures range { IfSome result (λ run. (run.0 ≡ kept.now.start) × (run.1 ≡ kept.now.start + kept.now.length + 1)) }
        ensures feed { IfSome result (λ run. slice_get (lines_text self.now) (kept.now.start + kept.now.length) ≡ Some line_feed) }
        ensures within { IfSome result (λ run. run.1 ≤ length (lines_text self.now)) }
    {
        let start = kept.start as usize;
        let end = start + kept.length as usize;
        if *self.text.get(end)? != b'\n' {
            return None;
        }
        Some((start, end + 1))
    }
}
