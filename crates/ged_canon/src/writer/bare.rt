// Lines that stand in a file as they are written, told by what a forest keeps of them.
ghost use Rattle.std.specs.Prelude.{◌≡◌, ◌<◌, ◌≤◌, ◌==◌, ◌++◌, ◌∷◌, ◌⊎◌, [], ℕ, false, IfSome, IsTrue, decimal, length, slice_range};
ghost use Rattle.std.specs.List.{list_any};
ghost use Rattle.ged_line.specs.Bytes.{Bytes, line_feed, space};
ghost use Rattle.ged_tree.specs.Trees.{further_lines};
ghost use Rattle.ged_tree.specs.Places.{structure_at};
ghost use Rattle.ged_tree.specs.Views.{is_pointer};
ghost use Rattle.ged_tree.specs.DocumentLines.{rest_of_line};
ghost use Rattle.ged_canon.specs.declared.edition.Edition.TheVariants.{First};
ghost use Rattle.ged_canon.specs.inner.Writing.{may_be_dated};

use crate::edition::Edition;
use crate::writer::letters::has_g;
use crate::writer::plan::Writer;
use ged_tree::Forest;

/// Whether the tag of a line, which stands behind two bytes, may be DATE or SDATE: its first two letters tell enough. They are compared
/// together, since many tags begin with one of their first letters alone.
#[inline(always)]
fn may_begin_dated(line: &[u8]) -> bool
    ensures date { result ≡ false → (a b : ℕ) (more : Bytes) → line.now ≡ a ∷ b ∷ 68 ∷ 65 ∷ more → ⊥ }
    ensures sdate { result ≡ false → (a b : ℕ) (more : Bytes) → line.now ≡ a ∷ b ∷ 83 ∷ 68 ∷ more → ⊥ }
{
    let &[_, _, first, second, ..] = line else {
        return true;
    };
    let pair = u16::from_be_bytes([first, second]);
    pair == u16::from_be_bytes(*b"DA") || pair == u16::from_be_bytes(*b"SD")
}

/// Whether nothing can be left out in a line of the first edition, whatever the context: only the name of a calendar is left out there,
/// which has a G, and only where the tag is DATE or SDATE.
#[inline(always)]
fn stays(line: &[u8]) -> bool
    ensures { IsTrue result → (level : ℕ) (tag rest : Bytes) → level < 10 → line.now ≡ (decimal level ++ space ∷ (tag ++ rest)) ++ line_feed ∷ []
        → (may_be_dated tag ≡ false) ⊎ (list_any (λ b. b == 71) (tag ++ rest) ≡ false) }
{
    !may_begin_dated(line) || !has_g(line)
}

impl<F: Forest> Writer<'_, '_, F> {
    /// From where up to where the own line of the structure at a place stands in the file as it is written at this level, if the forest
    /// keeps it so. No byte of the line is read but its end.
    #[inline(always)]
    pub(crate) fn kept_run(&self, level: u8, place: usize) -> Option<(usize, usize)>
        ensures order { IfSome result (λ run. run.0 ≤ run.1) }
        ensures line { IfSome result (λ run. slice_range self.now.plan.file.now run.0 run.1
            ≡ (decimal level ++ space ∷ rest_of_line (structure_at (F.trees self.now.forest.now) place)) ++ line_feed ∷ []) }
    {
        self.lines.at(place, level)
    }

    /// The same of the only line of a structure that has no pointer, where the first edition is written and leaves out nothing in it, whatever
    /// the context.
    #[inline(always)]
    pub(crate) fn plain_run(&self, level: u8, place: usize) -> Option<(usize, usize)>
        ensures order { IfSome result (λ run. run.0 ≤ run.1) }
        ensures line { IfSome result (λ run. slice_range self.now.plan.file.now run.0 run.1
            ≡ (decimal level ++ space ∷ rest_of_line (structure_at (F.trees self.now.forest.now) place)) ++ line_feed ∷ []) }
        ensures value { IfSome result (λ _. is_pointer (structure_at (F.trees self.now.forest.now) place).payload ≡ false) }
        ensures alone { IfSome result (λ _. length (further_lines (structure_at (F.trees self.now.forest.now) place).payload) ≡ 0) }
        ensures first { IfSome result (λ _. self.now.plan.edition ≡ First) }
        ensures plain { IfSome result (λ _. (may_be_dated (structure_at (F.trees self.now.forest.now) place).tag ≡ false)
            ⊎ (list_any (λ b. b == 71) (rest_of_line (structure_at (F.trees self.now.forest.now) place)) ≡ false)) }
    {
        if self.plan.edition != Edition::First || level > 9 {
            return None;
        }
        let (start, end) = self.lines.sole_at(place, level)?;
        if !stays(&self.lines.text()[start..end]) {
            return None;
        }
        Some((start, end))
    }
}
