// A document as a table of slices of its file.
ghost use Rattle.std.specs.Prelude.{◌≡◌, ◌<◌, ◌↔◌, IfSome, Some, true, IsTrue, length, slice_get};
ghost use Rattle.ged_tree.specs.Trees.{trees_count, further_lines};
ghost use Rattle.ged_tree.specs.Documents.{is_document};
ghost use Rattle.ged_tree.specs.DocumentLines.{rest_of_line};
ghost use Rattle.ged_tree.specs.Places.{structure_at, place_after, level_at, line_at};
ghost use Rattle.ged_tree.specs.Views.{payload_of, is_pointer, IsOwnLine};
ghost use Rattle.ged_tree.specs.BareLines.{AreBareLines};
ghost use Rattle.ged_tree.specs.Rows.{flat_trees, further_of, kept_points, kept_tag_length, IsFlat, IsSpelled, line_shown, shown_from};
ghost use Rattle.ged_tree.specs.inner.Rows.{rest_of, shown_of};
ghost use Rattle.ged_tree.specs.inner.Tables.{own_value};
ghost use Rattle.ged_tree.specs.declared.forest.payload.PayloadView.{PayloadView};

use crate::forest::Forest;
use crate::forest::continuations::{FurtherLines, FurtherTable};
use crate::forest::own_line::OwnLine;
use crate::forest::payload::PayloadView;
use crate::room::give_back;
use crate::table::bare_lines::BareLines;
use crate::table::closing::Sizes;
use crate::table::packed::{KeptStructure, TextApart, text_of};
use crate::table::structure::FlatStructure;
use std::marker::Model;

/// A document as a vector of its structures, in the order of the file, and a vector of the further lines of their
/// payloads. All texts are slices of the file. Contracts see it as its trees.
#[derive(Drop)]
pub struct Flat<'a> {
    file: &'a str,
    structures: Vec<KeptStructure>,
    sizes: Sizes,
    /// The texts of structures that keep no slice of the file, in order of their places.
    apart: Vec<TextApart<'a>>,
    further: FurtherTable<'a>,
}

impl<'a> Model for Flat<'a> {
    ghost use Rattle.ged_tree.specs.Trees.{Trees};
    ghost use Rattle.ged_tree.specs.inner.TreeCodes.{trees_code};
    ghost use Rattle.ged_tree.specs.Rows.{flat_trees, shown_from, further_of, IsFlat};

    ghost Value = { Trees };

    ghost coded = { trees_code };

    ghost view = { λ f. flat_trees (shown_from f.file.now f.apart.items 0 f.structures.items) (further_of f.file.now f.further) };

    ghost invariant = { λ f. IsFlat f.file.now f.apart.items f.structures.items f.sizes f.further };
}

impl<'a> Flat<'a> {
    /// The document of a table that lists one. The room that its structures and its further lines did not take is given back.
    pub(crate) fn of_table(
        file: &'a str,
        mut structures: Vec<KeptStructure>,
        sizes: Sizes,
        apart: Vec<TextApart<'a>>,
        mut further: FurtherTable<'a>,
    ) -> Flat<'a>
        requires { IsFlat file.now apart.items structures.items sizes further }
        ensures { result ≡ flat_trees (shown_from file.now apart.entry.items 0 structures.items) (further_of file.now further.entry) }
    {
        give_back(&mut structures);
        further.fit();
        Flat {
            file,
            structures,
            sizes,
            apart,
            further,
        }
    }

    fn count(&self) -> usize
        ensures count { result ≡ trees_count self.now }
        ensures document { is_document self.now ≡ true }
    {
        self.structures.len()
    }

    fn level_at(&self, place: usize) -> u8
        requires { place < trees_count self.now }
        ensures { result ≡ level_at 0 self.now place }
    {
        self.structures[place].level()
    }

    /// The structure at a place.
    #[inline(always)]
    fn at(&self, place: usize) -> FlatStructure<'a>
        requires { place < trees_count self.now }
        ensures tag { (line_shown (shown_of result)).tag ≡ (structure_at self.now place).tag }
        ensures xref { (line_shown (shown_of result)).xref ≡ (structure_at self.now place).xref }
        ensures payload { (v : PayloadView) → own_value v ≡ (line_shown (shown_of result)).value
            → payload_of v (further_lines (structure_at self.now place).payload) ≡ (structure_at self.now place).payload }
        ensures rest { rest_of (line_shown (shown_of result)) ≡ rest_of_line (structure_at self.now place) }
        ensures spelled { IsSpelled (shown_of result) }
        ensures points { 0 < kept_tag_length result.kept → kept_points result.kept ≡ is_pointer (structure_at self.now place).payload }
    {
        let kept = self.structures[place].by_fields();
        let text = text_of(self.file, self.apart.as_slice(), place, &kept);
        FlatStructure { text, kept }
    }

    /// Whether the payload at a place is a pointer that names a record, told without a look at its line; or `None` where
    /// that is not kept.
    #[inline(always)]
    fn kept_points_at(&self, place: usize) -> Option<bool>
        requires { place < trees_count self.now }
        ensures { IfSome result (λ points. points ≡ is_pointer (structure_at self.now place).payload) }
    {
        self.structures[place].points()
    }

    /// The own line of the structure at a place; or `None` where it is not kept where the tag stands.
    #[inline(always)]
    fn own_line_at(&self, place: usize) -> Option<OwnLine<'a>>
        requires { place < trees_count self.now }
        ensures { IfSome result (IsOwnLine (structure_at self.now place)) }
    {
        let structure = self.at(place);
        let points = structure.kept.points()?;
        let start = structure.kept.start_of_rest()?;
        Some(OwnLine {
            tag: structure.tag(),
            rest: structure.rest(),
            start,
            points,
        })
    }

    /// The own lines of structures that stand in the file as they are written. Takes no memory.
    pub fn bare_lines(&self) -> BareLines<'a, '_>
        ensures { AreBareLines self.now result }
    {
        BareLines {
            text: self.file.as_bytes(),
            structures: self.structures.as_slice(),
        }
    }

    #[inline(always)]
    fn after_at(&self, place: usize) -> usize
        requires { place < trees_count self.now }
        ensures { result ≡ place_after self.now place }
    {
        self.sizes.after(self.structures.as_slice(), place)
    }

    fn line_at(&self, place: usize) -> u64
        requires { place < trees_count self.now }
        ensures { result ≡ line_at 1 self.now place }
    {
        let before = self.further.before(place);
        (place + before) as u64 + 1
    }

    /// Whether the payload at a place has further lines.
    #[inline(always)]
    fn has_further_at(&self, place: usize) -> bool
        requires { place < trees_count self.now }
        ensures { IsTrue result ↔ 0 < length (further_lines (structure_at self.now place).payload) }
    {
        self.structures[place].has_further()
    }

    /// How many further lines the payload at a place has.
    #[inline(always)]
    fn further_count(&self, place: usize) -> usize
        requires { place < trees_count self.now }
        ensures { result ≡ length (further_lines (structure_at self.now place).payload) }
    {
        if !self.structures[place].has_further() {
            return 0;
        }
        self.found_count_at(place)
    }

    /// The same, looked up among those of all structures. A function of its own, so that the common path, on which there are none, need not
    /// clear the stack's room for them.
    #[inline(never)]
    fn found_count_at(&self, place: usize) -> usize
        requires { place < trees_count self.now }
        ensures { result ≡ length (further_lines (structure_at self.now place).payload) }
    {
        self.found_lines_at(place).count()
    }

    /// The further lines of the payload at a place.
    #[inline(always)]
    fn further_lines_at(&self, place: usize) -> FurtherLines<'_>
        requires { place < trees_count self.now }
        ensures { result ≡ further_lines (structure_at self.now place).payload }
    {
        if !self.structures[place].has_further() {
            return FurtherLines::of(self.file, &self.further, 0, 0);
        }
        self.found_lines_at(place)
    }

    /// The same, looked up among those of all structures.
    #[inline(never)]
    fn found_lines_at(&self, place: usize) -> FurtherLines<'_>
        requires { place < trees_count self.now }
        ensures { result ≡ further_lines (structure_at self.now place).payload }
    {
        let start = self.further.before(place);
        let end = self.further.before(place + 1);
        FurtherLines::of(self.file, &self.further, start, end - start)
    }

    /// A further line of the payload at a place.
    fn further_at(&self, place: usize, number: usize) -> &'a str
        requires within { place < trees_count self.now }
        requires further { number < length (further_lines (structure_at self.now place).payload) }
        ensures { slice_get (further_lines (structure_at self.now place).payload) number ≡ Some result.now }
    {
        let start = self.further.before(place);
        self.further.text(self.file, start + number)
    }
}

impl<'a> Forest for Flat<'a> {
    ghost trees = { λ flat. flat };

    fn size(&self) -> usize {
        self.count()
    }

    fn level(&self, place: usize) -> u8 {
        self.level_at(place)
    }

    #[inline(always)]
    fn after(&self, place: usize) -> usize {
        self.after_at(place)
    }

    fn line(&self, place: usize) -> u64 {
        self.line_at(place)
    }

    #[inline(always)]
    fn tag(&self, place: usize) -> &str {
        self.at(place).tag()
    }

    fn xref(&self, place: usize) -> Option<&str> {
        self.at(place).xref()
    }

    #[inline(always)]
    fn payload(&self, place: usize) -> PayloadView<'_> {
        self.at(place).payload()
    }

    #[inline(always)]
    fn tag_and_payload(&self, place: usize) -> (&str, PayloadView<'_>) {
        let structure = self.at(place);
        (structure.tag(), structure.payload())
    }

    #[inline(always)]
    fn points(&self, place: usize) -> bool {
        match self.kept_points_at(place) {
            Some(points) => points,
            None => matches!(self.payload(place), PayloadView::Pointer(_)),
        }
    }

    #[inline(always)]
    fn own_line(&self, place: usize) -> Option<OwnLine<'_>> {
        self.own_line_at(place)
    }

    fn further(&self, place: usize) -> usize {
        self.further_count(place)
    }

    #[inline(always)]
    fn has_further(&self, place: usize) -> bool {
        self.has_further_at(place)
    }

    fn further_line(&self, place: usize, number: usize) -> &str {
        self.further_at(place, number)
    }

    #[inline(always)]
    fn further_lines(&self, place: usize) -> Option<FurtherLines<'_>> {
        Some(self.further_lines_at(place))
    }
}
