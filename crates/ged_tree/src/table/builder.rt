// The table of a document's structures, made line by line.
ghost use Rattle.std.specs.Prelude.{◌≡◌, ◌<◌, false, ◌+◌, ◌%◌, ◌^◌, ◌++◌, ◌∷◌, [], List, MatchResult, IfOk, IfSome, None, Some, length, nat_lt};
ghost use Rattle.ged_line.specs.Lines.{LineParts};
ghost use Rattle.ged_line.specs.Spelling.{LineText};
ghost use Rattle.ged_tree.specs.Documents.{HasLines};
ghost use Rattle.ged_tree.specs.Rows.{names_record};
ghost use Rattle.ged_tree.specs.TreeFaults.{is_cont};
ghost use Rattle.ged_tree.specs.inner.Judging.{HasRole};
ghost use Rattle.ged_tree.specs.declared.judge.LineRole.TheVariants.{Substructure, Continuation, Record, Other};
ghost use Rattle.ged_tree.specs.inner.Tables.{line_text, HoldsLines, HasStructure, IsPut, IsSpelledAt};
ghost use Rattle.ged_tree.specs.inner.Tables.{IsTaken, Shows, TellsEnd, TellsFurther, TellsLine};

use crate::fault::{BuildFault, TreeAt, TreeFault};
use crate::forest::continuations::FurtherTable;
use crate::judge::{Judge, LineRole, is_trailer};
use crate::room::room_in_large_pages;
use crate::table::flat::Flat;
use crate::table::growing::GrowingSizes;
use crate::table::packed::{
    APART, KeptStructure, LONGEST_TAG, TextApart, kept_slice, mark_with_further, push_kept,
    start_if_kept,
};
use crate::table::structure::start_of_tag;
use ged_line::{LineView, SpelledLine, ValueView};
use std::alloc::{AllocError, Global};
use std::mem::size_of;

fn text_of_line<'a>(line: &LineView<'a>) -> &'a str
    ensures { result.now ≡ line_text line.now.value }
{
    match line.value() {
        ValueView::Text(text) => text,
        _ => "",
    }
}

/// The place in the file so many bytes behind another.
#[inline(always)]
fn start_behind(start: Option<usize>, bytes: usize) -> Option<usize>
    requires { IfSome start (λ at. at + bytes < 2 ^ 64) }
    ensures told { IfSome start (λ at. result ≡ Some (at + bytes)) }
    ensures untold { start ≡ None → result ≡ None }
{
    match start {
        Some(start) => Some(start + bytes),
        None => None,
    }
}

/// Whether a line's value is a pointer that names a record.
#[inline(always)]
fn is_pointer(line: &LineView<'_>) -> bool
    ensures { result ≡ names_record line.now.value }
{
    matches!(line.value(), ValueView::Pointer(_))
}

/// What a structure keeps of its tag.
#[derive(Clone, Copy)]
struct KeptTag {
    /// Where the tag begins in the line, in bytes.
    start: u8,
    /// Its length, and 128 more where a pointer stands behind it. Where the start or the length is too large, it is 0.
    mark: u8,
}

/// What is kept of a tag, by its start, its length, and whether a pointer stands behind it.
#[inline(always)]
fn kept_tag(start: usize, length: usize, points: bool) -> KeptTag
    ensures true_ones { 0 < result.mark % 128
        → (result.start ≡ start) × (result.mark % 128 ≡ length) × (nat_lt 127 result.mark ≡ points) × (start < 256) }
    ensures small_ones { start < 256 → length < 128 → (result.start ≡ start) × (result.mark % 128 ≡ length) × (nat_lt 127 result.mark ≡ points) }
{
    if start > 255 || length > LONGEST_TAG {
        return KeptTag { start: 0, mark: 0 };
    }
    KeptTag {
        start: start as u8,
        mark: length as u8 + 128 * u8::from(points),
    }
}

/// The structure that begins on a line, before its table is closed, by where its text is kept.
#[inline(always)]
fn structure_of_line(spelled: &SpelledLine<'_>, start: u32, length: u8) -> KeptStructure
    requires { LineText spelled.now.line spelled.now.text.now }
    ensures line { Shows spelled.now.line spelled.now.text.now result }
    ensures start { result.start ≡ start }
    ensures length { result.length ≡ length }
{
    let line = &spelled.line;
    let points = is_pointer(line);
    let kept = kept_tag(start_of_tag(line), line.tag().len(), points);
    KeptStructure {
        start,
        length,
        mark: line.level(),
        tag_start: kept.start,
        tag_mark: kept.mark,
    }
}

/// Has the last structure tell that its payload goes on.
fn tell_further(structures: &mut Vec<KeptStructure>)
    ensures { TellsFurther structures.old.items structures.new.items }
{
    let count = structures.len();
    if count == 0 {
        return;
    }
    let mut structure = structures[count - 1];
    structure.mark = mark_with_further(structure.mark);
    structures[count - 1] = structure;
}

/// Fewer bytes than most files have to a line.
const USUAL_LINE: usize = 20;

/// A table that takes lines, and the judge of the next one.
#[derive(Drop)]
pub(crate) struct TableBuilder<'a> {
    judge: Judge,
    /// How many lines were taken.
    pub(crate) count: u64,
    /// The text in which lines are told by where they begin.
    pub(crate) file: &'a str,
    structures: Vec<KeptStructure>,
    sizes: GrowingSizes,
    apart: Vec<TextApart<'a>>,
    further: FurtherTable<'a>,
}

impl<'a> TableBuilder<'a> {
    pub(crate) fn new(alloc: Global, file: &'a str) -> TableBuilder<'a>
        ensures lines { HoldsLines result [] }
        ensures file { result.file.now ≡ file.now }
    {
        TableBuilder {
            judge: Judge::new(),
            count: 0,
            file,
            structures: Vec::new(alloc),
            sizes: GrowingSizes::new(alloc),
            apart: Vec::new(alloc),
            further: FurtherTable::new(alloc),
        }
    }

    /// The same, with room for the structures of a file whose lines have [`USUAL_LINE`] bytes, and for their sizes: a vector that grows to
    /// its size moves with each growth, and most of the pages that it then gets are small ones. Grows.
    pub(crate) fn with_room(alloc: Global, file: &'a str) -> Result<TableBuilder<'a>, AllocError>
        ensures lines { IfOk result (λ table. HoldsLines table []) }
        ensures file { IfOk result (λ table. table.file.now ≡ file.now) }
    {
        let mut table = TableBuilder::new(alloc, file);
        let count = file.len() / USUAL_LINE;
        let bytes = room_in_large_pages(count * size_of::<KeptStructure>());
        table
            .structures
            .reserve(bytes / size_of::<KeptStructure>())?;
        table.sizes.reserve(count)?;
        Ok(table)
    }

    /// Takes one more line, and tells what it is, or answers the lowest fault that stands at it. `start` tells where in the builder's
    /// file the line begins, in bytes; without it the line's text is kept apart.
    #[inline(always)]
    pub(crate) fn take(
        &mut self,
        spelled: &SpelledLine<'a>,
        start: Option<usize>,
    ) -> Result<LineRole, BuildFault>
        requires few { self.now.count < 2 ^ 63 }
        requires line { IsSpelledAt self.now.file.now start spelled.now }
        ensures { (lines : List LineParts) → HoldsLines self.old lines → MatchResult result
            (λ role. HasRole role spelled.now.line × (self.new.file.now ≡ self.old.file.now) × HoldsLines self.new (lines ++ spelled.now.line ∷ []))
            (λ fault. TellsLine fault lines spelled.now.line) }
    {
        let line = &spelled.line;
        // Read for the proof alone: by its contract the parts are those of a line.
        let _level = line.level();
        let role = match self.judge.role(line) {
            Ok(role) => role,
            Err(fault) => {
                let line = self.count + 1;
                return Err(BuildFault::At(TreeAt { line, fault }));
            }
        };
        self.count += 1;
        match self.put(spelled, start, role) {
            Ok(()) => Ok(role),
            Err(error) => Err(BuildFault::Memory(error)),
        }
    }

    /// Has the judge take a line of this role, and adds the structure or the further line of it. Each role has a branch of its own for all of
    /// this, in which nothing of what the role tells is asked again.
    #[inline(always)]
    fn put(
        &mut self,
        spelled: &SpelledLine<'a>,
        start: Option<usize>,
        role: LineRole,
    ) -> Result<(), AllocError>
        requires { IsSpelledAt self.now.file.now start spelled.now }
        ensures { HasRole role spelled.now.line → IfOk result (λ _. IsTaken spelled.now.line self.old self.new) }
    {
        match role {
            LineRole::Substructure => self.put_substructure(spelled, start),
            LineRole::Continuation => self.put_continuation(spelled, start),
            LineRole::Record => self.put_record(spelled, start),
            LineRole::Other => self.put_other(spelled, start),
        }
    }

    /// The same of a line that begins a structure below another one.
    #[inline(always)]
    fn put_substructure(
        &mut self,
        spelled: &SpelledLine<'a>,
        start: Option<usize>,
    ) -> Result<(), AllocError>
        requires { IsSpelledAt self.now.file.now start spelled.now }
        ensures { HasRole Substructure spelled.now.line → IfOk result (λ _. IsTaken spelled.now.line self.old self.new) }
    {
        self.judge.keep(&spelled.line, LineRole::Substructure);
        self.push_structure(spelled, start)
    }

    /// The same of a CONT.
    #[inline(always)]
    fn put_continuation(
        &mut self,
        spelled: &SpelledLine<'a>,
        start: Option<usize>,
    ) -> Result<(), AllocError>
        requires { IsSpelledAt self.now.file.now start spelled.now }
        ensures { HasRole Continuation spelled.now.line → IfOk result (λ _. IsTaken spelled.now.line self.old self.new) }
    {
        self.judge.keep(&spelled.line, LineRole::Continuation);
        self.push_continuation(spelled, start)
    }

    /// The same of a line that begins a record.
    #[inline(always)]
    fn put_record(
        &mut self,
        spelled: &SpelledLine<'a>,
        start: Option<usize>,
    ) -> Result<(), AllocError>
        requires { IsSpelledAt self.now.file.now start spelled.now }
        ensures { HasRole Record spelled.now.line → IfOk result (λ _. IsTaken spelled.now.line self.old self.new) }
    {
        self.judge.keep(&spelled.line, LineRole::Record);
        self.push_structure(spelled, start)
    }

    /// The same of any other line.
    #[inline(always)]
    fn put_other(
        &mut self,
        spelled: &SpelledLine<'a>,
        start: Option<usize>,
    ) -> Result<(), AllocError>
        requires { IsSpelledAt self.now.file.now start spelled.now }
        ensures { HasRole Other spelled.now.line → IfOk result (λ _. IsTaken spelled.now.line self.old self.new) }
    {
        self.judge.keep(&spelled.line, LineRole::Other);
        self.push_other(spelled, start)
    }

    /// Adds the structure that begins on a line that is no CONT; TRLR adds none.
    #[inline(always)]
    fn push_other(
        &mut self,
        spelled: &SpelledLine<'a>,
        start: Option<usize>,
    ) -> Result<(), AllocError>
        requires { IsSpelledAt self.now.file.now start spelled.now }
        ensures { is_cont spelled.now.line ≡ false → IfOk result (λ _. IsPut spelled.now.line self.old self.new) }
    {
        if is_trailer(&spelled.line) {
            return Ok(());
        }
        self.push_structure(spelled, start)
    }

    /// Adds the further line of a CONT.
    #[inline(always)]
    fn push_continuation(
        &mut self,
        spelled: &SpelledLine<'a>,
        start: Option<usize>,
    ) -> Result<(), AllocError>
        requires { IsSpelledAt self.now.file.now start spelled.now }
        ensures { HasRole Continuation spelled.now.line → IfOk result (λ _. IsPut spelled.now.line self.old self.new) }
    {
        let after = self.structures.len();
        let text = text_of_line(&spelled.line);
        let start = start_behind(start, spelled.text.len() - text.len());
        self.further.push(after, text, start)?;
        tell_further(&mut self.structures);
        Ok(())
    }

    /// Adds the structure that begins on a line.
    #[inline(always)]
    fn push_structure(
        &mut self,
        spelled: &SpelledLine<'a>,
        start: Option<usize>,
    ) -> Result<(), AllocError>
        requires { IsSpelledAt self.now.file.now start spelled.now }
        ensures { IfOk result (λ _. HasStructure spelled.now.line self.old self.new) }
    {
        let tag_length = spelled.line.tag().len();
        let Some((start, length)) = kept_slice(start, spelled.text.len(), tag_length) else {
            let start = start_if_kept(start);
            return self.push_apart(spelled.text, structure_of_line(spelled, start, APART));
        };
        let place = self.structures.len();
        push_kept(
            &mut self.structures,
            structure_of_line(spelled, start, length),
        )?;
        self.sizes.push(spelled.line.level(), place)?;
        Ok(())
    }

    /// Adds a structure whose text is kept apart. That it is not handed a whole line lets the line stay in registers.
    #[cold]
    fn push_apart(&mut self, text: &'a str, structure: KeptStructure) -> Result<(), AllocError>
        requires { structure.length ≡ 255 }
        ensures { (line : LineParts) → Shows line text.now structure
            → IfOk result (λ _. HasStructure line self.old self.new) }
    {
        let place = self.structures.len();
        self.apart.push(TextApart { place, text })?;
        self.structures.push(structure)?;
        self.sizes.push(structure.level(), place)?;
        Ok(())
    }

    /// The document of the lines that were taken, or what stands past the last of them.
    pub(crate) fn finish(self) -> Result<Flat<'a>, BuildFault>
        requires few { self.count < 2 ^ 63 }
        requires lines { (lines : List LineParts) × HoldsLines self lines × (length lines < 2 ^ 63) }
        ensures { (lines : List LineParts) → HoldsLines self.entry lines → length lines < 2 ^ 63 → MatchResult result
            (λ flat. HasLines flat lines)
            (λ fault. TellsEnd fault lines) }
    {
        if !self.judge.has_ended() {
            let fault = if self.count == 0 {
                TreeFault::NoHeader
            } else {
                TreeFault::NoTrailer
            };
            let line = self.count + 1;
            return Err(BuildFault::At(TreeAt { line, fault }));
        }
        match self.sizes.finish(self.structures.len()) {
            Ok(sizes) => Ok(Flat::of_table(
                self.file,
                self.structures,
                sizes,
                self.apart,
                self.further,
            )),
            Err(error) => Err(BuildFault::Memory(error)),
        }
    }
}
