// The answer of a writer: the bytes of a form, as far as they are written.
ghost use Rattle.std.specs.Prelude.{◌≡◌, ◌<◌, ◌≤◌, ◌+◌, ◌++◌, ◌∷◌, [], IfOk, OnOk, None, Some, true, length, decimal, codes, slice_range};
ghost use Rattle.std.specs.Option.{option_copied};
ghost use Rattle.std.specs.List.{list_all};
ghost use Rattle.ged_line.specs.Bytes.{line_feed, space};
ghost use Rattle.ged_line.specs.Characters.{is_plain};
ghost use Rattle.ged_line.specs.Lines.{Pointer, is_line, line_parts, xref_part};
ghost use Rattle.ged_line.specs.Spelling.{spelling, spelled_lines};
ghost use Rattle.ged_line.specs.Views.{viewed_value};
ghost use Rattle.ged_tree.specs.DocumentLines.{line_value};
ghost use Rattle.ged_tree.specs.inner.DocumentParts.{continued};
ghost use Rattle.ged_canon.specs.Normal.{numbered as spells_number};
ghost use Rattle.ged_canon.specs.inner.Runs.{ArePlaced};

use crate::spelled::SpelledForm;
use crate::writer::kept::{kept_cont, kept_line};
use crate::writer::numbered::{push_pointer, push_record};
use crate::writer::pieced::Pieced;
use ged_line::{ValueView, write_head, write_parts};
use ged_tree::FurtherLines;
use std::alloc::{AllocError, Global};
use std::mem;

/// What stands in a line that shows one line of a text.
pub(crate) fn text_value(text: &str) -> ValueView<'_>
    ensures { viewed_value result ≡ line_value text.now }
{
    if text.is_empty() {
        return ValueView::Empty;
    }
    ValueView::Text(text)
}

/// The bytes that are written so far. All that a writer writes is appended here, a line with each call. Lines that stand in the
/// file as they are written are kept as slices of it. The file is not held here, and each call is given it: contracts see the answer by
/// the bytes that it stands for in that file.
#[derive(Drop)]
pub(crate) struct Answer {
    pieced: Pieced,
    /// Where the run of the file begins that stands last and may go on, in bytes.
    start: usize,
    /// Where it ends, or where the lines of a payload may go on in the file.
    end: usize,
    ghost placed: { ArePlaced pieced.runs.items pieced.made.items pieced.placed },
    ghost order: { start ≤ end },
}

impl Answer {
    ghost use Rattle.ged_line.specs.Bytes.{Bytes};
    ghost use Rattle.ged_canon.specs.inner.Written.{written, Appends};

    /// The byte order mark, in memory for a document of so many structures, from a file of so many bytes.
    pub(crate) fn start(
        alloc: Global,
        structures: usize,
        bytes: usize,
    ) -> Result<Answer, AllocError>
        ensures { (file : Bytes) → IfOk result (λ answer. written file answer ≡ 0xEF ∷ 0xBB ∷ 0xBF ∷ []) }
    {
        let pieced = Pieced::start(alloc, structures, bytes)?;
        Ok(Answer {
            pieced,
            start: 0,
            end: 0,
        })
    }

    /// Nothing. Takes no memory.
    pub(crate) fn none(alloc: Global) -> Answer
        ensures { (file : Bytes) → written file result ≡ [] }
    {
        Answer {
            pieced: Pieced::none(alloc),
            start: 0,
            end: 0,
        }
    }

    /// All that is written, as a form of its own; what is written afterwards is written behind nothing.
    pub(crate) fn take_form<'f>(
        &mut self,
        alloc: Global,
        file: &'f [u8],
    ) -> Result<SpelledForm<'f>, AllocError>
        ensures form { IfOk result (λ form. form ≡ written file.now self.old) }
        ensures rest { OnOk result (written file.now self.new ≡ []) }
    {
        let start = mem::replace(&mut self.start, self.end);
        self.pieced.place(file, start, self.end)?;
        let Pieced {
            runs,
            made,
            placed: _,
        } = mem::replace(&mut self.pieced, Pieced::none(alloc));
        Ok(SpelledForm { file, runs, made })
    }

    /// Drops what is written, and writes in the memory of a form that is no longer wanted.
    pub(crate) fn reuse(&mut self, form: SpelledForm<'_>)
        ensures { (file : Bytes) → written file self.new ≡ [] }
    {
        let SpelledForm {
            file: _,
            mut runs,
            mut made,
        } = form;
        runs.clear();
        made.clear();
        self.start = self.end;
        self.pieced = Pieced {
            runs,
            made,
            placed: 0,
        };
    }

    /// All that is written.
    pub(crate) fn into_form<'f>(self, file: &'f [u8]) -> Result<SpelledForm<'f>, AllocError>
        ensures { IfOk result (λ form. form ≡ written file.now self) }
    {
        let Answer {
            mut pieced,
            start,
            end,
        } = self;
        pieced.place(file, start, end)?;
        let Pieced {
            runs,
            made,
            placed: _,
        } = pieced;
        Ok(SpelledForm { file, runs, made })
    }

    /// Appends a run of the file.
    #[inline(always)]
    pub(crate) fn push_run(
        &mut self,
        file: &[u8],
        start: usize,
        end: usize,
    ) -> Result<(), AllocError>
        requires { start ≤ end }
        ensures { OnOk result (Appends file.now self.old self.new (slice_range file.now start end)) }
    {
        if self.end == start {
            self.end = end;
            return Ok(());
        }
        let before = mem::replace(&mut self.start, self.end);
        self.pieced.place(file, before, self.end)?;
        self.start = start;
        self.end = end;
        Ok(())
    }

    /// Appends a line.
    #[inline(always)]
    pub(crate) fn push_parts(
        &mut self,
        file: &[u8],
        level: u8,
        xref: Option<&str>,
        tag: &str,
        value: ValueView<'_>,
    ) -> Result<(), AllocError>
        requires { is_line (line_parts level (option_copied xref) tag.now (viewed_value value)) ≡ true }
        ensures { OnOk result (Appends file.now self.old self.new (spelling (line_parts level (option_copied xref.entry) tag.now (viewed_value value.entry)) ++ line_feed ∷ [])) }
    {
        let start = mem::replace(&mut self.start, self.end);
        self.pieced.place(file, start, self.end)?;
        write_parts(level, xref, tag, value, &mut self.pieced.made)
    }

    /// Appends a line that has this level and identifier, and this rest, which begins with its tag and may stand in the file at
    /// this place, in bytes. Where the whole line does, it is kept. A function of its own: most lines that are kept are told without it.
    #[inline(never)]
    pub(crate) fn push_rest(
        &mut self,
        file: &[u8],
        level: u8,
        xref: Option<&str>,
        rest: &str,
        place: Option<usize>,
    ) -> Result<(), AllocError>
        requires { level ≤ 99 }
        ensures { OnOk result (Appends file.now self.old self.new ((decimal level ++ space ∷ (xref_part (option_copied xref.entry) ++ rest.now)) ++ line_feed ∷ [])) }
    {
        match kept_line(file, level, xref, rest, place) {
            Some((start, end)) => self.push_run(file, start, end),
            None => self.push_head_and_rest(file, level, xref, rest),
        }
    }

    /// Appends a line that is not kept.
    #[inline(never)]
    fn push_head_and_rest(
        &mut self,
        file: &[u8],
        level: u8,
        xref: Option<&str>,
        rest: &str,
    ) -> Result<(), AllocError>
        requires { level ≤ 99 }
        ensures { OnOk result (Appends file.now self.old self.new ((decimal level ++ space ∷ (xref_part (option_copied xref.entry) ++ rest.now)) ++ line_feed ∷ [])) }
    {
        let start = mem::replace(&mut self.start, self.end);
        self.pieced.place(file, start, self.end)?;
        let made = &mut self.pieced.made;
        write_head(level, xref, made)?;
        made.extend_from_slice(rest.as_bytes())?;
        made.push(b'\n')?;
        Ok(())
    }

    /// Appends a line whose value is a pointer to the record with a new number.
    #[inline(always)]
    pub(crate) fn push_numbered(
        &mut self,
        file: &[u8],
        level: u8,
        xref: Option<&str>,
        tag: &str,
        number: usize,
    ) -> Result<(), AllocError>
        requires level { level ≤ 99 }
        requires number { 0 < number }
        ensures { OnOk result (Appends file.now self.old self.new (spelling (line_parts level (option_copied xref.entry) tag.now (Pointer (spells_number number))) ++ line_feed ∷ [])) }
    {
        let start = mem::replace(&mut self.start, self.end);
        self.pieced.place(file, start, self.end)?;
        push_pointer(level, xref, tag, number, &mut self.pieced.made)
    }

    /// Appends the own line of a record with a new number, which has this rest, as that of [`Answer::push_rest`].
    #[inline(always)]
    pub(crate) fn push_record(
        &mut self,
        file: &[u8],
        number: usize,
        rest: &str,
    ) -> Result<(), AllocError>
        requires { 0 < number }
        ensures { OnOk result (Appends file.now self.old self.new ((decimal 0 ++ space ∷ (xref_part (Some (spells_number number)) ++ rest.now)) ++ line_feed ∷ [])) }
    {
        let start = mem::replace(&mut self.start, self.end);
        self.pieced.place(file, start, self.end)?;
        push_record(number, rest, &mut self.pieced.made)
    }

    /// Appends a line whose value is a pointer with this name. A function of its own, so that the common path need not clear the
    /// stack's room for a value.
    #[cold]
    #[inline(never)]
    pub(crate) fn push_named(
        &mut self,
        file: &[u8],
        level: u8,
        xref: Option<&str>,
        tag: &str,
        name: &str,
    ) -> Result<(), AllocError>
        requires { is_line (line_parts level (option_copied xref) tag.now (Pointer name.now)) ≡ true }
        ensures { OnOk result (Appends file.now self.old self.new (spelling (line_parts level (option_copied xref.entry) tag.now (Pointer name.now)) ++ line_feed ∷ [])) }
    {
        self.push_parts(file, level, xref, tag, ValueView::Pointer(name))
    }

    /// Appends a CONT line with this text. Where it stands in the file behind the last run, it is kept.
    #[inline(always)]
    fn push_cont(&mut self, file: &[u8], level: u8, text: &str) -> Result<(), AllocError>
        requires { is_line (line_parts level None (codes "CONT") (line_value text.now)) ≡ true }
        ensures { OnOk result (Appends file.now self.old self.new (spelling (line_parts level None (codes "CONT") (line_value text.now)) ++ line_feed ∷ [])) }
    {
        if let Some(end) = kept_cont(file, level, text, self.end) {
            self.end = end;
            return Ok(());
        }
        self.push_parts(file, level, None, "CONT", text_value(text))
    }

    /// Appends a CONT line for each further line of the payload of a structure at a level.
    #[inline(never)]
    pub(crate) fn push_further(
        &mut self,
        file: &[u8],
        level: u8,
        further: &FurtherLines<'_>,
    ) -> Result<(), AllocError>
        requires shallow { level ≤ 99 }
        requires room { 0 < length further.now → level < 99 }
        requires plain { list_all is_plain further.now ≡ true }
        ensures { OnOk result (Appends file.now self.old self.new (spelled_lines (continued (level + 1) further.now))) }
    {
        for number in 0..further.count() {
            self.push_cont(file, level + 1, further.line(number))?;
        }
        Ok(())
    }
}
