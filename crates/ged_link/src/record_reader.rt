// The records and the pointers of a document, read from its lines.
ghost use Rattle.std.specs.Prelude.{◌≡◌, ◌++◌, ◌∷◌, [], List, IfOk, OnOk, false};
ghost use Rattle.std.specs.Option.{option_copied};
ghost use Rattle.ged_line.specs.Bytes.{Bytes};
ghost use Rattle.ged_line.specs.Lines.{LineParts};
ghost use Rattle.ged_tree.specs.TreeFaults.{is_header, is_trailer};
ghost use Rattle.ged_link.specs.inner.PointerLists.{line_pointers, AreListedPointers};
ghost use Rattle.ged_link.specs.inner.RecordLines.{record_lines, AreListed, is_record_tag as tests_record_tag};

use crate::listed_pointer::list_pointer;
use crate::listing::RecordList;
use crate::record_type::type_of;
use crate::targets::Target;
use ged_line::{LineView, ValueView};
use ged_tree::LineReader;
use std::alloc::{AllocError, Global};

/// Lists the records and the pointers of a document from its lines, while these are read, so that [`crate::resolve_with`] looks at no
/// record's line again, and at that of no pointer to an ordinary name.
#[derive(Drop)]
pub struct RecordReader {
    pub(crate) list: RecordList,
    /// What is listed of each pointer, where its target is to stand.
    pub(crate) pointers: Vec<Target>,
}

/// Whether a structure at level 0 with this tag is a record.
fn is_record_tag(tag: &str) -> bool
    ensures { result ≡ tests_record_tag tag.now }
{
    tag != "HEAD" && tag != "TRLR"
}

impl RecordReader {
    /// A reader of no lines. Grows.
    pub fn new(alloc: Global) -> Result<RecordReader, AllocError>
        ensures { IfOk result (λ reader. ⟦<RecordReader as LineReader>⟧.has_read reader []) }
    {
        let list = RecordList::new(alloc)?;
        let pointers = Vec::new(alloc);
        Ok(RecordReader { list, pointers })
    }

    /// Lists one more record, by what stands on its line. A function of its own, whose arguments are small, so that the line, which is
    /// mostly that of no record, stays in registers.
    #[inline(never)]
    fn list_record(&mut self, xref: Option<&str>, tag: &str) -> Result<(), AllocError>
        ensures records { OnOk result ((lines : List LineParts) (line : LineParts) → line.xref ≡ option_copied xref.entry → line.tag ≡ tag.now
            → AreListed self.old.list lines → AreListed self.new.list (lines ++ line ∷ [])) }
        ensures pointers { OnOk result (self.new.pointers ≡ self.old.pointers) }
    {
        self.list.push(xref, type_of(tag))?;
        Ok(())
    }

    /// Lists one more pointer, by the tag on its line and the name.
    #[inline(always)]
    fn list_pointer(&mut self, tag: &str, name: &str) -> Result<(), AllocError>
        ensures records { OnOk result (self.new.list ≡ self.old.list) }
        ensures pointers { OnOk result ((all : List (Bytes × Bytes)) → AreListedPointers self.old.pointers.items all
            → AreListedPointers self.new.pointers.items (all ++ (tag.now, name.now) ∷ [])) }
    {
        self.pointers.push(list_pointer(tag, name))?;
        Ok(())
    }

    /// Lists the record that begins on a line, if one does.
    #[inline(always)]
    fn read_record(&mut self, line: &LineView<'_>) -> Result<(), AllocError>
        ensures records { OnOk result ((lines : List LineParts) → AreListed self.old.list (record_lines lines)
            → AreListed self.new.list (record_lines (lines ++ line.now ∷ []))) }
        ensures pointers { OnOk result (self.new.pointers ≡ self.old.pointers) }
    {
        if line.level() == 0 && is_record_tag(line.tag()) {
            self.list_record(line.xref(), line.tag())
        } else {
            Ok(())
        }
    }

    /// The same where one does.
    #[inline(always)]
    fn read_known_record(&mut self, line: &LineView<'_>) -> Result<(), AllocError>
        requires top { line.now.level ≡ 0 }
        requires no_header { is_header line.now ≡ false }
        requires no_trailer { is_trailer line.now ≡ false }
        ensures records { OnOk result ((lines : List LineParts) → AreListed self.old.list (record_lines lines)
            → AreListed self.new.list (record_lines (lines ++ line.now ∷ []))) }
        ensures pointers { OnOk result (self.new.pointers ≡ self.old.pointers) }
    {
        self.list_record(line.xref(), line.tag())
    }

    /// Lists the pointer that stands on a line, if one does.
    #[inline(always)]
    fn read_pointer(&mut self, line: &LineView<'_>) -> Result<(), AllocError>
        ensures records { OnOk result (self.new.list ≡ self.old.list) }
        ensures pointers { OnOk result ((lines : List LineParts) → AreListedPointers self.old.pointers.items (line_pointers lines)
            → AreListedPointers self.new.pointers.items (line_pointers (lines ++ line.now ∷ []))) }
    {
        let ValueView::Pointer(name) = line.value() else {
            return Ok(());
        };
        self.list_pointer(line.tag(), name)
    }
}

impl LineReader for RecordReader {
    ghost use Rattle.ged_link.specs.inner.RecordLines.{HasListed};

    ghost has_read = { HasListed };

    /// Takes one more line, and lists the record that begins on it, if one does, and its pointer, if it has one. Grows.
    #[inline(always)]
    fn line(&mut self, line: &LineView<'_>) -> Result<(), AllocError> {
        self.read_record(line)?;
        self.read_pointer(line)
    }

    /// Takes one more line, on which no record begins.
    #[inline(always)]
    fn substructure(&mut self, line: &LineView<'_>) -> Result<(), AllocError> {
        self.read_pointer(line)
    }

    /// Takes one more line, on which a record begins.
    #[inline(always)]
    fn record(&mut self, line: &LineView<'_>) -> Result<(), AllocError> {
        self.read_known_record(line)?;
        self.read_pointer(line)
    }

    /// Takes one more line, a CONT, on which no record begins either.
    #[inline(always)]
    fn continuation(&mut self, line: &LineView<'_>) -> Result<(), AllocError> {
        self.read_pointer(line)
    }
}
