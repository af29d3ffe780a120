// What reads lines along while a table is made of them.
ghost use Rattle.std.specs.Prelude.{◌≡◌, ◌<◌, ◌++◌, ◌∷◌, [], List, OnOk, true, false};
ghost use Rattle.ged_line.specs.Lines.{LineParts};
ghost use Rattle.ged_tree.specs.TreeFaults.{is_cont, is_header, is_trailer};

use ged_line::LineView;
use std::alloc::AllocError;

/// Reads the lines of a file one after the other, while they are put into a table.
pub trait LineReader {
    /// What it has read: it stands for these lines.
    ghost has_read: { Self → List LineParts → Type 0 };

    /// Takes one more line. The error is that a growth was refused, for what the reader keeps of the line.
    fn line(&mut self, line: &LineView<'_>) -> Result<(), AllocError>
        ensures { OnOk result ((lines : List LineParts) → has_read self.old lines → has_read self.new (lines ++ line.now ∷ [])) };

    /// The same of a line that begins a substructure: its level is above 0, and it is no CONT. Many lines are handed over by this call, but
    /// not all that begin one. A reader that asks less of them says so by a body of its own.
    fn substructure(&mut self, line: &LineView<'_>) -> Result<(), AllocError>
        requires below { 0 < line.now.level }
        requires no_cont { is_cont line.now ≡ false }
        ensures { OnOk result ((lines : List LineParts) → has_read self.old lines → has_read self.new (lines ++ line.now ∷ [])) }
    {
        self.line(line)
    }

    /// The same of a line that begins a record. Each such line is handed over by this call.
    fn record(&mut self, line: &LineView<'_>) -> Result<(), AllocError>
        requires top { line.now.level ≡ 0 }
        requires no_cont { is_cont line.now ≡ false }
        requires no_header { is_header line.now ≡ false }
        requires no_trailer { is_trailer line.now ≡ false }
        ensures { OnOk result ((lines : List LineParts) → has_read self.old lines → has_read self.new (lines ++ line.now ∷ [])) }
    {
        self.line(line)
    }

    /// The same of a line that goes on with a payload: its level is above 0, and it is a CONT. Each such line is handed over by this call.
    fn continuation(&mut self, line: &LineView<'_>) -> Result<(), AllocError>
        requires below { 0 < line.now.level }
        requires cont { is_cont line.now ≡ true }
        ensures { OnOk result ((lines : List LineParts) → has_read self.old lines → has_read self.new (lines ++ line.now ∷ [])) }
    {
        self.line(line)
    }
}
