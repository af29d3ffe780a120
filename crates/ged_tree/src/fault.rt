// What is wrong with the lines of a file, as the lines of a document.
use ged_line::LineFault;
use std::alloc::AllocError;

/// Why lines are not those of a document, in the order in which the faults are told: of several that stand at one
/// line the first is answered (FamilySearch GEDCOM 7.0, "Lines" and "Structures").
#[derive(Clone, Copy, Debug, PartialEq, Eq)]
pub enum TreeFault {
    /// The piece at this line is no line, for this reason.
    Line(LineFault),
    /// The level is more than one above that of the line before, or the first line's is not 0.
    LevelJump,
    /// A cross-reference identifier above level 0, or on HEAD or TRLR at level 0.
    XrefNotAllowed,
    /// A CONT at level 0, or with a pointer or void; a CONT neither straight after a line one level smaller that is
    /// no CONT and has no pointer or void, nor straight after a CONT of its own level; or any line straight after a
    /// CONT with a greater level.
    MisplacedCont,
    /// The first line is not HEAD, or there is no line. It is told at line 1.
    NoHeader,
    /// HEAD at level 0 past the first line.
    SecondHeader,
    /// TRLR at level 0 with a value, or a line after it with a level above 0.
    TrailerNotEmpty,
    /// A line at level 0 after TRLR.
    AfterTrailer,
    /// No line is TRLR at level 0. It is told at the line after the last.
    NoTrailer,
}

/// A fault and the line at which it stands, counted from 1.
#[derive(Clone, Copy, Debug, PartialEq, Eq)]
pub struct TreeAt {
    pub line: u64,
    pub fault: TreeFault,
}

/// Why no document was built of lines.
#[derive(Debug, Drop)]
pub enum BuildFault {
    /// The first fault of the lines.
    At(TreeAt),
    /// A growth was refused.
    Memory(AllocError),
}
