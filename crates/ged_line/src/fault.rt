// What is wrong with a piece of a file.
ghost use Rattle.std.specs.Prelude.{◌≡◌};
ghost use Rattle.ged_line.specs.declared.fault.RespellFault.TheVariants.{Memory};

use std::alloc::AllocError;

/// Why a piece of a file is no line, in the order in which the faults are told: of several that stand at one piece
/// the first is answered (FamilySearch GEDCOM 7.0, "Lines").
#[derive(Clone, Copy, Debug, PartialEq, Eq)]
pub enum LineFault {
    /// The bytes are not UTF-8.
    NotUtf8,
    /// One of these characters stands in the line: U+0000 to U+001F but for tab, U+007F, U+FFFE, U+FFFF.
    BannedCharacter,
    /// The line has no bytes.
    EmptyLine,
    /// No level with a space after it stands at the start: no digits, a leading zero, or no space.
    BadLevel,
    /// The level is above 99.
    LevelTooLarge,
    /// `@` stands after the level's space, but no cross-reference identifier with a space after it.
    BadXref,
    /// What then stands up to a space or the line's end is no tag.
    BadTag,
    /// The value begins with `@`, is no pointer, and its second character is not `@`.
    BadValue,
}

/// A fault and the line at which it stands, counted from 1.
#[derive(Clone, Copy, Debug, PartialEq, Eq)]
pub struct LineAt {
    pub line: u64,
    pub fault: LineFault,
}

/// Why `parse_line` gave no line.
#[derive(Debug, Drop)]
pub enum ParseFault {
    /// The piece is no line. No memory was taken.
    Bad(LineFault),
    /// The piece is a line, and a growth was refused.
    Memory(AllocError),
}

/// Why [`crate::respell_lines`] gave no text, or [`crate::respell_parts`] no parts.
#[derive(Debug, Drop)]
pub enum RespellFault {
    /// The first piece that is no line.
    At(LineAt),
    /// A growth was refused.
    Memory(AllocError),
}

impl From<AllocError> for RespellFault {
    ghost from_gives = { λ error fault. fault ≡ Memory error };

    fn from(error: AllocError) -> RespellFault {
        RespellFault::Memory(error)
    }
}
