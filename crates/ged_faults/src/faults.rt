// What a run can answer, and the numbers by which a program tells it.
ghost use Rattle.std.specs.Prelude.{◌≡◌};
ghost use Rattle.ged_faults.specs.Faults.{file_fault_of_line, file_fault_of_tree, file_fault_of_tables, fault_of_respelling};
ghost use Rattle.ged_faults.specs.Faults.{file_fault_number, fault_number, status_of};

use ged_line::{LineFault, RespellFault};
use ged_schema::SchemaFault;
use ged_tree::TreeFault;
use std::alloc::AllocError;
use thiserror::Error;

/// A fault of a file, told with its line. Sections in brackets are those of FamilySearch GEDCOM 7.0. It is shown as its
/// name.
#[derive(Clone, Copy, PartialEq, Eq, Debug, Error)]
pub enum FileFault {
    /// The line's bytes aren't UTF-8 (section Characters).
    #[error("NotUtf8")]
    NotUtf8 = 1,
    /// The line has a banned character (Characters).
    #[error("BannedCharacter")]
    BannedCharacter,
    /// The line has no bytes (Lines).
    #[error("EmptyLine")]
    EmptyLine,
    /// No level with a space after it stands at the line's start (Lines).
    #[error("BadLevel")]
    BadLevel,
    /// The level is above 99, the most that is taken here.
    #[error("LevelTooLarge")]
    LevelTooLarge,
    /// After the level stands `@`, but no cross-reference identifier with a space after it (Lines).
    #[error("BadXref")]
    BadXref,
    /// What stands where the tag belongs isn't one (Lines).
    #[error("BadTag")]
    BadTag,
    /// The value begins with `@`, isn't a pointer, and its second character isn't `@` (Lines).
    #[error("BadValue")]
    BadValue,
    /// The level is more than one above that of the line before, or the first line's isn't 0 (Lines).
    #[error("LevelJump")]
    LevelJump,
    /// A cross-reference identifier above level 0, or on HEAD or TRLR at level 0 (Lines).
    #[error("XrefNotAllowed")]
    XrefNotAllowed,
    /// A CONT that continues no text or is a pointer, or something below a CONT (Lines).
    #[error("MisplacedCont")]
    MisplacedCont,
    /// The first line isn't the header, or there is no line; told at line 1 (The Header and Trailer).
    #[error("NoHeader")]
    NoHeader,
    /// A header past the first line (The Header and Trailer).
    #[error("SecondHeader")]
    SecondHeader,
    /// The trailer has a payload or a substructure (The Header and Trailer).
    #[error("TrailerNotEmpty")]
    TrailerNotEmpty,
    /// A record or a second trailer stands after the trailer (The Header and Trailer).
    #[error("AfterTrailer")]
    AfterTrailer,
    /// There is no trailer; told at the line after the last (The Header and Trailer).
    #[error("NoTrailer")]
    NoTrailer,
    /// An earlier record has the same cross-reference identifier (Lines).
    #[error("DuplicateXref")]
    DuplicateXref,
    /// A pointer names no record of the file (Lines).
    #[error("DanglingPointer")]
    DanglingPointer,
    /// The file doesn't tell that it is of version 7.0 (structure GEDC.VERS).
    #[error("WrongVersion")]
    WrongVersion,
    /// The payload isn't of its structure's data type (chapter Data types).
    #[error("BadPayload")]
    BadPayload,
    /// The pointer names a record of another type than its structure points to.
    #[error("WrongTarget")]
    WrongTarget,
    /// A substructure past the most that its superstructure may have (Structure Metasyntax).
    #[error("TooMany")]
    TooMany,
    /// A structure without a substructure that it must have (Structure Metasyntax).
    #[error("Missing")]
    Missing,
    /// Under the strict profile: a link between a person and a family in one direction only (structures FAMS, FAMC,
    /// HUSB, WIFE and CHIL).
    #[error("OneWayLink")]
    OneWayLink = 28,
    /// Under the strict profile: a structure with a standard tag without a row, in a context whose tags the
    /// structure tables list (Extensions).
    #[error("UnlistedTag")]
    UnlistedTag,
}

impl From<LineFault> for FileFault {
    ghost from_gives = { λ fault kind. kind ≡ file_fault_of_line fault };

    fn from(fault: LineFault) -> FileFault {
        match fault {
            LineFault::NotUtf8 => FileFault::NotUtf8,
            LineFault::BannedCharacter => FileFault::BannedCharacter,
            LineFault::EmptyLine => FileFault::EmptyLine,
            LineFault::BadLevel => FileFault::BadLevel,
            LineFault::LevelTooLarge => FileFault::LevelTooLarge,
            LineFault::BadXref => FileFault::BadXref,
            LineFault::BadTag => FileFault::BadTag,
            LineFault::BadValue => FileFault::BadValue,
        }
    }
}

impl From<TreeFault> for FileFault {
    ghost from_gives = { λ fault kind. kind ≡ file_fault_of_tree fault };

    fn from(fault: TreeFault) -> FileFault {
        match fault {
            TreeFault::Line(fault) => fault.into(),
            TreeFault::LevelJump => FileFault::LevelJump,
            TreeFault::XrefNotAllowed => FileFault::XrefNotAllowed,
            TreeFault::MisplacedCont => FileFault::MisplacedCont,
            TreeFault::NoHeader => FileFault::NoHeader,
            TreeFault::SecondHeader => FileFault::SecondHeader,
            TreeFault::TrailerNotEmpty => FileFault::TrailerNotEmpty,
            TreeFault::AfterTrailer => FileFault::AfterTrailer,
            TreeFault::NoTrailer => FileFault::NoTrailer,
        }
    }
}

impl From<SchemaFault> for FileFault {
    ghost from_gives = { λ fault kind. kind ≡ file_fault_of_tables fault };

    fn from(fault: SchemaFault) -> FileFault {
        match fault {
            SchemaFault::WrongVersion => FileFault::WrongVersion,
            SchemaFault::BadPayload => FileFault::BadPayload,
            SchemaFault::WrongTarget => FileFault::WrongTarget,
            SchemaFault::TooMany => FileFault::TooMany,
            SchemaFault::Missing => FileFault::Missing,
            SchemaFault::OneWayLink => FileFault::OneWayLink,
            SchemaFault::UnlistedTag => FileFault::UnlistedTag,
        }
    }
}

impl FileFault {
    /// The number by which the fault is told: 1 to 23 in the order of the names, then 28 and 29.
    fn number(self) -> u8
        ensures { result ≡ file_fault_number self }
    {
        self as u8
    }
}

/// Why a run gave no answer.
#[derive(Clone, Copy, PartialEq, Eq, Debug)]
pub enum Fault {
    /// The file is faulty at this line, counted from 1.
    InFile { line: u64, kind: FileFault },
    /// More bytes came than the limit.
    TooLong,
    /// The file could not be opened, or its reader answered an error of any kind.
    ReadFailed,
    /// The writer answered an error, or took none of some bytes; or the file that an answer was to replace cannot be replaced.
    WriteFailed,
    /// There was no memory for the file or its answer.
    Memory(AllocError),
}

impl Fault {
    /// The number by which a fault is told: 1 to 23, 28 and 29 for a fault of the file, 24 TooLong, 25 ReadFailed,
    /// 26 WriteFailed, 27 Memory. Takes no memory.
    pub fn number(&self) -> u8
        ensures { result ≡ fault_number self.now }
    {
        match self {
            Fault::InFile { line: _, kind } => kind.number(),
            Fault::TooLong => 24,
            Fault::ReadFailed => 25,
            Fault::WriteFailed => 26,
            Fault::Memory(_) => 27,
        }
    }
}

impl From<RespellFault> for Fault {
    ghost from_gives = { λ fault given. given ≡ fault_of_respelling fault };

    fn from(fault: RespellFault) -> Fault {
        match fault {
            RespellFault::At(at) => Fault::InFile {
                line: at.line,
                kind: at.fault.into(),
            },
            RespellFault::Memory(error) => Fault::Memory(error),
        }
    }
}

/// One of two files.
#[derive(Clone, Copy, PartialEq, Eq, Debug)]
pub enum Which {
    First,
    Second,
}

/// How a run ended.
#[derive(Clone, Copy, PartialEq, Eq, Debug)]
pub enum Outcome {
    /// The whole answer was written.
    Done,
    /// Two files were compared, and aren't the same.
    Different,
    /// There is no answer. Where two files were read, `which` is the one with the fault; it is none for a fault of the
    /// writer, and where one file was read.
    Failed { which: Option<Which>, fault: Fault },
}

impl Outcome {
    /// The exit status of a program that ran this: 0 where all was well, 1 where the file is faulty or two files
    /// differ, 3 where a file was too long, or reading, writing or memory failed. Takes no memory.
    pub fn status(&self) -> u8
        ensures { result ≡ status_of self.now }
    {
        match self {
            Outcome::Done => 0,
            Outcome::Different => 1,
            Outcome::Failed { which: _, fault } => match fault {
                Fault::InFile { line: _, kind: _ } => 1,
                _ => 3,
            },
        }
    }
}
