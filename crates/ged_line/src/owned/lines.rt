// Reading the lines of a file.
ghost use Rattle.std.specs.Prelude.{◌≡◌, List, IfOk, None};
ghost use Rattle.ged_line.specs.Lines.{LineParts};
ghost use Rattle.ged_line.specs.Files.{FileText};
ghost use Rattle.ged_line.specs.Reading.{TellsLines};

use crate::fault::{LineAt, ParseFault};
use crate::file::pieces::split_pieces;
use crate::owned::line::{Line, parse_line};
use std::alloc::{AllocError, Global};

/// The lines of a file before its first faulty line, and that line's number and fault; or all its lines, and no stop.
#[derive(Debug, Drop)]
pub struct Lines {
    pub lines: Vec<Line>,
    pub stop: Option<LineAt>,
}

/// The lines of a file, up to its first fault. A byte order mark at the start is skipped. Grows
/// (FamilySearch GEDCOM 7.0, "Lines").
pub fn read_lines(alloc: Global, bytes: &[u8]) -> Result<Lines, AllocError>
    ensures lines { IfOk result (TellsLines bytes.now) }

    // A list of lines that the bytes spell is what is read.
    ensures only { (lines : List LineParts) → FileText lines bytes.now
        → IfOk result (λ read. (read.lines.items ≡ lines) × (read.stop ≡ None)) }
{
    read_pieces(alloc, bytes)
}

fn read_pieces(alloc: Global, bytes: &[u8]) -> Result<Lines, AllocError>
    ensures { IfOk result (TellsLines bytes.now) }
{
    let mut lines = Vec::new(alloc);
    for piece in split_pieces(bytes) {
        match parse_line(alloc, piece) {
            Ok(line) => lines.push(line)?,
            Err(ParseFault::Bad(fault)) => {
                let line = lines.len() as u64 + 1;
                let stop = Some(LineAt { line, fault });
                return Ok(Lines { lines, stop });
            }
            Err(ParseFault::Memory(error)) => return Err(error),
        }
    }
    Ok(Lines { lines, stop: None })
}
