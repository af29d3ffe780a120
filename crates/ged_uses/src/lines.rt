// On ged_line.
ghost use Rattle.std.specs.Prelude.{◌≡◌, List, [], ◌∷◌, ◌++◌, IfOk, OnErr, MatchOption};
ghost use Rattle.ged_line.specs.Lines.{LineParts};
ghost use Rattle.ged_line.specs.Spelling.{LineText, spelling};
ghost use Rattle.ged_line.specs.Faults.{IsFaultOf};
ghost use Rattle.ged_line.specs.Bytes.{Bytes, line_feed};
ghost use Rattle.ged_line.specs.Pieces.{ArePiecesOf};
ghost use Rattle.ged_uses.specs.TaggedLines.{CountsTag};

use ged_line::{LineFault, view_line, view_lines, write_view};
use std::alloc::AllocError;

/// Appends the canonical spelling of a line, or tells what is wrong with it.
pub fn respell(piece: &[u8], out: &mut Vec<u8>) -> Result<Option<LineFault>, AllocError>
    ensures told { IfOk result (λ told. MatchOption told
        ((line : LineParts) × LineText line piece.now × (out.new.items ≡ out.old.items ++ (spelling line ++ line_feed ∷ [])))
        (λ fault. IsFaultOf fault piece.now × (out.new.items ≡ out.old.items))) }
    ensures kept { OnErr result (out.new.items ≡ out.old.items) }
{
    match view_line(piece) {
        Ok(line) => {
            write_view(&line, out)?;
            Ok(None)
        }
        Err(fault) => Ok(Some(fault)),
    }
}

/// How many lines of a file have a tag.
pub fn count_lines(bytes: &[u8], tag: &str) -> usize
    ensures { (pieces : List Bytes) × ArePiecesOf bytes.now pieces × CountsTag tag.now pieces result }
{
    let mut count = 0usize;
    for line in view_lines(bytes) {
        if let Ok(spelled) = line {
            if spelled.line.tag() == tag {
                count += 1;
            }
        }
    }
    count
}
