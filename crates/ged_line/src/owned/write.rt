// Writing lines that own their parts.
ghost use Rattle.std.specs.Prelude.{◌≡◌, true, ◌++◌, ◌∷◌, [], OnOk, OnErr, IfOk};
ghost use Rattle.ged_line.specs.Bytes.{line_feed};
ghost use Rattle.ged_line.specs.Lines.{is_line};
ghost use Rattle.ged_line.specs.Files.{FileText};
ghost use Rattle.ged_line.specs.Spelling.{spelling, file_of};

use crate::line::write::write_view;
use crate::owned::line::Line;
use std::alloc::{AllocError, Global};

/// Appends the canonical spelling of a line and LF. Grows; after an `Err` the vector is unchanged
/// (FamilySearch GEDCOM 7.0, "Lines").
pub fn write_line(line: &Line, out: &mut Vec<u8>) -> Result<(), AllocError>
    ensures ok { OnOk result (out.new.items ≡ out.old.items ++ (spelling line.now ++ line_feed ∷ [])) }
    ensures err { OnErr result (out.new.items ≡ out.old.items) }
    ensures line { is_line line.now ≡ true }
{
    write_view(&line.as_view(), out)
}

/// The byte order mark, and each line as [`write_line`] writes it. Grows.
pub fn write_lines(alloc: Global, lines: &[Line]) -> Result<Vec<u8>, AllocError>
    ensures bytes { IfOk result (λ out. out.items ≡ file_of lines.now) }
    ensures text { IfOk result (λ out. FileText lines.now out.items) }
{
    let mut out = Vec::from_slice(alloc, &[0xEF, 0xBB, 0xBF])?;
    for line in lines {
        write_line(line, &mut out)?;
    }
    Ok(out)
}
