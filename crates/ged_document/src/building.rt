// The document of lines.
ghost use Rattle.std.specs.Prelude.{◌≡◌, None, IfOk, IfErr};
ghost use Rattle.ged_line.specs.Files.{FileText};
ghost use Rattle.ged_tree.specs.Documents.{HasLines};
ghost use Rattle.ged_tree.specs.TreeFaults.{FirstTreeFault};
ghost use Rattle.ged_tree.specs.declared.fault.TreeFault.TheVariants.{Line};
ghost use Rattle.ged_tree.specs.Building.{IsBuildFault};
ghost use Rattle.ged_document.specs.Building.{TellsBuild};

use crate::copying::document_of;
use crate::document::Document;
use ged_line::{LineAt, Lines, write_lines};
use ged_tree::{BuildFault, TreeAt, TreeFault, flatten};
use std::alloc::Global;

fn fault_of_stop(stop: LineAt) -> TreeAt
    ensures line { result.line ≡ stop.line }
    ensures fault { result.fault ≡ Line stop.fault }
{
    TreeAt {
        line: stop.line,
        fault: TreeFault::Line(stop.fault),
    }
}

/// The first fault of lines and of where reading them stopped, by the first of the lines alone.
fn first_fault(at: TreeAt, lines: &Lines) -> TreeAt
    requires { FirstTreeFault lines.now.lines.items at.line at.fault }
    ensures { IsBuildFault lines.now.lines.items lines.now.stop result.line result.fault }
{
    match lines.stop {
        Some(stop) if at.line > lines.lines.len() as u64 => fault_of_stop(stop),
        _ => at,
    }
}

/// The document that has these lines, where reading them did not stop.
///
/// Answers the first fault that stands at one of the lines; else the fault at which reading stopped; else what stands
/// past the last line. Grows (FamilySearch GEDCOM 7.0, "Lines" and "Structures").
pub fn build(alloc: Global, lines: &Lines) -> Result<Document, BuildFault>
    ensures document { IfOk result (λ document. HasLines document lines.now.lines.items) }
    ensures whole { IfOk result (λ _. lines.now.stop ≡ None) }
    ensures fault { IfErr result (λ fault. TellsBuild fault lines.now.lines.items lines.now.stop) }
{
    match write_lines(alloc, lines.lines.as_slice()) {
        Ok(file) => document_of_file(alloc, file.as_slice(), lines),
        Err(error) => Err(BuildFault::Memory(error)),
    }
}

/// The same, with the file that the lines are written as.
fn document_of_file(alloc: Global, file: &[u8], lines: &Lines) -> Result<Document, BuildFault>
    requires { FileText lines.now.lines.items file.now }
    ensures document { IfOk result (λ document. HasLines document lines.now.lines.items) }
    ensures whole { IfOk result (λ _. lines.now.stop ≡ None) }
    ensures fault { IfErr result (λ fault. TellsBuild fault lines.now.lines.items lines.now.stop) }
{
    let flat = match flatten(alloc, file) {
        Ok(flat) => flat,
        Err(BuildFault::At(at)) => return Err(BuildFault::At(first_fault(at, lines))),
        Err(BuildFault::Memory(error)) => return Err(BuildFault::Memory(error)),
    };
    if let Some(stop) = lines.stop {
        return Err(BuildFault::At(fault_of_stop(stop)));
    }
    match document_of(alloc, &flat) {
        Ok(document) => Ok(document),
        Err(error) => Err(BuildFault::Memory(error)),
    }
}
