// The lines of files, by every way that spells them anew.
use crate::agreement::{Answered, Ways, add_runs, in_file};
use ged_line::{RespellFault, read_lines, respell_lines, write_lines};
use ged_tool::{Command, Fault, Settings};
use std::alloc::Global;

/// The lines of a file in their canonical spelling, as values that are read and written.
fn lines_by_values(alloc: Global, file: &[u8]) -> Answered {
    let read = read_lines(alloc, file).map_err(Fault::Memory)?;
    match read.stop {
        Some(at) => Err(in_file(at.line, at.fault.into())),
        None => write_lines(alloc, &read.lines).map_err(Fault::Memory),
    }
}

fn respelled(alloc: Global, file: &[u8]) -> Answered {
    match respell_lines(alloc, file) {
        Ok(text) => Ok(text),
        Err(RespellFault::At(at)) => Err(in_file(at.line, at.fault.into())),
        Err(RespellFault::Memory(error)) => Err(Fault::Memory(error)),
    }
}

/// The lines of a file in their canonical spelling, by each call that writes them.
pub(crate) fn lines_ways(alloc: Global, settings: Settings, file: &[u8]) -> Ways {
    let mut ways = Ways::of(respelled(alloc, file));
    ways.add("write_lines", lines_by_values(alloc, file));
    add_runs(alloc, settings, Command::Lines, file, &mut ways);
    ways
}
