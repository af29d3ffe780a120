//! Asks the libraries of this repository what rows of data say of them, and tells each row that is answered otherwise. It
//! is no part of `gedtool`.
#![tactic(auto)]

mod escapes;
mod rows;

use ged_examples_growths::{Marks, refuse_growths};
use rows::{Tally, ask_rows};
use std::io::Write;
use std::process::ExitCode;
use std::{env, fs, io};

fn main(rt: HostRuntime) -> io::Result<ExitCode> {
    let words: Vec<String> = env::args(&rt)?.collect(rt.alloc())?;
    match words.as_slice() {
        [_, word, call, names @ ..] if word.as_str() == "--growths" => {
            refuse_growths_of(&rt, call.as_str(), names)
        }
        [_, names @ ..] => ask_rows_of(&rt, names),
        [] => Ok(ExitCode::FAILURE),
    }
}

/// Asks the rows of some files, and tells each that is answered otherwise.
fn ask_rows_of(rt: &HostRuntime, names: &[String]) -> io::Result<ExitCode> {
    let mut tally = Tally::new(rt.alloc());
    for name in names {
        let text = fs::read_to_string(rt, name.as_str())?;
        ask_rows(rt.alloc(), name.as_str(), text.as_str(), &mut tally);
    }
    let has_failed = tally.has_failed();
    let report = tally.into_report().into_bytes()?;
    rt.stdout().write_all(&report)?;
    if has_failed {
        return Ok(ExitCode::FAILURE);
    }
    Ok(ExitCode::SUCCESS)
}

/// Makes a call on each of some files with each of its growths refused, and tells on standard error how it answers.
fn refuse_growths_of(rt: &HostRuntime, call: &str, names: &[String]) -> io::Result<ExitCode> {
    let mut files = Vec::new(rt.alloc());
    for name in names {
        files.push(fs::read(rt, name.as_str())?)?;
    }
    let mut marks = Marks::new(rt.stderr());
    refuse_growths(rt.alloc(), call, files.as_slice(), &mut marks);
    marks.finish()?;
    Ok(ExitCode::SUCCESS)
}
