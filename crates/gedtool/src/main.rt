//! The program `gedtool`: gives its streams, its files and the words of its command line to `perform`, and ends with the status that this
//! gives.
#![tactic(auto)]

use ged_cmd::{Disk, Streams, held_input, perform, words_of};
use ged_devices::{Input, Noted, Output, Reason};
use std::process::ExitCode;

fn main(rt: HostRuntime) -> ExitCode {
    // before any file is opened, and up to the end
    let held = held_input(&rt);
    let reason = Reason::new();
    // why what is held can't be read says nothing of standard input
    let untold = Reason::new();
    let of_input = if held.is_some() {
        reason.note_words("standard input is closed");
        &untold
    } else {
        &reason
    };
    let mut streams = Streams {
        input: Input::new(Noted::new(rt.stdin(), of_input)),
        output: Output::new(Noted::new(rt.stdout(), &reason)),
        errors: Output::new(rt.stderr()),
    };
    let mut disk = Disk::new(&rt, &reason);
    let status = perform(rt.alloc(), &mut disk, words_of(&rt), &mut streams);
    ExitCode::from(status)
}
