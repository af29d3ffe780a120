// The digest of a file, as the line that tells it.
use crate::agreement::{Answered, LIMIT, Ways, answered, are_plain};
use ged_examples_answers::Answer;
use ged_tool::{Fault, Input, Outcome, Output, Settings, digest, digest_as, run_digest};
use std::alloc::Global;
use std::io::Write;

/// The line of a file's digest and the name `f`, by each call that tells it.
pub(crate) fn digest_ways(alloc: Global, settings: Settings, file: &[u8]) -> Ways {
    let mut ways = Ways::of(line_written(alloc, settings, file));
    let told = line_of(alloc, digest_as(alloc, settings, file));
    ways.add("digest_as", told);
    if are_plain(settings) {
        ways.add("digest", line_of(alloc, digest(alloc, file)));
    }
    ways
}

fn line_written(alloc: Global, settings: Settings, file: &[u8]) -> Answered {
    let mut written = Vec::new(alloc);
    let mut reader = Input::new(file);
    let mut writer = Output::new(&mut written);
    let told = run_digest(alloc, settings, LIMIT, "f", &mut reader, &mut writer);
    match told.outcome {
        Outcome::Failed { which: _, fault } => Err(fault),
        _ => Ok(written),
    }
}

fn line_of(alloc: Global, digest: Result<[u8; 32], Fault>) -> Answered {
    let mut told = Answer::new(alloc);
    match digest {
        Ok(bytes) => {
            for byte in bytes {
                say_digits(byte, &mut told);
            }
        }
        Err(fault) => return Err(fault),
    }
    told.say("  f\n");
    answered(told)
}

fn say_digits(byte: u8, told: &mut Answer) {
    if write!(told.bytes, "{byte:02x}").is_err() {
        told.lack_memory();
    }
}
