//! Reads the file that its one word names into a flat table, and tells how many structures and further lines of payloads
//! are in it. The benchmark measures it; it is no part of `gedtool`.
#![tactic(auto)]

use ged_tree::{BuildFault, Forest, flatten};
use std::{env, fs, io};

fn main(rt: HostRuntime) -> io::Result<()> {
    let words: Vec<String> = env::args(&rt)?.collect(rt.alloc())?;
    let [_, path] = words.as_slice() else {
        eprintln!(rt; "usage: bench_flatten FILE")?;
        return Ok(());
    };
    let bytes = fs::read(&rt, path.as_str())?;
    match flatten(rt.alloc(), bytes.as_slice()) {
        Ok(flat) => {
            let further = further_lines(&flat);
            println!(rt; "{} structures, {} further lines", flat.size(), further)?;
        }
        Err(BuildFault::At(at)) => eprintln!(rt; "line {}: {:?}", at.line, at.fault)?,
        Err(BuildFault::Memory(error)) => return Err(error.into()),
    }
    Ok(())
}

/// How many lines the payloads have past their first.
fn further_lines<F: Forest>(forest: &F) -> usize {
    let mut total = 0usize;
    for place in 0..forest.size() {
        total = total.saturating_add(forest.further(place));
    }
    total
}
