// What a run tells, with what it read.
ghost use Rattle.std.specs.Prelude.{◌≡◌, None, []};

use ged_faults::{Fault, Outcome};
use std::alloc::Global;

/// How a run ended, and the bytes of a file that it read, for a caller that has more to say of a fault than its line.
#[derive(Drop)]
pub struct Told {
    /// How the run ended.
    pub outcome: Outcome,
    /// The bytes of the file of which the outcome tells, as they came; none where no file came whole, nor where two files were
    /// compared and neither has a fault.
    pub bytes: Vec<u8>,
}

/// An outcome for which no bytes are kept. Takes no memory.
pub(crate) fn told_without(alloc: Global, outcome: Outcome) -> Told
    ensures outcome { result.outcome ≡ outcome }
    ensures bytes { result.bytes.items ≡ [] }
{
    Told {
        outcome,
        bytes: Vec::new(alloc),
    }
}

/// A fault of a file whose bytes are kept. Takes no memory.
pub(crate) fn told_with(fault: Fault, bytes: Vec<u8>) -> Told
    ensures outcome { result.outcome ≡ Outcome.Failed None fault }
    ensures bytes { result.bytes.items ≡ bytes.items }
{
    Told {
        outcome: Outcome::Failed { which: None, fault },
        bytes,
    }
}
