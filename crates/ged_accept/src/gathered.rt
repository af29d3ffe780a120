// A text that is written into memory.
ghost use Rattle.std.specs.Prelude.{◌≡◌, [], Some, false, IfOk};
ghost use Rattle.ged_devices.specs.declared.drafts.Fate.TheVariants.{Pending};

use ged_devices::{Failed, Sink};
use std::alloc::{AllocError, Global};

/// A writer that keeps all that it takes. It fails where it finds no memory.
#[derive(Drop)]
pub(crate) struct Gathered {
    pub(crate) text: Vec<u8>,
    failed: bool,
}

impl Gathered {
    /// A writer that has taken nothing, with room for so many bytes.
    pub(crate) fn with_room(alloc: Global, room: usize) -> Result<Gathered, AllocError>
        ensures text { IfOk result (λ g. g.text.items ≡ []) }
        ensures failed { IfOk result (λ g. g.failed ≡ false) }
    {
        Ok(Gathered {
            text: Vec::with_capacity(alloc, room)?,
            failed: false,
        })
    }
}

impl Sink for Gathered {
    ghost failed = { λ g. g.failed };

    ghost taken = { λ g. Some g.text.items };

    ghost fate = { λ _. Pending };

    fn write(&mut self, bytes: &[u8]) -> Result<usize, Failed> {
        match self.text.extend_from_slice(bytes) {
            Ok(()) => Ok(bytes.len()),
            Err(_) => {
                self.failed = true;
                Err(Failed)
            }
        }
    }

    fn failed(&self) -> bool {
        self.failed
    }
}
