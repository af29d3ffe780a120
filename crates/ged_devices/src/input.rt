// A reader of the standard library as the reader of a run.
ghost use Rattle.std.specs.Prelude.{◌≡◌, false};

use crate::devices::{Failed, Source};
use std::io::Read;

/// A reader of the standard library as a Source. It answers what the reader answers, and Failed for an error of any
/// kind, an interrupted call among them.
#[derive(Drop)]
pub struct Input<R> {
    device: R,
    expected: u64,
    reads: u64,
    failed: bool,
}

impl<R: Read> Input<R> {
    /// An input that was not read from yet. It gives what the device gives. Takes no memory.
    pub fn new(device: R) -> Input<R>
        ensures unread { ⟦<Input<R> as Source>⟧.reads result ≡ 0 }
        ensures no_failure { ⟦<Input<R> as Source>⟧.failed result ≡ false }
        ensures to_come { ⟦<Input<R> as Source>⟧.to_come result ≡ R.remaining device }
    {
        Input::expecting(device, 0)
    }

    /// An input that was not read from yet, and is thought to give so many bytes. It gives what the device gives, however much that is.
    /// Takes no memory.
    pub fn expecting(device: R, expected: u64) -> Input<R>
        ensures unread { ⟦<Input<R> as Source>⟧.reads result ≡ 0 }
        ensures no_failure { ⟦<Input<R> as Source>⟧.failed result ≡ false }
        ensures to_come { ⟦<Input<R> as Source>⟧.to_come result ≡ R.remaining device }
    {
        Input {
            device,
            expected,
            reads: 0,
            failed: false,
        }
    }
}

impl<R: Read> Source for Input<R> {
    ghost reads = { λ s. s.reads };

    ghost failed = { λ s. s.failed };

    ghost to_come = { λ s. R.remaining s.device };

    fn read(&mut self, buf: &mut [u8]) -> Result<usize, Failed> {
        self.reads += 1;
        match self.device.read(buf) {
            Ok(count) => Ok(count),
            Err(_) => {
                self.failed = true;
                Err(Failed)
            }
        }
    }

    fn expected(&self) -> u64 {
        self.expected
    }

    fn reads(&self) -> u64 {
        self.reads
    }

    fn failed(&self) -> bool {
        self.failed
    }
}
