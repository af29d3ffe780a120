// The reader and the writer of a run, which tell how they were used.
ghost use Rattle.std.specs.Prelude.{◌≡◌, ◌+◌, ◌-◌, ◌^◌, ◌<◌, ℕ, Bool, List, Option, length, IfOk};
ghost use Rattle.std.specs.Io.{ReadsAtMost, WritesAtMost};
ghost use Rattle.std.specs.Io.KnownBytes.{ReadConsumes, WriteAppends};
ghost use Rattle.ged_devices.specs.Devices.{failed_after};
ghost use Rattle.ged_devices.specs.declared.drafts.Fate.{Fate};

/// A device answered an error, or took none of some bytes.
#[derive(Clone, Copy, PartialEq, Eq, Debug)]
pub struct Failed;

/// A reader that counts its calls and remembers whether one failed.
pub trait Source {
    // how often `read` was called
    ghost reads: { Self → ℕ };

    // whether a call has answered Failed
    ghost failed: { Self → Bool };

    // the bytes to come, where the reader tells them
    ghost to_come: { Self → Option (List ℕ) };

    /// Puts the next bytes at the front of `buf` and answers how many, or Failed. The answer 0 where `buf` has room is
    /// the reader's end.
    fn read(&mut self, buf: &mut [u8]) -> Result<usize, Failed>
        requires { reads self.old < 2 ^ 64 - 1 }
        ensures bound { ReadsAtMost result buf.new }
        ensures counted { reads self.new ≡ reads self.old + 1 }
        ensures failure { failed self.new ≡ failed_after (failed self.old) result }
        ensures bytes { ReadConsumes (to_come self.old) (to_come self.new) result buf.new };

    /// How many bytes are thought to come, as the size of a file says; 0 where nothing says it. A run makes so much room before the first
    /// read, but none where it is more than the limit; and more where more comes.
    fn expected(&self) -> u64 {
        0
    }

    /// How often `read` was called.
    fn reads(&self) -> u64
        ensures { result ≡ reads self.now };

    /// Whether a call of `read` has answered Failed.
    fn failed(&self) -> bool
        ensures { result ≡ failed self.now };
}

/// A writer that remembers whether a call failed.
pub trait Sink {
    // whether a call has answered Failed
    ghost failed: { Self → Bool };

    // the bytes taken, where the writer tells them
    ghost taken: { Self → Option (List ℕ) };

    // what has become of what is written, where it is a new file; no write changes that
    ghost fate: { Self → Fate };

    /// Takes some of the first bytes, at least one of some, and answers how many; or takes none and answers Failed.
    fn write(&mut self, bytes: &[u8]) -> Result<usize, Failed>
        ensures bound { WritesAtMost result bytes.now }
        ensures some { IfOk result (λ count. 0 < length bytes.now → 0 < count) }
        ensures failure { failed self.new ≡ failed_after (failed self.old) result }
        ensures bytes { WriteAppends (taken self.old) (taken self.new) result bytes.now }
        ensures fate { fate self.new ≡ fate self.old };

    /// Whether a call of `write` has answered Failed.
    fn failed(&self) -> bool
        ensures { result ≡ failed self.now };
}
