// A writer of the standard library as the writer of a run.
ghost use Rattle.std.specs.Prelude.{◌≡◌, false, IfSome, OnOk};
ghost use Rattle.std.specs.Io.KnownBytes.{Appends, Keeps};
ghost use Rattle.ged_devices.specs.Devices.{failed_after};
ghost use Rattle.ged_devices.specs.declared.drafts.Fate.TheVariants.{Pending};

use crate::devices::{Failed, Sink};
use std::fmt::Display;
use std::io::Write;

/// A writer of the standard library as a Sink. It answers what the writer answers, and Failed for an error of any kind,
/// an interrupted call among them, and where the writer takes none of some bytes. It flushes when it is asked to.
#[derive(Drop)]
pub struct Output<W> {
    device: W,
    failed: bool,
}

impl<W: Write> Output<W> {
    /// An output that was not written to yet. It hands on to the device, and takes no memory.
    pub fn new(device: W) -> Output<W>
        ensures no_failure { ⟦<Output<W> as Sink>⟧.failed result ≡ false }
        ensures taken { ⟦<Output<W> as Sink>⟧.taken result ≡ W.contents device }
    {
        Output {
            device,
            failed: false,
        }
    }

    /// Flushes the device, or answers Failed where the device answers an error. Takes no memory.
    pub fn flush(&mut self) -> Result<(), Failed>
        ensures failure { ⟦<Output<W> as Sink>⟧.failed self.new
            ≡ failed_after (⟦<Output<W> as Sink>⟧.failed self.old) result }
        ensures bytes { Keeps (⟦<Output<W> as Sink>⟧.taken self.old) (⟦<Output<W> as Sink>⟧.taken self.new) }
    {
        match self.device.flush() {
            Ok(()) => Ok(()),
            Err(_) => {
                self.failed = true;
                Err(Failed)
            }
        }
    }

    /// Writes a value as it is displayed, or answers Failed where the device answers an error: then a part of it may be written. Takes
    /// no memory beyond what showing the value takes.
    pub fn print<D: Display + Drop>(&mut self, value: D) -> Result<(), Failed>
        ensures failure { ⟦<Output<W> as Sink>⟧.failed self.new
            ≡ failed_after (⟦<Output<W> as Sink>⟧.failed self.old) result }
        ensures bytes { OnOk result (IfSome (D.output value)
            (Appends (⟦<Output<W> as Sink>⟧.taken self.old) (⟦<Output<W> as Sink>⟧.taken self.new))) }
    {
        match self.device.write_fmt(value) {
            Ok(()) => Ok(()),
            Err(_) => {
                self.failed = true;
                Err(Failed)
            }
        }
    }
}

impl<W: Write> Sink for Output<W> {
    ghost failed = { λ s. s.failed };

    ghost taken = { λ s. W.contents s.device };

    ghost fate = { λ _. Pending };

    fn write(&mut self, bytes: &[u8]) -> Result<usize, Failed> {
        match self.device.write(bytes) {
            Ok(count) if count > 0 || bytes.is_empty() => Ok(count),
            _ => {
                self.failed = true;
                Err(Failed)
            }
        }
    }

    fn failed(&self) -> bool {
        self.failed
    }
}
