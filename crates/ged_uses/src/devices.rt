// On ged_devices.
ghost use Rattle.std.specs.Prelude.{◌≡◌, OnOk};
ghost use Rattle.std.specs.Io.KnownBytes.{Appends};
ghost use Rattle.ged_devices.specs.Devices.{failed_after};

use ged_devices::{Failed, Output, Sink};
use std::io::Write;

/// Prints a word and flushes the device, which has failed if the answer is Failed, and else has taken the word.
pub fn send<W: Write>(output: &mut Output<W>, word: &str) -> Result<(), Failed>
    ensures failure { ⟦<Output<W> as Sink>⟧.failed output.new
        ≡ failed_after (⟦<Output<W> as Sink>⟧.failed output.old) result }
    ensures bytes { OnOk result
        (Appends (⟦<Output<W> as Sink>⟧.taken output.old) (⟦<Output<W> as Sink>⟧.taken output.new) word.now) }
{
    output.print(word)?;
    output.flush()
}
