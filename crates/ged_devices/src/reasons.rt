// Why a device failed, as the system says it.
ghost use Rattle.std.specs.Prelude.{◌≡◌};

use std::cell::Cell;
use std::io;
use std::io::{ErrorKind, Read, Write};

/// The numbers that Linux gives to errors for which the standard library has no kind.
const INPUT_OUTPUT: i32 = 5;

const TOO_MANY_OPEN: i32 = 24;

/// The reason of the last failure of a device. It is kept for explanations alone: no contract speaks of it.
#[derive(Drop)]
pub struct Reason {
    words: Cell<&'static str>,
}

impl Reason {
    /// No device has failed. Takes no memory.
    pub const fn new() -> Reason {
        Reason {
            words: Cell::new(""),
        }
    }

    /// Keeps the reason of an error. Takes no memory.
    pub fn note(&self, error: &io::Error) {
        let words = match error.raw_os_error() {
            Some(INPUT_OUTPUT) => "input/output error: the disk or the device may be damaged",
            Some(TOO_MANY_OPEN) => "too many open files",
            _ => words_of(error.kind()),
        };
        self.words.set(words);
    }

    /// What was answered, once the reason of its error is kept. Takes no memory.
    pub(crate) fn noting<T: Drop>(&self, answered: io::Result<T>) -> io::Result<T>
        ensures { result ≡ answered }
    {
        if let Err(error) = &answered {
            self.note(error);
        }
        answered
    }

    /// Keeps a reason that is none of the system's, in words. Takes no memory.
    pub fn note_words(&self, words: &'static str) {
        self.words.set(words);
    }

    /// The reason in words; empty where no device has failed, or the system gave a reason that has no words here.
    /// Takes no memory.
    pub fn words(&self) -> &'static str {
        self.words.get()
    }
}

fn words_of(kind: ErrorKind) -> &'static str {
    match kind {
        ErrorKind::NotFound => "no such file or folder",
        ErrorKind::PermissionDenied => "permission denied",
        ErrorKind::IsADirectory => "is a folder",
        ErrorKind::NotADirectory => "not a folder",
        ErrorKind::StorageFull => "no space left",
        ErrorKind::QuotaExceeded => "no space left for this user",
        ErrorKind::FileTooLarge => "file too large",
        ErrorKind::ReadOnlyFilesystem => "read-only file system",
        ErrorKind::FilesystemLoop => "too many symbolic links",
        // the standard library tells a path that is not UTF-8 so too
        ErrorKind::InvalidFilename => "file name too long or not UTF-8",
        ErrorKind::BrokenPipe => "broken pipe",
        ErrorKind::WouldBlock => "not ready now",
        ErrorKind::TimedOut => "no answer in time",
        ErrorKind::ResourceBusy => "in use",
        ErrorKind::AlreadyExists =>
            "all names for a new file are taken: remove .gedtool-0.new to .gedtool-99.new",
        _ => "",
    }
}

/// A device that notes why it failed. What it reads and writes are the device's own bytes.
#[derive(Drop)]
pub struct Noted<'a, D> {
    device: D,
    reason: &'a Reason,
}

impl<'a, D> Noted<'a, D> {
    /// The device, whose failures are noted as this reason. Takes no memory.
    pub fn new(device: D, reason: &'a Reason) -> Noted<'a, D>
        ensures { result.device ≡ device }
    {
        Noted { device, reason }
    }
}

impl<R: Read> Read for Noted<'_, R> {
    ghost remaining = { λ s. R.remaining s.device };

    fn read(&mut self, buf: &mut [u8]) -> io::Result<usize> {
        self.reason.noting(self.device.read(buf))
    }
}

impl<W: Write> Write for Noted<'_, W> {
    ghost contents = { λ s. W.contents s.device };

    fn write(&mut self, buf: &[u8]) -> io::Result<usize> {
        self.reason.noting(self.device.write(buf))
    }

    fn flush(&mut self) -> io::Result<()> {
        self.reason.noting(self.device.flush())
    }
}
