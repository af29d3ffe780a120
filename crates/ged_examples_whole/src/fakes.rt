// Devices of the standard library that fail once, stop short or never end.
use std::alloc::Global;
use std::io;
use std::io::{Read, Write};

/// How a device fails.
#[derive(Clone, Copy)]
pub(crate) enum Failure {
    /// By the error of a call that was interrupted.
    Interrupted,
    /// By an error of no particular kind.
    Other,
    /// A writer takes none of some bytes.
    TakesNone,
}

fn error_of(failure: Failure) -> io::Error {
    match failure {
        Failure::Interrupted => io::Error::from(io::ErrorKind::Interrupted),
        _ => io::Error::from(io::ErrorKind::Other),
    }
}

/// A reader that gives some bytes, a few at a call, may then err once, and then gives the others.
#[derive(Drop)]
pub(crate) struct Giver<'a> {
    before: &'a [u8],
    behind: &'a [u8],
    most: usize,
    failure: Option<Failure>,
    failed: bool,
    /// How often it was read.
    pub(crate) calls: u64,
    /// How often it was read after it had failed.
    pub(crate) later: u64,
}

/// A reader of a file that fails behind so many bytes, or never.
pub(crate) fn make_giver(
    file: &[u8],
    length: usize,
    most: usize,
    failure: Option<Failure>,
) -> Giver<'_> {
    Giver {
        before: file.get(..length).unwrap_or(file),
        behind: file.get(length..).unwrap_or(b""),
        most,
        failure,
        failed: false,
        calls: 0,
        later: 0,
    }
}

impl Read for Giver<'_> {
    fn read(&mut self, buf: &mut [u8]) -> io::Result<usize> {
        self.calls = self.calls.saturating_add(1);
        if self.failed {
            self.later = self.later.saturating_add(1);
        }
        if self.before.is_empty() {
            if let Some(failure) = self.failure {
                self.failure = None;
                self.failed = true;
                return Err(error_of(failure));
            }
            self.before = self.behind;
            self.behind = b"";
        }
        let count = self.before.len().min(self.most).min(buf.len());
        let (first, later) = self.before.split_at(count);
        buf[..count].copy_from_slice(first);
        self.before = later;
        Ok(count)
    }
}

/// A writer that takes some bytes, a few at a call, may then fail once, and then takes all.
#[derive(Drop)]
pub(crate) struct Taker {
    room: usize,
    most: usize,
    failure: Option<Failure>,
    failed: bool,
    /// What it took.
    pub(crate) taken: Vec<u8>,
    /// How often it was written to.
    pub(crate) calls: u64,
    /// How often it was written to after it had failed.
    pub(crate) later: u64,
    /// How often it was flushed.
    pub(crate) flushes: u64,
}

/// A writer that fails behind so many bytes, or never.
pub(crate) fn make_taker(
    alloc: Global,
    room: usize,
    most: usize,
    failure: Option<Failure>,
) -> Taker {
    Taker {
        room,
        most,
        failure,
        failed: false,
        taken: Vec::new(alloc),
        calls: 0,
        later: 0,
        flushes: 0,
    }
}

impl Taker {
    /// How many of so many bytes are taken at this call, or the failure that comes now.
    fn count(&mut self, length: usize) -> Result<usize, Failure> {
        self.calls = self.calls.saturating_add(1);
        if self.failed {
            self.later = self.later.saturating_add(1);
        }
        let Some(failure) = self.failure else {
            return Ok(length.min(self.most));
        };
        if self.room == 0 {
            self.failure = None;
            self.failed = true;
            return Err(failure);
        }
        let count = length.min(self.most).min(self.room);
        self.room = self.room.saturating_sub(count);
        Ok(count)
    }
}

impl Write for Taker {
    fn write(&mut self, bytes: &[u8]) -> io::Result<usize> {
        match self.count(bytes.len()) {
            Ok(count) => {
                let count = count.min(bytes.len());
                self.taken.extend_from_slice(&bytes[..count])?;
                Ok(count)
            }
            Err(Failure::TakesNone) => Ok(0),
            Err(failure) => Err(error_of(failure)),
        }
    }

    fn flush(&mut self) -> io::Result<()> {
        self.flushes = self.flushes.saturating_add(1);
        Ok(())
    }
}

/// A writer that takes all, but has no space left once it is flushed.
#[derive(Drop)]
pub(crate) struct Full {
    /// How often it was flushed.
    pub(crate) flushes: u64,
}

impl Write for Full {
    fn write(&mut self, bytes: &[u8]) -> io::Result<usize> {
        Ok(bytes.len())
    }

    fn flush(&mut self) -> io::Result<()> {
        self.flushes = self.flushes.saturating_add(1);
        Err(io::Error::from(io::ErrorKind::StorageFull))
    }
}

/// A reader that gives one byte at each call, for ever.
#[derive(Drop)]
pub(crate) struct Endless {
    /// How often it was read.
    pub(crate) calls: u64,
}

impl Read for Endless {
    fn read(&mut self, buf: &mut [u8]) -> io::Result<usize> {
        self.calls = self.calls.saturating_add(1);
        match buf.first_mut() {
            Some(first) => {
                *first = b'0';
                Ok(1)
            }
            None => Ok(0),
        }
    }
}
