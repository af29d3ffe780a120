// What calls are told as.
use std::alloc::{AllocError, Global};
use std::cmp::Ordering;
use std::io::Write;
use std::str;

/// The bytes that tell what a call answered. It remembers whether memory was wanting, for the call or for the bytes, and
/// tells it once, at its end: so whoever writes into it need not.
#[derive(Drop)]
pub struct Answer {
    /// For calls that append to bytes; `note` takes what they answer.
    pub bytes: Vec<u8>,
    lacks_memory: bool,
}

impl Answer {
    /// Nothing is said yet, and memory was not wanting. Takes no memory.
    pub fn new(alloc: Global) -> Answer {
        Answer {
            bytes: Vec::new(alloc),
            lacks_memory: false,
        }
    }

    /// The bytes so far.
    pub fn as_slice(&self) -> &[u8] {
        self.bytes.as_slice()
    }

    /// The bytes so far as a text, or the empty text where they are none.
    pub fn as_str(&self) -> &str {
        str::from_utf8(self.as_slice()).unwrap_or("")
    }

    /// The bytes so far, or `Memory` where memory was wanting.
    pub fn told(&self) -> &[u8] {
        if self.lacks_memory {
            return b"Memory";
        }
        self.as_slice()
    }

    /// Whether memory was wanting, for a call or for the bytes.
    pub fn lacks_memory(&self) -> bool {
        self.lacks_memory
    }

    /// The bytes, where memory was not wanting.
    pub fn into_bytes(self) -> Result<Vec<u8>, AllocError> {
        if self.lacks_memory {
            return Err(AllocError);
        }
        Ok(self.bytes)
    }

    /// Whether another answer tells something else, or memory was wanting for one of the two.
    pub fn differs(&self, other: &Answer) -> bool {
        self.lacks_memory || other.lacks_memory || self.bytes.as_slice() != other.bytes.as_slice()
    }

    /// Says what another answer says.
    pub fn append(&mut self, other: &Answer) {
        self.say_bytes(&other.bytes);
        self.lacks_memory = self.lacks_memory || other.lacks_memory;
    }

    /// Appends bytes. Grows, as all that say something do.
    pub fn say_bytes(&mut self, bytes: &[u8]) {
        let done = self.bytes.extend_from_slice(bytes);
        self.note(done);
    }

    /// Appends a text.
    pub fn say(&mut self, text: &str) {
        self.say_bytes(text.as_bytes());
    }

    /// Appends a number by its decimal digits.
    pub fn say_number(&mut self, number: u64) {
        if write!(self.bytes, "{number}").is_err() {
            self.lacks_memory = true;
        }
    }

    /// Appends a number, or `None`.
    pub fn say_optional(&mut self, number: Option<u64>) {
        match number {
            Some(number) => self.say_number(number),
            None => self.say("None"),
        }
    }

    /// Appends `true` or `false`.
    pub fn say_truth(&mut self, truth: bool) {
        self.say(if truth { "true" } else { "false" });
    }

    /// Appends `Less`, `Equal` or `Greater`.
    pub fn say_order(&mut self, order: Ordering) {
        self.say(match order {
            Ordering::Less => "Less",
            Ordering::Equal => "Equal",
            Ordering::Greater => "Greater",
        });
    }

    /// `F 5 at 6` is said of fault 5 at line 6.
    pub fn say_fault(&mut self, number: u64, line: u64) {
        self.say("F ");
        self.say_number(number);
        self.say(" at ");
        self.say_number(line);
    }

    /// Remembers that memory was wanting.
    pub fn lack_memory(&mut self) {
        self.lacks_memory = true;
    }

    /// Remembers whether memory was wanting for what was done.
    pub fn note(&mut self, done: Result<(), AllocError>) {
        if done.is_err() {
            self.lacks_memory = true;
        }
    }

    /// What a call gave, or `None` where it found no memory, which is remembered.
    pub fn given<T: Drop>(&mut self, given: Result<T, AllocError>) -> Option<T> {
        if given.is_err() {
            self.lacks_memory = true;
        }
        given.ok()
    }
}
