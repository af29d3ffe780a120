// What is told, as a text that grows.
ghost use Rattle.std.specs.Prelude.{◌≡◌, false, string_bytes, IfOk};
ghost use Rattle.ged_explain.specs.Showing.{IsSeen};
ghost use Rattle.ged_explain.specs.inner.Telling.{TellsSeen};

use crate::characters::is_seen;
use std::alloc::{AllocError, Global};
use std::fmt::Write;
use std::str;

/// The text so far. It remembers whether memory was wanting, and tells it once, at its end: so whoever writes into it need not.
#[derive(Drop)]
pub(crate) struct Explanation {
    text: String,
    lacks_memory: bool,
}

impl Explanation {
    pub(crate) fn new(alloc: Global) -> Explanation
        ensures { TellsSeen result }
    {
        Explanation {
            text: String::new(alloc),
            lacks_memory: false,
        }
    }

    /// The text, where memory was not wanting.
    pub(crate) fn into_text(self) -> Result<String, AllocError>
        ensures { IfOk result (λ text. (self.lacks_memory ≡ false) × (text ≡ self.text)) }
    {
        if self.lacks_memory {
            return Err(AllocError);
        }
        Ok(self.text)
    }

    pub(crate) fn say(&mut self, text: &str)
        ensures { TellsSeen self.old → IsSeen text.now → TellsSeen self.new }
    {
        self.lacks_memory |= self.text.push_str(text).is_err();
    }

    pub(crate) fn say_number(&mut self, number: u64) {
        self.lacks_memory |= write!(self.text, "{number}").is_err();
    }

    pub(crate) fn say_byte(&mut self, byte: u8)
        ensures { TellsSeen self.old → TellsSeen self.new }
    {
        self.lacks_memory |= write!(self.text, "\\x{byte:02X}").is_err();
    }

    pub(crate) fn say_character_number(&mut self, number: u32)
        ensures { TellsSeen self.old → TellsSeen self.new }
    {
        self.lacks_memory |= write!(self.text, "U+{number:04X}").is_err();
    }

    /// Says one character, or its number where it has no sign of its own. Gives how many columns that takes.
    fn say_character(&mut self, character: char) -> usize
        ensures { TellsSeen self.old → TellsSeen self.new }
    {
        if is_seen(character) {
            self.lacks_memory |= self.text.push(character).is_err();
            return 1;
        }
        self.say_character_number(u32::from(character));
        6
    }

    /// Says bytes that a file has: a byte that belongs to no character as `\xNN`, and a character that is not seen as `U+NNNN`.
    /// Behind so many columns, or up to five more, three dots stand for the rest, which is not looked at.
    pub(crate) fn say_clipped(&mut self, bytes: &[u8], columns: usize)
        ensures { TellsSeen self.old → TellsSeen self.new }
    {
        let mut rest = bytes;
        let mut used = 0usize;
        for _ in 0..columns {
            if rest.is_empty() || used >= columns {
                break;
            }
            let (width, behind) = self.say_first(rest);
            used = used.saturating_add(width);
            rest = behind;
        }
        if !rest.is_empty() {
            self.say(" ...");
        }
    }

    /// Says the first character or byte of some. Gives how many columns that takes, and what stands behind it.
    fn say_first<'a>(&mut self, bytes: &'a [u8]) -> (usize, &'a [u8])
        ensures { TellsSeen self.old → TellsSeen self.new }
    {
        if let Some((first, behind)) = first_character(bytes) {
            if let Some(character) = first.chars().next() {
                return (self.say_character(character), behind);
            }
        }
        match bytes {
            [first, behind @ ..] => {
                self.say_byte(*first);
                (4, behind)
            }
            [] => (0, bytes),
        }
    }
}

/// The first character of bytes as a text, and what stands behind it; `None` where they begin with none.
fn first_character(bytes: &[u8]) -> Option<(&str, &[u8])> {
    for length in 1..5 {
        if let Some((first, behind)) = bytes.split_at_checked(length) {
            if let Ok(text) = str::from_utf8(first) {
                return Some((text, behind));
            }
        }
    }
    None
}
