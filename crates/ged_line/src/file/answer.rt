// The answer of respelling: slices of the file, and what was made between them.
ghost use Rattle.std.specs.Prelude.{◌≡◌, ◌≤◌, ◌+◌, ◌-◌, ◌++◌, ◌∷◌, [], length, take, drop, IfOk, OnOk};
ghost use Rattle.ged_line.specs.Bytes.{Bytes, line_feed};
ghost use Rattle.ged_line.specs.Files.{joined_parts};
ghost use Rattle.ged_line.specs.Pieces.{IsBehindMark};
ghost use Rattle.ged_line.specs.inner.Respelling.{EndsWith, text_before};

use crate::file::spelled_part::SpelledPart;
use std::alloc::{AllocError, Global};
use std::marker::Model;
use std::mem;

/// How many bytes of the file, at least, are kept as a slice before what is made. Fewer are copied, so that an answer has few parts.
const LONG_RUN: usize = 16384;

/// The canonical spelling of a file's lines, as far as they are read. Contracts see its text and what is pending.
#[derive(Drop)]
pub(crate) struct Answer<'a> {
    /// What is spelled, but for what was made behind it.
    parts: Vec<SpelledPart<'a>>,
    /// What was made behind the parts.
    made: Vec<u8>,
    /// What stands in the file behind these: lines that are spelled as they should be, then what is not read yet.
    pending: &'a [u8],
}

impl<'a> Model for Answer<'a> {
    ghost use Rattle.std.specs.Prelude.{◌++◌};
    ghost use Rattle.ged_line.specs.Files.{joined_parts};
    ghost use Rattle.ged_line.specs.inner.Respelling.{Growing, growing};

    ghost Value = { Growing };

    ghost view = { λ a. growing (joined_parts a.parts.items ++ a.made.items) a.pending.now };
}

impl<'a> Answer<'a> {
    /// The byte order mark, with all that stands behind it pending, and that. The mark is made where the file has none.
    pub(crate) fn start(
        alloc: Global,
        bytes: &'a [u8],
    ) -> Result<(Answer<'a>, &'a [u8]), AllocError>
        ensures behind { IfOk result (λ p. IsBehindMark bytes.now p.1.now) }
        ensures pending { IfOk result (λ p. EndsWith p.0.pending p.1.now) }
        ensures text { IfOk result (λ p. text_before p.1.now p.0 ≡ 0xEF ∷ 0xBB ∷ 0xBF ∷ []) }
    {
        let parts = Vec::new(alloc);
        let mut made = Vec::new(alloc);
        let pending = bytes;
        let Some(rest) = bytes.strip_prefix(&[0xEF, 0xBB, 0xBF]) else {
            made.extend_from_slice(&[0xEF, 0xBB, 0xBF])?;
            return Ok((
                Answer {
                    parts,
                    made,
                    pending,
                },
                bytes,
            ));
        };
        Ok((
            Answer {
                parts,
                made,
                pending,
            },
            rest,
        ))
    }

    /// Puts what is pending, but for its last bytes, of which there are so many, behind what is spelled.
    #[inline(always)]
    fn keep(&mut self, left: usize) -> Result<(), AllocError>
        requires { left ≤ length self.old.pending }
        ensures text { OnOk result (self.new.text ≡ self.old.text ++ take (length self.old.pending - left) self.old.pending) }
        ensures pending { OnOk result (self.new.pending ≡ drop (length self.old.pending - left) self.old.pending) }
    {
        let (kept, pending) = self.pending.split_at(self.pending.len() - left);
        if kept.len() >= LONG_RUN {
            return self.keep_run(left);
        }
        self.made.extend_from_slice(kept)?;
        self.pending = pending;
        Ok(())
    }

    /// The same in a part of its own.
    #[cold]
    fn keep_run(&mut self, left: usize) -> Result<(), AllocError>
        requires { left ≤ length self.old.pending }
        ensures text { OnOk result (self.new.text ≡ self.old.text ++ take (length self.old.pending - left) self.old.pending) }
        ensures pending { OnOk result (self.new.pending ≡ drop (length self.old.pending - left) self.old.pending) }
    {
        let (kept, pending) = self.pending.split_at(self.pending.len() - left);
        let alloc = *self.made.allocator();
        let made = mem::replace(&mut self.made, Vec::new(alloc));
        self.parts.push(SpelledPart { made, kept })?;
        self.pending = pending;
        Ok(())
    }

    /// Puts bytes that were made behind what is pending, but for its last bytes, of which there are `left`. The last `after` of
    /// these stay pending.
    pub(crate) fn push(&mut self, left: usize, made: &[u8], after: usize) -> Result<(), AllocError>
        requires left { left ≤ length self.old.pending }
        requires after { after ≤ left }
        ensures text { OnOk result (self.new.text ≡ self.old.text
            ++ (take (length self.old.pending - left) self.old.pending ++ made.now)) }
        ensures pending { OnOk result (self.new.pending ≡ drop (length self.old.pending - after) self.old.pending) }
    {
        self.keep(left)?;
        self.made.extend_from_slice(made)?;
        self.pending = &self.pending[self.pending.len() - after..];
        Ok(())
    }

    /// Puts what is pending up to the end of a line, and a line feed, behind what is spelled. The line stands at the front of the
    /// rest, which is left, and other bytes behind that; then what stands after the line, and those bytes.
    #[inline(always)]
    pub(crate) fn push_line(
        &mut self,
        rest: &str,
        line: &str,
        after: &str,
        behind: &[u8],
    ) -> Result<(), AllocError>
        requires left { length rest.now + length behind.now ≤ length self.old.pending }
        requires front { (more : Bytes) × (rest.now ≡ line.now ++ (more ++ after.now)) }
        ensures text { OnOk result (self.new.text ≡ self.old.text
            ++ (take (length self.old.pending - (length rest.now + length behind.now - length line.now)) self.old.pending ++ line_feed ∷ [])) }
        ensures pending { OnOk result (self.new.pending
            ≡ drop (length self.old.pending - (length after.now + length behind.now)) self.old.pending) }
    {
        self.keep(rest.len() + behind.len() - line.len())?;
        self.made.push(b'\n')?;
        self.pending = &self.pending[self.pending.len() - (after.len() + behind.len())..];
        Ok(())
    }

    /// Where the answer takes its memory.
    pub(crate) fn allocator(&self) -> Global {
        *self.made.allocator()
    }

    /// All that is spelled, and what is pending.
    pub(crate) fn into_parts(self) -> Result<Vec<SpelledPart<'a>>, AllocError>
        ensures { IfOk result (λ parts. joined_parts parts.items ≡ self.entry.text ++ self.entry.pending) }
    {
        let Answer {
            mut parts,
            made,
            pending,
        } = self;
        parts.push(SpelledPart {
            made,
            kept: pending,
        })?;
        Ok(parts)
    }
}
