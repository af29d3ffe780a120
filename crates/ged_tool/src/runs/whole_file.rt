// The bytes of a file, as far as they have come.
ghost use Rattle.std.specs.Prelude.{◌≡◌, ◌+◌, ◌≤◌, ◌<◌, ◌++◌, IsTrue, IfSome, [], length, take, true};
ghost use Rattle.std.specs.Str.{is_utf8};

use crate::calls::file_text::{FileText, are_equal};
use ged_tree::give_back;
use std::alloc::AllocError;

/// Whether a file is validated as UTF-8 while it comes, which serves who looks at it as a text later.
#[derive(Clone, Copy, PartialEq, Eq)]
pub(crate) enum Validation {
    AsItComes,
    Later,
}

/// The bytes of a file as far as they have come. Where another file was read before, they are not kept as long as they are the front of
/// that one.
#[derive(Drop)]
pub(crate) struct WholeFile<'f> {
    /// The bytes of the file that was read before, or none.
    pub(crate) before: &'f [u8],
    /// How many of these have come here too. Then these are all that came, and none are kept.
    pub(crate) shared: usize,
    pub(crate) bytes: Vec<u8>,
    /// Up to where they are known to be UTF-8, in bytes.
    known: usize,
    /// Whether those behind may be.
    may_be_text: bool,

    ghost shared_within: { shared ≤ length before.now },
    ghost shared_alone: { 0 < shared → bytes.items ≡ [] },
    ghost known_text: { is_utf8 (take known bytes.items) ≡ true },
    ghost known_within: { known ≤ length bytes.items },
}

/// Up to where bytes are known to be UTF-8, where they are up to a place: behind the last ASCII character, since there a character ends; or
/// `None` where they are not, or where none of them from `new` on is ASCII.
fn known_further(bytes: &[u8], known: usize, new: usize) -> Option<usize>
    requires order { known ≤ new }
    requires within { new ≤ length bytes.now }
    requires text { is_utf8 (take known bytes.now) ≡ true }
    ensures within { IfSome result (λ end. end ≤ length bytes.now) }
    ensures text { IfSome result (λ end. is_utf8 (take end bytes.now) ≡ true) }
{
    let last = bytes[new..].iter().rposition(|byte| byte.is_ascii())?;
    let end = new + last + 1;
    match simdutf8::basic::from_utf8(&bytes[known..end]) {
        Ok(_) => Some(end),
        Err(_) => None,
    }
}

/// Whether bytes go on with these, behind so many of them.
fn goes_on_with(bytes: &[u8], count: usize, more: &[u8]) -> bool
    requires { count ≤ length bytes.now }
    ensures within { IsTrue result → count + length more.now ≤ length bytes.now }
    ensures same { IsTrue result → take (count + length more.now) bytes.now ≡ take count bytes.now ++ more.now }
{
    match bytes.get(count..count + more.len()) {
        Some(next) => are_equal(next, more),
        None => false,
    }
}

impl<'f> WholeFile<'f> {
    ghost use Rattle.std.specs.Prelude.{◌≡◌, ◌≤◌, ◌<◌, ◌++◌, [], OnOk, length};
    ghost use Rattle.ged_tool.specs.inner.FileTexts.{file_bytes};
    ghost use Rattle.ged_tool.specs.inner.Reading.{came_of};

    /// A file of which nothing has come, in this memory, beside one that was read before.
    pub(crate) fn start(bytes: Vec<u8>, before: &'f [u8], validation: Validation) -> WholeFile<'f>
        requires { bytes.items ≡ [] }
        ensures came { came_of result ≡ [] }
        ensures before { result.before.now ≡ before.now }
    {
        WholeFile {
            before,
            shared: 0,
            bytes,
            known: 0,
            may_be_text: validation == Validation::AsItComes,
        }
    }

    /// How many bytes have come.
    pub(crate) fn len(&self) -> usize
        ensures { result ≡ length (came_of self.now) }
    {
        self.shared + self.bytes.len()
    }

    /// Appends what has come. Grows, unless all that came is the front of the file that was read before.
    pub(crate) fn push(&mut self, came: &[u8]) -> Result<(), AllocError>
        ensures came { OnOk result (came_of self.new ≡ came_of self.old ++ came.now) }
        ensures before { self.new.before ≡ self.old.before }
    {
        if self.bytes.is_empty() && goes_on_with(self.before, self.shared, came) {
            self.shared += came.len();
            return Ok(());
        }
        self.keep_front()?;
        self.keep(came)
    }

    /// Keeps what came so far, which was the front of the file that was read before, apart from that. Grows.
    fn keep_front(&mut self) -> Result<(), AllocError>
        ensures came { OnOk result (came_of self.new ≡ came_of self.old) }
        ensures before { self.new.before ≡ self.old.before }
        ensures none { OnOk result (self.new.shared ≡ 0) }
    {
        if self.shared == 0 {
            return Ok(());
        }
        let front = &self.before[..self.shared];
        self.bytes.extend_from_slice(front)?;
        self.shared = 0;
        self.look(0);
        Ok(())
    }

    /// Appends what has come to what is kept. It is validated at once, while it is in the processor's caches. Grows.
    fn keep(&mut self, came: &[u8]) -> Result<(), AllocError>
        requires { self.old.shared ≡ 0 }
        ensures came { OnOk result (came_of self.new ≡ came_of self.old ++ came.now) }
        ensures before { self.new.before ≡ self.old.before }
    {
        let new = self.bytes.len();
        self.bytes.extend_from_slice(came)?;
        self.look(new);
        Ok(())
    }

    /// Validates what is kept and not validated yet, where so many bytes had come before. What is no text once is not looked at again.
    fn look(&mut self, new: usize)
        requires order { self.old.known ≤ new }
        requires within { new ≤ length self.old.bytes.items }
        ensures kept { self.new.bytes ≡ self.old.bytes }
        ensures shared { self.new.shared ≡ self.old.shared }
        ensures before { self.new.before ≡ self.old.before }
    {
        if !self.may_be_text {
            return;
        }
        match known_further(&self.bytes, self.known, new) {
            Some(end) => self.known = end,
            None => self.may_be_text = false,
        }
    }

    /// Gives back the room that was not filled.
    pub(crate) fn fit(&mut self)
        ensures came { came_of self.new ≡ came_of self.old }
        ensures before { self.new.before ≡ self.old.before }
    {
        give_back(&mut self.bytes);
    }

    /// All that has come, as a text where it is kept and known to be one.
    pub(crate) fn text(&self) -> FileText<'_>
        ensures { file_bytes result ≡ came_of self.now }
    {
        if self.shared > 0 {
            return FileText::Bytes(&self.before[..self.shared]);
        }
        let bytes = self.bytes.as_slice();
        if self.known < bytes.len() {
            return FileText::Bytes(bytes);
        }
        // All of them were validated.
        FileText::Text(unsafe { str::from_utf8_unchecked(bytes) })
    }

    /// How many bytes of the file that was read before came, and those that are kept.
    pub(crate) fn into_parts(self) -> (usize, Vec<u8>)
        ensures shared { result.0 ≡ self.entry.shared }
        ensures kept { result.1 ≡ self.entry.bytes }
        ensures alone { 0 < result.0 → result.1.items ≡ [] }
    {
        let WholeFile {
            before: _,
            shared,
            bytes,
            known: _,
            may_be_text: _,
        } = self;
        (shared, bytes)
    }

    /// All that has come, where no file was read before.
    pub(crate) fn into_bytes(self) -> Vec<u8>
        requires { self.before.now ≡ [] }
        ensures { result.items ≡ came_of self.entry }
    {
        let (_, bytes) = self.into_parts();
        bytes
    }
}
