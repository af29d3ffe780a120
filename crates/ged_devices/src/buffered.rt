// Whole texts for a writer, at once or through a buffer.
ghost use Rattle.std.specs.Prelude.{◌≡◌, ◌+◌, ◌≤◌, ◌↔◌, ◌++◌, ℕ, List, [], false, length, take, vec_len, vec_capacity, IsTrue, OnOk, OnErr};
ghost use Rattle.std.specs.Bool.{OnTrue};
ghost use Rattle.std.specs.Io.KnownBytes.{Appends};
ghost use Rattle.std.specs.Io.{StartsWith};
ghost use Rattle.ged_devices.specs.Buffers.{GoesThrough, StopsWithin};

use crate::devices::{Failed, Sink};

/// Writes all of a text, or answers Failed once the writer does: then what was written is a front of the text. Takes no memory.
pub fn write_whole<W: Sink>(writer: &mut W, text: &[u8]) -> Result<(), Failed>
    requires { W.failed writer.old ≡ false }
    ensures ok { OnOk result ((W.failed writer.new ≡ false)
        × Appends (W.taken writer.old) (W.taken writer.new) text.now) }
    ensures err { OnErr result (IsTrue (W.failed writer.new) × (written : List ℕ)
        × Appends (W.taken writer.old) (W.taken writer.new) written × StartsWith text.now written) }
    ensures fate { W.fate writer.new ≡ W.fate writer.old }
{
    let mut at = 0usize;
    while at < text.len() {
        let count = writer.write(&text[at..])?;
        at += count;
    }
    Ok(())
}

/// Puts a text behind what a buffer holds, within its capacity; where that is too small, what the buffer holds is written first, and a
/// text that is longer than the whole buffer is written with no copy. Answers Failed once the writer does: then what was written is a
/// front of what the buffer held and the text behind it. Takes no memory.
#[inline(always)]
pub fn write_buffered<W: Sink>(
    writer: &mut W,
    buffer: &mut Vec<u8>,
    text: &[u8],
) -> Result<(), Failed>
    requires { W.failed writer.old ≡ false }
    ensures ok { OnOk result ((W.failed writer.new ≡ false)
        × GoesThrough (W.taken writer.old) (W.taken writer.new) buffer.old.items buffer.new.items text.now) }
    ensures err { OnErr result (IsTrue (W.failed writer.new)
        × StopsWithin (W.taken writer.old) (W.taken writer.new) buffer.old.items text.now) }
    ensures fate { W.fate writer.new ≡ W.fate writer.old }
{
    if fits(buffer, text) {
        put(buffer, text);
        return Ok(());
    }
    write_behind(writer, buffer, text)
}

/// The same where the text may not fit behind what the buffer holds.
#[cold]
#[inline(never)]
fn write_behind<W: Sink>(writer: &mut W, buffer: &mut Vec<u8>, text: &[u8]) -> Result<(), Failed>
    requires { W.failed writer.old ≡ false }
    ensures ok { OnOk result ((W.failed writer.new ≡ false)
        × GoesThrough (W.taken writer.old) (W.taken writer.new) buffer.old.items buffer.new.items text.now) }
    ensures err { OnErr result (IsTrue (W.failed writer.new)
        × StopsWithin (W.taken writer.old) (W.taken writer.new) buffer.old.items text.now) }
    ensures fate { W.fate writer.new ≡ W.fate writer.old }
{
    flush_buffer(writer, buffer)?;
    if fits(buffer, text) {
        put(buffer, text);
        return Ok(());
    }
    match write_whole(writer, text) {
        Ok(()) => Ok(()),
        Err(Failed) => Err(Failed),
    }
}

/// Puts a text of a fixed length and the first bytes of another behind what a buffer holds, and answers true; where the buffer has no
/// room for both whole, it stays as it is, and the answer is false. Takes no memory. A few bytes of fixed lengths are copied by a few
/// moves, where a length that is known only at run time takes a call. What stands behind the first bytes is copied and cut off again.
#[inline(always)]
pub fn put_padded<const N: usize, const M: usize>(
    buffer: &mut Vec<u8>,
    text: &[u8; N],
    padded: &[u8; M],
    length: usize,
) -> bool
    requires { length ≤ M }
    ensures put { OnTrue result (buffer.new.items ≡ buffer.old.items ++ (text.now ++ take length padded.now)) }
    ensures left { result ≡ false → buffer.new.items ≡ buffer.old.items }
    ensures room { IsTrue result ↔ vec_len buffer.old + (N + M) ≤ vec_capacity buffer.old }
    ensures capacity { vec_capacity buffer.old ≤ vec_capacity buffer.new }
{
    let held = buffer.len();
    let room = buffer.capacity() - held;
    if room < N {
        return false;
    }
    if room - N < M {
        return false;
    }
    put(buffer, text);
    put(buffer, padded);
    buffer.truncate(held + N + length);
    true
}

/// Writes what a buffer holds and empties it, or answers Failed once the writer does: then what was written is a front of what the
/// buffer held. Takes no memory.
pub fn flush_buffer<W: Sink>(writer: &mut W, buffer: &mut Vec<u8>) -> Result<(), Failed>
    requires { W.failed writer.old ≡ false }
    ensures ok { OnOk result ((W.failed writer.new ≡ false)
        × GoesThrough (W.taken writer.old) (W.taken writer.new) buffer.old.items [] []) }
    ensures empty { OnOk result (buffer.new.items ≡ []) }
    ensures err { OnErr result (IsTrue (W.failed writer.new)
        × StopsWithin (W.taken writer.old) (W.taken writer.new) buffer.old.items []) }
    ensures fate { W.fate writer.new ≡ W.fate writer.old }
{
    write_whole(writer, buffer)?;
    buffer.clear();
    Ok(())
}

/// Whether there is room for a text behind what a buffer holds.
#[inline(always)]
fn fits(buffer: &Vec<u8>, text: &[u8]) -> bool
    ensures { IsTrue result → vec_len buffer.now + length text.now ≤ vec_capacity buffer.now }
{
    text.len() <= buffer.capacity() - buffer.len()
}

/// Puts a text behind what a buffer holds, for which there is room.
#[inline(always)]
fn put(buffer: &mut Vec<u8>, text: &[u8])
    requires { vec_len buffer.old + length text.now ≤ vec_capacity buffer.old }
    ensures put { buffer.new.items ≡ buffer.old.items ++ text.now }
    ensures capacity { vec_capacity buffer.old ≤ vec_capacity buffer.new }
{
    match buffer.extend_from_slice(text) {
        Ok(()) => {}
        Err(_) => unreachable!(),
    }
}
