// A line for each structure of a document, with what the structure tables ask of its payload.
ghost use Rattle.std.specs.Prelude.{◌≡◌, ◌≤◌, ◌++◌, ◌∷◌, [], false, IsTrue, OnOk, OnErr, IfOk, decimal, option_map};
ghost use Rattle.std.specs.Bool.{OnTrue};
ghost use Rattle.std.specs.Io.{StartsWith};
ghost use Rattle.std.specs.Io.KnownBytes.{Appends};
ghost use Rattle.std.specs.Option.{option_copied};
ghost use Rattle.ged_devices.specs.Buffers.{GoesThrough, StopsWithin};
ghost use Rattle.ged_line.specs.Bytes.{Bytes, space};
ghost use Rattle.ged_tree.specs.Runs.{IsRunOfTrees, trees_between};
ghost use Rattle.ged_schema.specs.Rows.{as_row};
ghost use Rattle.ged_accept.specs.Shown.{structure_line, shown, IsShown};

use crate::accepted::Accepted;
use crate::endings::row_ending;
use crate::gathered::Gathered;
use ged_devices::{Failed, Sink, flush_buffer, put_padded, write_buffered};
use ged_schema::{Context, ContextRows, Rule, context_below};
use ged_tree::{Forest, end_of_all, next_in_run};
use itoa::Buffer;
use std::alloc::{AllocError, Global};

/// A little more bytes than most lines have.
const BYTES_PER_LINE: usize = 16;

/// How many bytes go to the text at a time.
const BUFFER: usize = 65536;

/// Writes a level of any number of digits, and a space.
#[cold]
#[inline(never)]
fn write_deep_level<W: Sink>(
    level: usize,
    buffer: &mut Vec<u8>,
    writer: &mut W,
) -> Result<(), Failed>
    requires { W.failed writer.old ≡ false }
    ensures ok { OnOk result ((W.failed writer.new ≡ false)
        × GoesThrough (W.taken writer.old) (W.taken writer.new) buffer.old.items buffer.new.items (decimal level ++ space ∷ [])) }
    ensures err { OnErr result (IsTrue (W.failed writer.new)
        × StopsWithin (W.taken writer.old) (W.taken writer.new) buffer.old.items (decimal level ++ space ∷ [])) }
    ensures fate { W.fate writer.new ≡ W.fate writer.old }
{
    let mut digits = Buffer::new();
    write_buffered(writer, buffer, digits.format(level).as_bytes())?;
    write_buffered(writer, buffer, b" ")?;
    Ok(())
}

/// Writes a level and a space. A level of one digit, as most have, or of two is copied by a move, and not by a call.
#[inline(always)]
fn write_level<W: Sink>(level: usize, buffer: &mut Vec<u8>, writer: &mut W) -> Result<(), Failed>
    requires { W.failed writer.old ≡ false }
    ensures ok { OnOk result ((W.failed writer.new ≡ false)
        × GoesThrough (W.taken writer.old) (W.taken writer.new) buffer.old.items buffer.new.items (decimal level ++ space ∷ [])) }
    ensures err { OnErr result (IsTrue (W.failed writer.new)
        × StopsWithin (W.taken writer.old) (W.taken writer.new) buffer.old.items (decimal level ++ space ∷ [])) }
    ensures fate { W.fate writer.new ≡ W.fate writer.old }
{
    if level < 10 {
        return write_buffered(writer, buffer, &[b'0' + level as u8, b' ']);
    }
    if level < 100 {
        let (tens, ones) = ((level / 10) as u8, (level % 10) as u8);
        return write_buffered(writer, buffer, &[b'0' + tens, b'0' + ones, b' ']);
    }
    write_deep_level(level, buffer, writer)
}

/// Writes the line of one structure, one part behind the other.
#[cold]
#[inline(never)]
fn write_parts<W: Sink>(
    level: usize,
    tag: &str,
    rule: Option<&Rule>,
    buffer: &mut Vec<u8>,
    writer: &mut W,
) -> Result<(), Failed>
    requires { W.failed writer.old ≡ false }
    ensures ok { OnOk result ((W.failed writer.new ≡ false)
        × GoesThrough (W.taken writer.old) (W.taken writer.new) buffer.old.items buffer.new.items
        (structure_line level tag.now (option_map as_row (option_copied rule.entry)))) }
    ensures err { OnErr result (IsTrue (W.failed writer.new)
        × StopsWithin (W.taken writer.old) (W.taken writer.new) buffer.old.items
        (structure_line level tag.now (option_map as_row (option_copied rule.entry)))) }
    ensures fate { W.fate writer.new ≡ W.fate writer.old }
{
    write_level(level, buffer, writer)?;
    write_buffered(writer, buffer, tag.as_bytes())?;
    let ending = row_ending(rule);
    write_buffered(writer, buffer, &ending[..usize::from(ending[15])])?;
    Ok(())
}

/// Puts the line of a structure, by its front up to the tag's end, behind what a buffer holds, and answers true, where there is room. Each
/// part has a fixed length, so that none is copied by a call.
#[inline(always)]
fn put_line<const N: usize>(
    level: usize,
    tag: &str,
    front: &[u8; N],
    rule: Option<&Rule>,
    buffer: &mut Vec<u8>,
) -> bool
    requires { front.now ≡ decimal level ++ space ∷ tag.now }
    ensures put { OnTrue result (buffer.new.items
        ≡ buffer.old.items ++ structure_line level tag.now (option_map as_row (option_copied rule.entry))) }
    ensures left { result ≡ false → buffer.new.items ≡ buffer.old.items }
{
    let ending = row_ending(rule);
    put_padded(buffer, front, ending, usize::from(ending[15]))
}

/// Puts the line of a structure behind what a buffer holds, and answers true, where its level has one digit, its tag has four letters,
/// as most have, and there is room.
#[inline(always)]
fn put_usual_line(level: usize, tag: &str, rule: Option<&Rule>, buffer: &mut Vec<u8>) -> bool
    ensures put { OnTrue result (buffer.new.items
        ≡ buffer.old.items ++ structure_line level tag.now (option_map as_row (option_copied rule.entry))) }
    ensures left { result ≡ false → buffer.new.items ≡ buffer.old.items }
{
    if level > 9 {
        return false;
    }
    let &[first, second, third, fourth] = tag.as_bytes() else {
        return false;
    };
    let front = [b'0' + level as u8, b' ', first, second, third, fourth];
    put_line(level, tag, &front, rule, buffer)
}

/// The same where the tag has three letters.
#[inline(always)]
fn put_short_line(level: usize, tag: &str, rule: Option<&Rule>, buffer: &mut Vec<u8>) -> bool
    ensures put { OnTrue result (buffer.new.items
        ≡ buffer.old.items ++ structure_line level tag.now (option_map as_row (option_copied rule.entry))) }
    ensures left { result ≡ false → buffer.new.items ≡ buffer.old.items }
{
    if level > 9 {
        return false;
    }
    let &[first, second, third] = tag.as_bytes() else {
        return false;
    };
    let front = [b'0' + level as u8, b' ', first, second, third];
    put_line(level, tag, &front, rule, buffer)
}

/// The same where the level has two digits, and the tag two letters, three or four.
#[inline(always)]
fn put_deep_line(level: usize, tag: &str, rule: Option<&Rule>, buffer: &mut Vec<u8>) -> bool
    ensures put { OnTrue result (buffer.new.items
        ≡ buffer.old.items ++ structure_line level tag.now (option_map as_row (option_copied rule.entry))) }
    ensures left { result ≡ false → buffer.new.items ≡ buffer.old.items }
{
    if level < 10 || level > 99 {
        return false;
    }
    let (tens, ones) = (b'0' + (level / 10) as u8, b'0' + (level % 10) as u8);
    match tag.as_bytes() {
        &[first, second] => {
            let front = [tens, ones, b' ', first, second];
            put_line(level, tag, &front, rule, buffer)
        }
        &[first, second, third] => {
            let front = [tens, ones, b' ', first, second, third];
            put_line(level, tag, &front, rule, buffer)
        }
        &[first, second, third, fourth] => {
            let front = [tens, ones, b' ', first, second, third, fourth];
            put_line(level, tag, &front, rule, buffer)
        }
        _ => false,
    }
}

/// Writes the line of a structure that is not like most. It is a call, since the loop over structures has too few registers for this too.
#[inline(never)]
fn write_other<W: Sink>(
    level: usize,
    tag: &str,
    rule: Option<&Rule>,
    buffer: &mut Vec<u8>,
    writer: &mut W,
) -> Result<(), Failed>
    requires { W.failed writer.old ≡ false }
    ensures ok { OnOk result ((W.failed writer.new ≡ false)
        × GoesThrough (W.taken writer.old) (W.taken writer.new) buffer.old.items buffer.new.items
        (structure_line level tag.now (option_map as_row (option_copied rule.entry)))) }
    ensures err { OnErr result (IsTrue (W.failed writer.new)
        × StopsWithin (W.taken writer.old) (W.taken writer.new) buffer.old.items
        (structure_line level tag.now (option_map as_row (option_copied rule.entry)))) }
    ensures fate { W.fate writer.new ≡ W.fate writer.old }
{
    if put_short_line(level, tag, rule, buffer) || put_deep_line(level, tag, rule, buffer) {
        return Ok(());
    }
    write_parts(level, tag, rule, buffer, writer)
}

/// Writes the line of one structure.
#[inline(always)]
fn write_line<W: Sink>(
    level: usize,
    tag: &str,
    rule: Option<&Rule>,
    buffer: &mut Vec<u8>,
    writer: &mut W,
) -> Result<(), Failed>
    requires { W.failed writer.old ≡ false }
    ensures ok { OnOk result ((W.failed writer.new ≡ false)
        × GoesThrough (W.taken writer.old) (W.taken writer.new) buffer.old.items buffer.new.items
        (structure_line level tag.now (option_map as_row (option_copied rule.entry)))) }
    ensures err { OnErr result (IsTrue (W.failed writer.new)
        × StopsWithin (W.taken writer.old) (W.taken writer.new) buffer.old.items
        (structure_line level tag.now (option_map as_row (option_copied rule.entry)))) }
    ensures fate { W.fate writer.new ≡ W.fate writer.old }
{
    if put_usual_line(level, tag, rule, buffer) {
        return Ok(());
    }
    write_other(level, tag, rule, buffer, writer)
}

/// Writes the lines of the structures of a run, and of those below them. The run stands at a level and in a context.
fn write_run<F: Forest, W: Sink>(
    forest: &F,
    level: usize,
    context: Context,
    start: usize,
    end: usize,
    buffer: &mut Vec<u8>,
    writer: &mut W,
) -> Result<(), Failed>
    requires failed { W.failed writer.old ≡ false }
    requires run { IsRunOfTrees (F.trees forest.now) start end }
    requires level { level ≤ start }
    ensures ok { OnOk result ((W.failed writer.new ≡ false)
        × GoesThrough (W.taken writer.old) (W.taken writer.new) buffer.old.items buffer.new.items
        (shown level context (trees_between (F.trees forest.now) start end))) }
    ensures err { OnErr result (IsTrue (W.failed writer.new)
        × StopsWithin (W.taken writer.old) (W.taken writer.new) buffer.old.items
        (shown level context (trees_between (F.trees forest.now) start end))) }
    ensures fate { W.fate writer.new ≡ W.fate writer.old }
{
    let rows = ContextRows::of(context);
    let mut place = start;
    while let Some(after) = next_in_run(forest, place, end) {
        let tag = forest.tag(place);
        let rule = rows.row(tag);
        write_line(level, tag, rule, buffer, writer)?;
        // most structures have nothing below them, and a call that finds none takes time too
        if place + 1 < after {
            let below = context_below(rule);
            write_run(forest, level + 1, below, place + 1, after, buffer, writer)?;
        }
        place = after;
    }
    Ok(())
}

/// Writes what [`show_text`] answers, through a buffer, of which all capacity is used; what it held is dropped. Answers Failed once the
/// writer does: then what was written is a front of that text. Takes no memory.
pub fn write_shown<W: Sink>(
    accepted: &Accepted<'_>,
    buffer: &mut Vec<u8>,
    writer: &mut W,
) -> Result<(), Failed>
    requires { W.failed writer.old ≡ false }
    ensures ok { OnOk result ((W.failed writer.new ≡ false) × ((text : Bytes)
        × IsShown accepted.now text × Appends (W.taken writer.old) (W.taken writer.new) text)) }
    ensures err { OnErr result (IsTrue (W.failed writer.new) × ((text written : Bytes)
        × IsShown accepted.now text × Appends (W.taken writer.old) (W.taken writer.new) written × StartsWith text written)) }
    ensures fate { W.fate writer.new ≡ W.fate writer.old }
{
    let flat = accepted.flat();
    buffer.clear();
    write_run(flat, 0, Context::File, 0, end_of_all(flat), buffer, writer)?;
    flush_buffer(writer, buffer)?;
    Ok(())
}

/// A line for each structure of an accepted file, in order: its level, its tag and the word of its row's kind, or `-`
/// where the structure tables have no row for it. TRLR has no line. Grows.
pub fn show_text(alloc: Global, accepted: &Accepted<'_>) -> Result<Vec<u8>, AllocError>
    ensures { IfOk result (λ text. IsShown accepted.now text.items) }
{
    let room = accepted.flat().size().saturating_mul(BYTES_PER_LINE);
    let mut gathered = Gathered::with_room(alloc, room)?;
    let mut buffer = Vec::with_capacity(alloc, BUFFER)?;
    match write_shown(accepted, &mut buffer, &mut gathered) {
        Ok(()) => Ok(gathered.text),
        Err(Failed) => Err(AllocError),
    }
}
