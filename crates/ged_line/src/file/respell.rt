// The canonical spelling of a file's lines, straight from its bytes.
ghost use Rattle.std.specs.Prelude.{◌≡◌, ◌-◌, ◌++◌, ◌∷◌, List, IsTrue, OnOk, IfOk, IfErr};
ghost use Rattle.ged_line.specs.Bytes.{Bytes, line_feed};
ghost use Rattle.ged_line.specs.Lines.{LineParts};
ghost use Rattle.ged_line.specs.Spelling.{LineText, spelling, spelled_lines};
ghost use Rattle.ged_line.specs.Files.{SpellLines, IsRespelling, joined_parts};
ghost use Rattle.ged_line.specs.Reading.{TellsRespell};
ghost use Rattle.ged_line.specs.inner.Reading.{TellsRespellIn, IsRespelledBehind};
ghost use Rattle.ged_line.specs.inner.Respelling.{EndsWith, IsSpelledOn, text_before};

use crate::bytes::blocks::split_block;
use crate::bytes::cut::{Cut, cut_line};
use crate::fault::{LineAt, LineFault, RespellFault};
use crate::file::answer::Answer;
use crate::file::pieces::cut_pieces;
use crate::file::spelled_part::SpelledPart;
use crate::line::read::{view_line, view_text};
use crate::line::view::{LineView, ValueView};
use crate::line::write::write_view;
use std::alloc::{AllocError, Global};

/// What [`crate::write_lines`] writes of the lines that [`crate::read_lines`] reads, or the first faulty line, without
/// a line of its own for any of them. Grows as [`respell_parts`] does, and for the answer, unless all of it was made. The error is the
/// first faulty line, or that a growth was refused (FamilySearch GEDCOM 7.0, "Lines").
pub fn respell_lines(alloc: Global, bytes: &[u8]) -> Result<Vec<u8>, RespellFault>
    ensures spelled { IfOk result (λ text. IsRespelling bytes.now text.items) }
    ensures fault { IfErr result (λ fault. TellsRespell fault bytes.now) }
{
    let parts = respell_parts(alloc, bytes)?;
    Ok(join_parts(alloc, parts)?)
}

/// What [`respell_lines`] answers, in parts. What stands in the bytes as it should be spelled, up to where a line differs, is kept
/// as a slice of them where it has 16,384 bytes or more, or stands last; all else is made. There is a part for each of these slices, of
/// which the last may be empty. Grows for the parts and for what is made.
pub fn respell_parts(alloc: Global, bytes: &[u8]) -> Result<Vec<SpelledPart<'_>>, RespellFault>
    ensures spelled { IfOk result (λ parts. IsRespelling bytes.now (joined_parts parts.items)) }
    ensures fault { IfErr result (λ fault. TellsRespell fault bytes.now) }
{
    let (mut answer, rest) = Answer::start(alloc, bytes)?;
    respell_rest(rest, &mut answer)?;
    Ok(answer.into_parts()?)
}

/// The bytes of parts. What the first of them made is taken as it is.
fn join_parts(alloc: Global, parts: Vec<SpelledPart<'_>>) -> Result<Vec<u8>, AllocError>
    ensures { IfOk result (λ text. text.items ≡ joined_parts parts.entry.items) }
{
    let mut parts = parts.into_iter();
    let Some(first) = parts.next() else {
        return Ok(Vec::new(alloc));
    };
    let mut text = first.made;
    text.extend_from_slice(first.kept)?;
    for part in parts {
        text.extend_from_slice(&part.made)?;
        text.extend_from_slice(part.kept)?;
    }
    Ok(text)
}

/// Spells the lines of bytes without a mark, by blocks: each is validated and judged while it is in the processor's cache.
fn respell_rest<'a>(bytes: &'a [u8], answer: &mut Answer<'a>) -> Result<(), RespellFault>
    requires { EndsWith answer.old.pending bytes.now }
    ensures ok { OnOk result ((lines : List LineParts) × SpellLines lines bytes.now
        × (answer.new.text ++ answer.new.pending ≡ text_before bytes.now answer.old ++ spelled_lines lines)) }
    ensures fault { IfErr result (λ fault. TellsRespellIn fault bytes.now) }
{
    let mut unread = bytes;
    let mut lines = 0u64;
    while !unread.is_empty() {
        let (block, behind) = split_block(unread);
        match respell_block(block, behind, answer) {
            Ok(count) => lines += count,
            Err(RespellFault::At(at)) => {
                let (line, fault) = (lines + at.line, at.fault);
                return Err(RespellFault::At(LineAt { line, fault }));
            }
            Err(RespellFault::Memory(error)) => return Err(RespellFault::Memory(error)),
        }
        unread = behind;
    }
    Ok(())
}

/// Spells the lines of a block, before others, and counts them. UTF-8 is validated many bytes at a time.
fn respell_block<'a>(
    block: &'a [u8],
    behind: &'a [u8],
    answer: &mut Answer<'a>,
) -> Result<u64, RespellFault>
    requires { EndsWith answer.old.pending (block.now ++ behind.now) }
    ensures ok { IfOk result (λ count. IsSpelledOn block.now count behind.now answer.old answer.new) }
    ensures fault { IfErr result (λ fault. TellsRespellIn fault block.now) }
{
    match simdutf8::basic::from_utf8(block) {
        Ok(text) => respell_text(text, behind, answer),
        Err(_) => respell_broken(block, behind, answer),
    }
}

/// Spells the lines of a text, before other bytes, and counts them. Lines that are spelled as they should be are passed over.
fn respell_text(text: &str, behind: &[u8], answer: &mut Answer<'_>) -> Result<u64, RespellFault>
    requires { EndsWith answer.old.pending (text.now ++ behind.now) }
    ensures ok { IfOk result (λ count. IsSpelledOn text.now count behind.now answer.old answer.new) }
    ensures fault { IfErr result (λ fault. TellsRespellIn fault text.now) }
{
    let mut rest = text;
    let mut line = 0u64;
    while !rest.is_empty() {
        let Cut {
            piece,
            after,
            has_banned,
        } = cut_line(rest);
        line += 1;
        if has_banned {
            let fault = LineFault::BannedCharacter;
            return Err(RespellFault::At(LineAt { line, fault }));
        }
        let view = match view_text(piece) {
            Ok(view) => view,
            Err(fault) => return Err(RespellFault::At(LineAt { line, fault })),
        };
        let spelled = canonical_text(piece, &view);
        if !is_line_before(rest, spelled, after) {
            answer.push_line(rest, spelled, after, behind)?;
        }
        rest = after;
    }
    Ok(line)
}

/// The canonical spelling of the line that a text spells: the text, but for a space after the tag of an empty value.
fn canonical_text<'a>(text: &'a str, view: &LineView<'_>) -> &'a str
    requires { LineText view.now text.now }
    ensures spelled { result.now ≡ spelling view.now }
    ensures front { (blank : Bytes) × (text.now ≡ result.now ++ blank) }
{
    match view.value() {
        ValueView::Empty => match text.strip_suffix(' ') {
            Some(front) => front,
            None => text,
        },
        _ => text,
    }
}

/// Whether a text, which begins with this line and ends with what stands after it, has a line feed alone between them.
fn is_line_before(text: &str, line: &str, after: &str) -> bool
    requires { (more : Bytes) × (text.now ≡ line.now ++ (more ++ after.now)) }
    ensures { IsTrue result → text.now ≡ line.now ++ (line_feed ∷ after.now) }
{
    text.len() - after.len() == line.len() + 1 && text.as_bytes()[line.len()] == b'\n'
}

/// Spells the lines of a block that is not UTF-8, before other bytes, and counts them.
#[cold]
fn respell_broken(block: &[u8], behind: &[u8], answer: &mut Answer<'_>) -> Result<u64, RespellFault>
    requires { EndsWith answer.old.pending (block.now ++ behind.now) }
    ensures ok { IfOk result (λ count. IsSpelledOn block.now count behind.now answer.old answer.new) }
    ensures fault { IfErr result (λ fault. TellsRespellIn fault block.now) }
{
    let mut made = Vec::new(answer.allocator());
    let count = respell_pieces(block, &mut made)?;
    answer.push(block.len() + behind.len(), &made, behind.len())?;
    Ok(count)
}

/// Appends the lines of any bytes without a mark and counts them.
fn respell_pieces(bytes: &[u8], out: &mut Vec<u8>) -> Result<u64, RespellFault>
    ensures ok { IfOk result (λ count. IsRespelledBehind bytes.now count out.old.items out.new.items) }
    ensures fault { IfErr result (λ fault. TellsRespellIn fault bytes.now) }
{
    let mut line = 0u64;
    for piece in cut_pieces(bytes) {
        line += 1;
        let view = match view_line(piece) {
            Ok(view) => view,
            Err(fault) => return Err(RespellFault::At(LineAt { line, fault })),
        };
        write_view(&view, out)?;
    }
    Ok(line)
}
