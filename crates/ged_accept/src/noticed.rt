// The notices of an accepted file, and the text that tells them.
ghost use Rattle.std.specs.Prelude.{◌≡◌, ◌++◌, ◌∷◌, [], OnOk, IfOk, codes};
ghost use Rattle.ged_line.specs.Bytes.{line_feed};
ghost use Rattle.ged_accept.specs.Notices.{AreNotices, IsVerdict};
ghost use Rattle.ged_accept.specs.Notices.{notice_words as words_of_kind, notice_line as line_of_notice};
ghost use Rattle.ged_accept.specs.inner.Merges.{IsMerge};

use crate::accepted::Accepted;
use ged_link::{Notice, NoticeKind, one_way};
use ged_schema::{Coverage, unlisted};
use itoa::Buffer;
use std::alloc::{AllocError, Global};

/// The last line of a verdict.
const ACCEPTED: &[u8] = b"accepted\n";

/// How many bytes the line of a notice has, a little more than most.
const BYTES_PER_NOTICE: usize = 28;

/// All notices of an accepted file, in the order of their lines. No line has two. Grows
/// (FamilySearch GEDCOM 7.0, "Structure Organization").
pub fn notices(alloc: Global, accepted: &Accepted<'_>) -> Result<Vec<Notice>, AllocError>
    ensures { IfOk result (λ notices. AreNotices accepted.now notices.items) }
{
    let flat = accepted.flat();
    let links = one_way(alloc, flat, accepted.index())?;
    match accepted.coverage() {
        Coverage::Whole => Ok(links),
        Coverage::Partial => {
            let tags = unlisted(alloc, flat)?;
            if links.is_empty() {
                return Ok(tags);
            }
            merge(alloc, &links, &tags)
        }
    }
}

/// The notices of two lists, each in the order of its lines, in the order of all lines.
fn merge(alloc: Global, first: &[Notice], second: &[Notice]) -> Result<Vec<Notice>, AllocError>
    ensures { IfOk result (λ merged. IsMerge first.now second.now merged.items) }
{
    let mut merged = Vec::with_capacity(alloc, first.len().saturating_add(second.len()))?;
    let mut left = first;
    let mut right = second;
    while let ([x, xs @ ..], [y, ys @ ..]) = (left, right) {
        if x.line < y.line {
            merged.push(*x)?;
            left = xs;
        } else {
            merged.push(*y)?;
            right = ys;
        }
    }
    merged.extend_from_slice(left)?;
    merged.extend_from_slice(right)?;
    Ok(merged)
}

/// What stands behind the number in the line of a notice. Both ends are of one length, so that neither is copied by a call.
#[inline(always)]
fn end_of_line(kind: NoticeKind) -> &'static [u8; 15]
    ensures { result.now ≡ codes ": " ++ (words_of_kind kind ++ line_feed ∷ []) }
{
    match kind {
        NoticeKind::OneWay => b": one-way link\n",
        NoticeKind::Unlisted => b": unlisted tag\n",
    }
}

/// Appends the line of a notice.
fn push_notice(notice: Notice, out: &mut Vec<u8>) -> Result<(), AllocError>
    ensures { OnOk result (out.new.items ≡ out.old.items ++ line_of_notice notice) }
{
    let mut buffer = Buffer::new();
    out.extend_from_slice(b"line ")?;
    out.extend_from_slice(buffer.format(notice.line).as_bytes())?;
    out.extend_from_slice(end_of_line(notice.kind))?;
    Ok(())
}

/// The text that tells the notices of an accepted file, a line for each in their order, and then that it is accepted. Grows.
pub fn verdict(alloc: Global, accepted: &Accepted<'_>) -> Result<Vec<u8>, AllocError>
    ensures { IfOk result (λ text. IsVerdict accepted.now text.items) }
{
    let all = notices(alloc, accepted)?;
    let room = all.len().saturating_mul(BYTES_PER_NOTICE);
    let mut out = Vec::with_capacity(alloc, room.saturating_add(ACCEPTED.len()))?;
    for notice in &all {
        push_notice(*notice, &mut out)?;
    }
    out.extend_from_slice(ACCEPTED)?;
    Ok(out)
}
