// Whether two texts of one length are the same, told many bytes at a time.
ghost use Rattle.std.specs.Prelude.{◌≡◌, ◌≤◌, ◌<◌, ◌+◌, IsTrue, length, take, drop};

use std::simd::prelude::*;

/// How many bytes of long texts are compared at once.
const RUN: usize = 16;

/// The same of shorter ones.
const SHORT_RUN: usize = 8;

/// Up to how many bytes texts are compared without a loop, by four short runs.
const FEW: usize = 4 * SHORT_RUN;

/// Whether two texts are the same in the run at a place.
#[inline(always)]
fn is_same_run(text: &[u8], other: &[u8], at: usize) -> bool
    requires first { at + RUN ≤ length text.now }
    requires second { at + RUN ≤ length other.now }
    ensures { IsTrue result → take RUN (drop at text.now) ≡ take RUN (drop at other.now) }
{
    let run = u8x16::from_slice(&text[at..]);
    let other_run = u8x16::from_slice(&other[at..]);
    run.simd_eq(other_run).all()
}

/// The same in a short run.
#[inline(always)]
fn is_same_short_run(text: &[u8], other: &[u8], at: usize) -> bool
    requires first { at + SHORT_RUN ≤ length text.now }
    requires second { at + SHORT_RUN ≤ length other.now }
    ensures { IsTrue result → take SHORT_RUN (drop at text.now) ≡ take SHORT_RUN (drop at other.now) }
{
    let run = u8x8::from_slice(&text[at..]);
    let other_run = u8x8::from_slice(&other[at..]);
    run.simd_eq(other_run).all()
}

/// Whether two texts of at least [`SHORT_RUN`] bytes and at most [`FEW`] are the same: by four short runs that reach over all of them, and
/// over some bytes twice. All four are always looked at, since how long a line is can't be foreseen, and a branch that is taken as often as
/// not costs more than they do.
#[inline(always)]
fn are_same_few(text: &[u8], other: &[u8]) -> bool
    requires alike { length text.now ≡ length other.now }
    requires some { SHORT_RUN ≤ length text.now }
    requires few { length text.now ≤ FEW }
    ensures { IsTrue result → text.now ≡ other.now }
{
    let last = text.len() - SHORT_RUN;
    let second = last.min(SHORT_RUN);
    let third = last.saturating_sub(SHORT_RUN);
    let front = is_same_short_run(text, other, 0) & is_same_short_run(text, other, second);
    let back = is_same_short_run(text, other, third) & is_same_short_run(text, other, last);
    front & back
}

/// Whether two texts of more than [`FEW`] bytes are the same. The last run ends where the texts end, and may have bytes of the one before it.
#[inline(always)]
fn are_same_many(text: &[u8], other: &[u8]) -> bool
    requires alike { length text.now ≡ length other.now }
    requires many { FEW < length text.now }
    ensures { IsTrue result → text.now ≡ other.now }
{
    let last = text.len() - RUN;
    let mut at = 0;
    while at < last {
        if !is_same_run(text, other, at) {
            return false;
        }
        at += RUN;
    }
    is_same_run(text, other, last)
}

/// Whether two texts of one length are the same.
#[inline(always)]
pub(crate) fn are_same(text: &[u8], other: &[u8]) -> bool
    requires { length text.now ≡ length other.now }
    ensures { IsTrue result → text.now ≡ other.now }
{
    if text.len() < SHORT_RUN {
        return text == other;
    }
    if text.len() > FEW {
        return are_same_many(text, other);
    }
    are_same_few(text, other)
}

/// Whether two texts, of any lengths, are told to be the same.
#[inline(always)]
pub(crate) fn is_same_text(text: &[u8], other: &[u8]) -> bool
    ensures { IsTrue result → text.now ≡ other.now }
{
    text.len() == other.len() && are_same(text, other)
}
