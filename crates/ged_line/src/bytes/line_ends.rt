// The first line end of bytes, sought many bytes at a time.
ghost use Rattle.std.specs.Prelude.{◌≡◌, ◌↔◌, ℕ, ◌+◌, ◌<◌, ◌≤◌, length};
ghost use Rattle.std.specs.Int.{bit_at};
ghost use Rattle.memchr.specs.Find.{IsFirst, IsFirstByte, Passes, is_byte2};
ghost use Rattle.ged_line.specs.Bytes.{carriage_return, line_feed};
ghost use Rattle.ged_line.specs.inner.ByteTests.{is_special};

use memchr::memchr2;
use std::simd::prelude::*;

/// Most ends are so near that the first run of bytes holds them.
const RUN: usize = 32;

/// Bit k is set where byte k of the run at a place is a CR or LF.
#[inline(always)]
fn marks(bytes: &[u8], at: usize) -> u64
    requires { at + RUN ≤ length bytes.now }
    ensures { (k : ℕ) → (bit_at result k ≡ 1) ↔ ((k < RUN) × Passes (is_byte2 carriage_return line_feed) bytes.now (at + k)) }
{
    let run = u8x32::from_slice(&bytes[at..]);
    let ends = run.simd_eq(u8x32::splat(b'\r')) | run.simd_eq(u8x32::splat(b'\n'));
    ends.to_bitmask()
}

/// The first CR or LF of the run at a place.
#[inline(always)]
fn end_in_run(bytes: &[u8], at: usize) -> Option<usize>
    requires { at + RUN ≤ length bytes.now }
    ensures { IsFirst (Passes (is_byte2 carriage_return line_feed) bytes.now) at (at + RUN) result }
{
    let ends = marks(bytes, at);
    if ends == 0 {
        return None;
    }
    Some(at + ends.trailing_zeros() as usize)
}

/// The first CR or LF. Most are so near that a call of `memchr2` would take longer than the search itself.
#[inline(always)]
pub(crate) fn first_end(bytes: &[u8]) -> Option<usize>
    ensures { IsFirstByte (is_byte2 carriage_return line_feed) bytes.now result }
{
    if bytes.len() < RUN {
        return memchr2(b'\r', b'\n', bytes);
    }
    let last = bytes.len() - RUN;
    let mut at = 0;
    while at < last {
        if let Some(end) = end_in_run(bytes, at) {
            return Some(end);
        }
        at += RUN;
    }
    end_in_run(bytes, last)
}

/// Bit k is set where byte k of the run at a place is special.
#[inline(always)]
fn special_marks(bytes: &[u8], at: usize) -> u64
    requires { at + RUN ≤ length bytes.now }
    ensures { (k : ℕ) → (bit_at result k ≡ 1) ↔ ((k < RUN) × Passes is_special bytes.now (at + k)) }
{
    let run = u8x32::from_slice(&bytes[at..]);
    let control = run.simd_lt(u8x32::splat(b' '));
    let other = run.simd_eq(u8x32::splat(0x7F)) | run.simd_eq(u8x32::splat(0xEF));
    (control | other).to_bitmask()
}

/// The first special byte of the run at a place.
#[inline(always)]
fn special_in_run(bytes: &[u8], at: usize) -> Option<usize>
    requires { at + RUN ≤ length bytes.now }
    ensures { IsFirst (Passes is_special bytes.now) at (at + RUN) result }
{
    let marks = special_marks(bytes, at);
    if marks == 0 {
        return None;
    }
    Some(at + marks.trailing_zeros() as usize)
}

fn is_special_byte(byte: u8) -> bool
    ensures { result ≡ is_special byte }
{
    byte < 0x20 || byte == 0x7F || byte == 0xEF
}

/// The first special byte: one that ends a line, or may belong to a character that may not stand in one. A tab counts as one,
/// since few lines have any, and it takes time to tell it from other control characters.
#[inline(always)]
pub(crate) fn first_special(bytes: &[u8]) -> Option<usize>
    ensures { IsFirstByte is_special bytes.now result }
{
    if bytes.len() < RUN {
        return bytes.iter().position(|byte| is_special_byte(*byte));
    }
    let last = bytes.len() - RUN;
    let mut at = 0;
    while at < last {
        if let Some(found) = special_in_run(bytes, at) {
            return Some(found);
        }
        at += RUN;
    }
    special_in_run(bytes, last)
}
