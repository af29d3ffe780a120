// Whether the letter stands among bytes that the keyword of the default calendar begins with, told many bytes at a time.
ghost use Rattle.std.specs.Prelude.{◌≡◌, ◌≤◌, ◌==◌, ◌+◌, length, take, drop};
ghost use Rattle.std.specs.List.{list_any};

use std::simd::prelude::*;

/// How many bytes are looked at together.
const RUN: usize = 16;

/// Whether a G stands in the run of bytes at a place.
#[inline(always)]
fn has_g_in_run(bytes: &[u8], at: usize) -> bool
    requires { at + RUN ≤ length bytes.now }
    ensures { result ≡ list_any (λ b. b == 71) (take RUN (drop at bytes.now)) }
{
    let run = u8x16::from_slice(&bytes[at..]);
    run.simd_eq(u8x16::splat(b'G')).any()
}

/// Whether a G stands among bytes, as it does where GREGORIAN does. Most lines with a date have as many bytes as two runs reach over, of
/// which the second ends where the line does, and may have bytes of the first.
#[inline(always)]
pub(crate) fn has_g(bytes: &[u8]) -> bool
    ensures { result ≡ list_any (λ b. b == 71) bytes.now }
{
    if bytes.len() < RUN || bytes.len() > 2 * RUN {
        return bytes.contains(&b'G');
    }
    has_g_in_run(bytes, 0) || has_g_in_run(bytes, bytes.len() - RUN)
}
