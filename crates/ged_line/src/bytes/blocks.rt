// Blocks of whole lines.
ghost use Rattle.std.specs.Prelude.{◌≡◌, ◌++◌, ◌<◌, length};
ghost use Rattle.ged_line.specs.Pieces.{pieces_of};

use memchr::memchr;

/// The length of a block, in bytes, but for the line at its end: short enough to stay in the processor's cache. Only line feeds are
/// looked for, so a file whose lines end with CR alone is one block.
const BLOCK: usize = 65536;

/// A block of whole lines, and the bytes behind it. The last block alone may end without a line feed.
pub(crate) fn split_block(bytes: &[u8]) -> (&[u8], &[u8])
    ensures pieces { pieces_of bytes.now ≡ pieces_of result.0.now ++ pieces_of result.1.now }
    ensures parts { bytes.now ≡ result.0.now ++ result.1.now }
    ensures some { 0 < length bytes.now → 0 < length result.0.now }
{
    if bytes.len() <= BLOCK {
        return (bytes, &[]);
    }
    match memchr(b'\n', &bytes[BLOCK..]) {
        Some(at) => bytes.split_at(BLOCK + at + 1),
        None => (bytes, &[]),
    }
}
