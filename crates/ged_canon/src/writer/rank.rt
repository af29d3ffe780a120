// The ranks of tags, which are compared in place of the tags.
ghost use Rattle.std.specs.Prelude.{◌≡◌, ◌<◌, ◌+◌, ◌↔◌, ℕ, IsTrue, slice_index_or};
ghost use Rattle.ged_line.specs.Names.{tag_order as order_of_tags};
ghost use Rattle.ged_canon.specs.inner.Ranks.{own_rank, tag_rank};

use ged_line::tag_order;
use std::cmp::Ordering;

/// How many bytes of a tag its rank has. Only longer tags of one rank need be read to be told apart.
pub(crate) const BYTES_IN_RANK: usize = 7;

/// A structure among its siblings: the rank of its tag, and its place among all structures. The tag itself is asked of the forest where
/// its rank does not tell all of it, so that what a sort moves is short.
#[derive(Clone, Copy, Debug)]
pub(crate) struct RankedSibling {
    pub(crate) rank: u64,
    pub(crate) place: usize,
}

/// A sibling with its tag, for the few that are told apart by more than their ranks.
#[derive(Clone, Copy, Debug)]
pub(crate) struct TaggedSibling<'a> {
    pub(crate) tag: &'a str,
    pub(crate) sibling: RankedSibling,

    ghost ranked: { sibling.rank ≡ tag_rank tag.now },
}

/// The byte at a place of a tag, or 0 behind its end.
#[inline(always)]
fn byte_at(tag: &[u8], place: usize) -> u64
    ensures value { result ≡ slice_index_or tag.now place 0 }
    ensures small { result < 256 }
{
    match tag.get(place) {
        Some(byte) => u64::from(*byte),
        None => 0,
    }
}

/// The rank of a tag that is not GEDC, of any length.
#[inline(always)]
fn rank_of_any(tag: &[u8]) -> u64
    ensures { result ≡ own_rank tag.now }
{
    let high = byte_at(tag, 0) * 0x1_0000 + byte_at(tag, 1) * 0x100 + byte_at(tag, 2);
    let low = byte_at(tag, 3) * 0x100_0000
        + byte_at(tag, 4) * 0x1_0000
        + byte_at(tag, 5) * 0x100
        + byte_at(tag, 6);
    let count = tag.len().min(BYTES_IN_RANK + 1) as u64;
    high * 0x100_0000_0000 + low * 0x100 + (count + 1)
}

/// The same, at once where the tag has three bytes. A function of its own, so that the path of tags of four bytes stays short.
#[inline(never)]
fn rank_of_other(tag: &[u8]) -> u64
    ensures { result ≡ own_rank tag.now }
{
    match tag {
        [a, b, c] => u64::from(u32::from_be_bytes([*a, *b, *c, 0])) * 0x1_0000_0000 + (3 + 1),
        _ => rank_of_any(tag),
    }
}

/// The rank of a tag: its first seven bytes, the first one highest, and as its last byte its length and one, which is 9 where it has more
/// than seven. That of GEDC is the lowest.
#[inline(always)]
pub(crate) fn rank_of(tag: &str) -> u64
    ensures rank { result ≡ tag_rank tag.now }
    ensures bytes { (at : ℕ) → slice_index_or tag.now at 0 < 256 }
{
    match tag.as_bytes() {
        [a, b, c, d] => {
            let number = u32::from_be_bytes([*a, *b, *c, *d]);
            if number == u32::from_be_bytes(*b"GEDC") {
                return 0;
            }
            u64::from(number) * 0x1_0000_0000 + (4 + 1)
        }
        bytes => rank_of_other(bytes),
    }
}

/// The order of two tags of more than seven bytes.
#[cold]
#[inline(never)]
fn order_of_long(tag: &str, other: &str) -> Ordering
    ensures { result ≡ order_of_tags tag.now other.now }
{
    tag_order(tag, other)
}

/// The order of two tags of these ranks, as [`tag_order`] tells it.
#[inline(always)]
pub(crate) fn ranked_order(rank: u64, tag: &str, other_rank: u64, other: &str) -> Ordering
    requires first { rank ≡ tag_rank tag.now }
    requires second { other_rank ≡ tag_rank other.now }
    ensures { result ≡ order_of_tags tag.now other.now }
{
    if rank == other_rank && rank % 256 > 8 {
        return order_of_long(tag, other);
    }
    rank.cmp(&other_rank)
}

/// Whether a tag of this rank may stand before another one of that rank in the order of tags, or is the same. Mostly the ranks alone tell it.
#[inline(always)]
pub(crate) fn may_precede(rank: u64, tag: &str, other_rank: u64, other: &str) -> bool
    requires first { rank ≡ tag_rank tag.now }
    requires second { other_rank ≡ tag_rank other.now }
    ensures { IsTrue result ↔ ¬ (order_of_tags tag.now other.now ≡ Ordering.Greater) }
{
    if rank < other_rank {
        return true;
    }
    ranked_order(rank, tag, other_rank, other) != Ordering::Greater
}
