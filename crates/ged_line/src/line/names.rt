// Tags and cross-reference identifiers.
ghost use Rattle.std.specs.Prelude.{◌≡◌, ◌<◌, ◌≤◌, ◌↔◌, ℕ, length, slice_index, true, false, IfSome};
ghost use Rattle.ged_line.specs.inner.Ranks.{four_rank, number_rank};
ghost use Rattle.std.specs.Bool.{OnTrue};
ghost use Rattle.std.specs.Int.{bit_at};
ghost use Rattle.std.specs.List.{list_all};
ghost use Rattle.std.specs.Str.{bytes_eq};
ghost use Rattle.ged_line.specs.Characters.{is_tag_character as tests_tag_character};
ghost use Rattle.std.specs.Char.{is_ascii_uppercase};
ghost use Rattle.ged_line.specs.Names.{is_tag as tests_tag, is_xref as tests_xref, tag_order as order_of_tags};

use std::cmp::Ordering;
use std::simd::prelude::*;

/// Whether each byte is a tag character. One look takes the place of three comparisons, of which a digit needs all.
static TAG_CHARACTERS: [bool; 256] = [
    false, false, false, false, false, false, false, false, false, false, false, false, false,
    false, false, false, false, false, false, false, false, false, false, false, false, false,
    false, false, false, false, false, false, false, false, false, false, false, false, false,
    false, false, false, false, false, false, false, false, false, true, true, true, true, true,
    true, true, true, true, true, false, false, false, false, false, false, false, true, true,
    true, true, true, true, true, true, true, true, true, true, true, true, true, true, true, true,
    true, true, true, true, true, true, true, true, false, false, false, false, true, false, false,
    false, false, false, false, false, false, false, false, false, false, false, false, false,
    false, false, false, false, false, false, false, false, false, false, false, false, false,
    false, false, false, false, false, false, false, false, false, false, false, false, false,
    false, false, false, false, false, false, false, false, false, false, false, false, false,
    false, false, false, false, false, false, false, false, false, false, false, false, false,
    false, false, false, false, false, false, false, false, false, false, false, false, false,
    false, false, false, false, false, false, false, false, false, false, false, false, false,
    false, false, false, false, false, false, false, false, false, false, false, false, false,
    false, false, false, false, false, false, false, false, false, false, false, false, false,
    false, false, false, false, false, false, false, false, false, false, false, false, false,
    false, false, false, false, false, false, false, false, false, false, false, false, false,
    false, false, false, false, false, false, false, false, false, false, false, false, false,
    false, false,
];

#[inline(always)]
fn is_tag_character(byte: u8) -> bool
    ensures { result ≡ tests_tag_character byte }
{
    TAG_CHARACTERS[usize::from(byte)]
}

/// Whether bytes begin with four capital letters, as most tags do.
// A capital letter is the letter nearest to it, and no other byte is. Four bytes are compared at once as a number, which is
// cheaper than a mask of the four.
#[inline(always)]
pub(crate) fn begins_with_capitals(bytes: &[u8]) -> bool
    ensures { OnTrue result ((4 ≤ length bytes.now) × ((at : ℕ) → at < 4 → is_ascii_uppercase (slice_index bytes.now at) ≡ true)) }
{
    match bytes {
        [first, second, third, fourth, ..] => {
            let four = u8x4::from_array([*first, *second, *third, *fourth]);
            let nearest = four.simd_clamp(u8x4::splat(b'A'), u8x4::splat(b'Z'));
            u32::from_le_bytes(nearest.to_array()) == u32::from_le_bytes(four.to_array())
        }
        _ => false,
    }
}

/// How many bytes of an identifier are looked at together. A tag follows an identifier, so nearly each has as many from it on.
const RUN: usize = 8;

/// Bit k is set where byte k of the first run is no tag character.
#[inline(always)]
fn other_marks(bytes: &[u8]) -> u64
    requires { RUN ≤ length bytes.now }
    ensures { (k : ℕ) → (bit_at result k ≡ 1) ↔ ((k < RUN) × (tests_tag_character (slice_index bytes.now k) ≡ false)) }
{
    let run = u8x8::from_slice(bytes);
    let no_letter = run.simd_lt(u8x8::splat(b'A')) | run.simd_gt(u8x8::splat(b'Z'));
    let no_digit = run.simd_lt(u8x8::splat(b'0')) | run.simd_gt(u8x8::splat(b'9'));
    (no_letter & no_digit & run.simd_ne(u8x8::splat(b'_'))).to_bitmask()
}

/// The number of tag characters that bytes begin with, byte by byte, as is best for few.
#[inline(always)]
fn few_tag_characters(bytes: &[u8]) -> usize
    ensures inside { result ≤ length bytes.now }
    ensures front { (at : ℕ) → at < result → tests_tag_character (slice_index bytes.now at) ≡ true }
    ensures stop { result < length bytes.now → tests_tag_character (slice_index bytes.now result) ≡ false }
{
    bytes
        .iter()
        .position(|byte| !is_tag_character(*byte))
        .unwrap_or(bytes.len())
}

/// The number of tag characters that a text begins with.
#[inline(always)]
pub(crate) fn any_tag_characters(text: &str) -> usize
    ensures inside { result ≤ length text.now }
    ensures front { (at : ℕ) → at < result → tests_tag_character (slice_index text.now at) ≡ true }
    ensures stop { result < length text.now → tests_tag_character (slice_index text.now result) ≡ false }
{
    few_tag_characters(text.as_bytes())
}

/// What [`any_tag_characters`] answers, by a run of bytes at once, as is best where a long name may stand.
#[inline(always)]
pub(crate) fn many_tag_characters(text: &str) -> usize
    ensures inside { result ≤ length text.now }
    ensures front { (at : ℕ) → at < result → tests_tag_character (slice_index text.now at) ≡ true }
    ensures stop { result < length text.now → tests_tag_character (slice_index text.now result) ≡ false }
{
    let bytes = text.as_bytes();
    if bytes.len() < RUN {
        return few_tag_characters(bytes);
    }
    let others = other_marks(bytes);
    if others == 0 {
        return RUN + few_tag_characters(&bytes[RUN..]);
    }
    others.trailing_zeros() as usize
}

fn are_tag_characters(bytes: &[u8]) -> bool
    ensures { result ≡ list_all tests_tag_character bytes.now }
{
    bytes.iter().all(|byte| is_tag_character(*byte))
}

/// Whether a text of tag characters is a tag.
pub(crate) fn begins_as_tag(characters: &str) -> bool
    requires { list_all tests_tag_character characters.now ≡ true }
    ensures { result ≡ tests_tag characters.now }
{
    match characters.as_bytes() {
        [] | [b'_'] => false,
        [first, ..] => !first.is_ascii_digit(),
    }
}

fn are_tag_bytes(bytes: &[u8]) -> bool
    ensures { result ≡ tests_tag bytes.now }
{
    match bytes.split_first() {
        None => false,
        Some((first, rest)) if *first == b'_' => !rest.is_empty() && are_tag_characters(rest),
        Some((first, rest)) => first.is_ascii_uppercase() && are_tag_characters(rest),
    }
}

/// Whether a text is a tag: a capital letter and any tag characters, or an underscore and one or more of them.
pub(crate) fn is_tag(text: &str) -> bool
    ensures { result ≡ tests_tag text.now }
{
    are_tag_bytes(text.as_bytes())
}

/// Whether a text of tag characters is the name of a cross-reference identifier.
#[inline(always)]
pub(crate) fn names_record(text: &str) -> bool
    requires { list_all tests_tag_character text.now ≡ true }
    ensures { result ≡ tests_xref text.now }
{
    !text.is_empty() && text != "VOID"
}

/// Whether a text is the name of a cross-reference identifier: one or more tag characters, but not `VOID`.
pub(crate) fn is_xref(text: &str) -> bool
    ensures { result ≡ tests_xref text.now }
{
    are_tag_characters(text.as_bytes()) && names_record(text)
}

/// Whether two texts are the same, asked of tags: most have four bytes, which are compared at once. Takes no memory.
#[inline(always)]
pub fn is_same_tag(tag: &str, other: &str) -> bool
    ensures { result ≡ bytes_eq tag.now other.now }
{
    match (tag.as_bytes(), other.as_bytes()) {
        ([a, b, c, d], [e, f, g, h]) => {
            u32::from_le_bytes([*a, *b, *c, *d]) == u32::from_le_bytes([*e, *f, *g, *h])
        }
        _ => tag == other,
    }
}

/// The order of tags, from the texts whole.
fn whole_order(tag: &str, other: &str) -> Ordering
    ensures { result ≡ order_of_tags tag.now other.now }
{
    match (tag == "GEDC", other == "GEDC") {
        (true, true) => Ordering::Equal,
        (true, false) => Ordering::Less,
        (false, true) => Ordering::Greater,
        (false, false) => tag.cmp(other),
    }
}

/// The order of tags. Most tags that begin with the same byte differ in their second one.
#[inline(never)]
fn order_of_alike(tag: &str, other: &str) -> Ordering
    ensures { result ≡ order_of_tags tag.now other.now }
{
    match (tag.as_bytes(), other.as_bytes()) {
        ([first, second, ..], [other_first, other_second, ..])
            if first == other_first && *first != b'G' && second != other_second => {
            second.cmp(other_second)
        }
        _ => whole_order(tag, other),
    }
}

/// The order of tags of which one has not four bytes.
// Most tags that are not the same differ in their first byte, and no other byte is then read, unless one of them may be GEDC.
#[inline(never)]
fn order_of_others(tag: &str, other: &str) -> Ordering
    ensures { result ≡ order_of_tags tag.now other.now }
{
    match (tag.as_bytes(), other.as_bytes()) {
        ([first, ..], [other_first, ..])
            if first != other_first && *first != b'G' && *other_first != b'G' => {
            first.cmp(other_first)
        }
        _ => order_of_alike(tag, other),
    }
}

#[inline(always)]
fn rank_of_number(number: u32) -> u64
    ensures { result ≡ number_rank number }
{
    if number == u32::from_be_bytes(*b"GEDC") {
        return 0;
    }
    u64::from(number) + 1
}

/// The rank of a tag of four bytes among all of these: GEDC has the lowest. Tags of other lengths have none.
#[inline(always)]
fn rank_of_four(tag: &[u8]) -> Option<u64>
    ensures { IfSome result (λ rank. (length tag.now ≡ 4) × (rank ≡ four_rank tag.now)) }
{
    match tag {
        [a, b, c, d] => Some(rank_of_number(u32::from_be_bytes([*a, *b, *c, *d]))),
        _ => None,
    }
}

/// The order of two tags, as [`crate::Tag::order`] answers it: GEDC before every other one, then by bytes. It is told for any
/// texts. Takes no memory.
// Most tags have four bytes, which are compared at once.
#[inline(always)]
pub fn tag_order(tag: &str, other: &str) -> Ordering
    ensures { result ≡ order_of_tags tag.now other.now }
{
    match (rank_of_four(tag.as_bytes()), rank_of_four(other.as_bytes())) {
        (Some(rank), Some(other_rank)) => rank.cmp(&other_rank),
        _ => order_of_others(tag, other),
    }
}
