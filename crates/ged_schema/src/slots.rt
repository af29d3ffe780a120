// The number of a tag's row in a context, by one look into a table.
ghost use Rattle.std.specs.Prelude.{◌≡◌, ◌<◌, ◌≤◌, ◌+◌, ◌*◌, ◌%◌, ℕ, IfSome, MatchOption, None, Some, true, length, map, option_map, slice_get};
ghost use Rattle.std.specs.Option.{option_copied};
ghost use Rattle.ged_schema.specs.Rows.{Row, as_row};
ghost use Rattle.ged_schema.specs.Tables.{row, rows as rows_of};
ghost use Rattle.ged_schema.specs.inner.Lookups.{row_of, TellsNumber};
ghost use Rattle.ged_schema.specs.Slots.{are_numbered, kept_number, slot_by, slot_from};

use crate::context::Context;
use crate::rule::Rule;
use crate::tables::rows;
use ged_line::is_same_tag;

/// At the slot of each row's tag, the number of the row in its context; 0 at the slots that no row has.
///
/// A slot is the sum of the context's seed and of the highest bits of a product: of four bytes of the tag, read as one number, and of
/// [`FACTOR`]. The script crates/ged_schema/tools/slots.py found the factor and the seeds: the contexts with the most rows first, each
/// gets the least seed that puts none of its rows on a slot which keeps another number. Nothing rests on how they were found: `seed_of`
/// promises that each row's number is kept at its slot, and the proof computes every one.
static SLOTS: [u8; 512] = [
    0, 0, 0, 0, 0, 0, 0, 0, 2, 11, 0, 0, 0, 1, 0, 0, 0, 0, 0, 0, 24, 0, 0, 0, 0, 0, 0, 0, 0, 0, 50,
    0, 11, 0, 0, 0, 0, 0, 0, 0, 18, 0, 0, 0, 0, 0, 0, 18, 5, 0, 39, 2, 0, 58, 6, 12, 0, 0, 15, 0,
    3, 0, 0, 2, 0, 0, 0, 0, 0, 0, 3, 0, 6, 2, 0, 0, 0, 0, 0, 0, 25, 14, 0, 0, 27, 0, 57, 0, 2, 2,
    0, 3, 42, 6, 2, 0, 61, 3, 0, 0, 0, 0, 4, 6, 2, 0, 7, 0, 27, 19, 0, 0, 0, 0, 0, 0, 0, 26, 0, 0,
    0, 0, 13, 7, 1, 0, 0, 30, 22, 0, 10, 0, 1, 0, 0, 17, 3, 0, 0, 0, 0, 0, 5, 0, 51, 0, 5, 0, 0, 0,
    0, 7, 0, 1, 0, 0, 7, 54, 9, 5, 23, 12, 1, 0, 0, 0, 0, 3, 16, 4, 0, 0, 34, 5, 47, 20, 0, 0, 8,
    0, 0, 1, 0, 52, 0, 0, 0, 0, 23, 0, 46, 0, 0, 0, 0, 0, 0, 60, 3, 0, 7, 0, 0, 0, 0, 19, 0, 0, 44,
    0, 0, 0, 0, 0, 21, 0, 0, 0, 17, 0, 0, 0, 4, 0, 0, 5, 0, 0, 29, 8, 0, 0, 0, 0, 20, 0, 13, 8, 0,
    0, 10, 59, 0, 0, 0, 0, 32, 0, 0, 0, 0, 0, 4, 0, 0, 0, 13, 0, 3, 0, 0, 15, 40, 1, 0, 6, 0, 0,
    41, 0, 0, 0, 28, 0, 0, 2, 0, 4, 0, 0, 12, 26, 0, 0, 0, 0, 0, 0, 0, 0, 4, 0, 0, 0, 0, 0, 0, 0,
    0, 10, 0, 0, 0, 0, 0, 56, 5, 10, 4, 0, 2, 1, 5, 0, 0, 0, 21, 7, 35, 0, 0, 3, 55, 4, 9, 0, 29,
    1, 0, 0, 2, 17, 1, 0, 0, 0, 25, 0, 2, 0, 0, 36, 0, 43, 14, 0, 0, 0, 0, 9, 0, 19, 0, 24, 0, 0,
    0, 0, 1, 0, 0, 0, 0, 0, 0, 0, 8, 0, 0, 0, 0, 0, 28, 0, 0, 0, 38, 0, 0, 0, 0, 0, 45, 16, 0, 0,
    0, 15, 0, 9, 16, 0, 1, 0, 0, 0, 0, 30, 8, 0, 0, 0, 0, 0, 14, 1, 0, 0, 0, 0, 0, 0, 19, 0, 3, 0,
    0, 0, 0, 0, 4, 0, 0, 0, 0, 0, 1, 1, 10, 48, 0, 3, 0, 0, 0, 0, 37, 0, 0, 0, 0, 20, 0, 0, 0, 0,
    0, 0, 0, 0, 0, 0, 0, 0, 0, 0, 0, 0, 0, 0, 0, 1, 0, 11, 20, 0, 0, 6, 0, 31, 53, 0, 9, 0, 0, 0,
    6, 18, 0, 0, 0, 0, 0, 0, 0, 6, 0, 0, 0, 0, 0, 0, 0, 49, 0, 0, 0, 0, 0, 0, 0, 22, 33, 0, 0, 0,
    0, 0, 0, 0, 0, 0,
];

/// The seed of the slots of each context's tags, in the order of the contexts.
static SEEDS: [u16; 34] = [
    7, 2, 0, 0, 5, 0, 0, 1, 1, 2, 1, 0, 82, 82, 82, 82, 1, 16, 6, 44, 13, 31, 82, 82, 3, 5, 5, 0,
    16, 1, 0, 11, 0, 0,
];

/// The seed of the slots of a context's tags. It is read from a table rather than told by a match: a jump that hangs on the context is
/// one that the processor seldom foresees.
#[inline(always)]
pub(crate) fn seed_of(context: Context) -> usize
    ensures small { result < 512 }
    ensures kept { are_numbered (kept_number result) 0 (rows_of context) ≡ true }
{
    usize::from(SEEDS[context as usize])
}

/// How many rows each context has, in the order of the contexts.
static COUNTS: [u8; 34] = [
    8, 11, 1, 1, 4, 2, 1, 1, 2, 1, 1, 62, 20, 20, 21, 21, 1, 4, 2, 11, 7, 31, 21, 21, 1, 4, 3, 1,
    5, 7, 2, 4, 0, 0,
];

/// How many rows a context has.
#[inline(always)]
fn count_of(context: Context) -> usize
    ensures { result ≡ length (rows_of context) }
{
    usize::from(COUNTS[context as usize])
}

/// By which four bytes of a tag are multiplied, so that the highest bits of the product depend on all of them.
const FACTOR: u32 = 0x2E2A_C0EA;

/// The slot of a tag by four of its bytes, the first three and the last one. They tell the tags of each context apart.
#[inline(always)]
fn slot_at(seed: usize, first: u8, second: u8, third: u8, last: u8) -> usize
    requires { seed < 512 }
    ensures small { result < 512 }
    ensures told { result ≡ slot_by seed first second third last }
{
    let four = u32::from_le_bytes([first, second, third, last]);
    let spread = four.wrapping_mul(FACTOR) / 0x80_0000;
    (seed + spread as usize) % 512
}

/// The slot of a tag. Most tags have four bytes, which are read as one number.
#[inline(always)]
fn slot_of(seed: usize, tag: &[u8]) -> usize
    requires { seed < 512 }
    ensures small { result < 512 }
    ensures told { result ≡ slot_from seed tag.now }
{
    match tag {
        [first, second, third, last] => slot_at(seed, *first, *second, *third, *last),
        _ => slot_of_other(seed, tag),
    }
}

/// The same of a tag of any length.
#[inline(always)]
fn slot_of_other(seed: usize, tag: &[u8]) -> usize
    requires { seed < 512 }
    ensures small { result < 512 }
    ensures told { result ≡ slot_from seed tag.now }
{
    if let [first, second, third, .., last] = tag {
        return slot_at(seed, *first, *second, *third, *last);
    }
    match tag {
        [first, second, third] => slot_at(seed, *first, *second, *third, *third),
        [first, second] => slot_at(seed, *first, *second, 0, *second),
        [first] => slot_at(seed, *first, 0, 0, *first),
        _ => slot_at(seed, 0, 0, 0, 0),
    }
}

/// The number of a tag's row among so many rows of a context, counted from 0, where the seed is that of the context.
#[inline(always)]
fn number_by_slot(rules: &[Rule], count: usize, seed: usize, tag: &str) -> Option<usize>
    requires count { count ≡ length rules.now }
    requires small { seed < 512 }
    requires few { length rules.now ≤ 64 }
    requires kept { are_numbered (kept_number seed) 0 (map as_row rules.now) ≡ true }
    ensures { TellsNumber (map as_row rules.now) tag.now result }
{
    let number = usize::from(SLOTS[slot_of(seed, tag.as_bytes())]);
    if number < count && is_same_tag(rules[number].tag, tag) {
        Some(number)
    } else {
        None
    }
}

/// The same of any tag. A function of its own, so that the path of most tags stays short.
#[inline(never)]
fn number_of_any(rules: &[Rule], count: usize, seed: usize, tag: &str) -> Option<usize>
    requires count { count ≡ length rules.now }
    requires small { seed < 512 }
    requires few { length rules.now ≤ 64 }
    requires kept { are_numbered (kept_number seed) 0 (map as_row rules.now) ≡ true }
    ensures { TellsNumber (map as_row rules.now) tag.now result }
{
    number_by_slot(rules, count, seed, tag)
}

/// The same, at once where the tag has four bytes and a row, as most have. Any other is looked up once more, by a call: of two branches
/// that answer without one the compiler would make one answer, and ask that once more whether there is a row.
#[inline(always)]
fn number_within(rules: &[Rule], count: usize, seed: usize, tag: &str) -> Option<usize>
    requires count { count ≡ length rules.now }
    requires small { seed < 512 }
    requires few { length rules.now ≤ 64 }
    requires kept { are_numbered (kept_number seed) 0 (map as_row rules.now) ≡ true }
    ensures { TellsNumber (map as_row rules.now) tag.now result }
{
    if tag.len() == 4
        && let Some(number) = number_by_slot(rules, count, seed, tag)
    {
        return Some(number);
    }
    number_of_any(rules, count, seed, tag)
}

/// The same among all the rows. A walk over structures that stand side by side asks for rows and seed once.
#[inline(always)]
pub(crate) fn number_among(rules: &[Rule], seed: usize, tag: &str) -> Option<usize>
    requires small { seed < 512 }
    requires few { length rules.now ≤ 64 }
    requires kept { are_numbered (kept_number seed) 0 (map as_row rules.now) ≡ true }
    ensures { TellsNumber (map as_row rules.now) tag.now result }
{
    number_within(rules, rules.len(), seed, tag)
}

/// The row of a tag among the rows of a context, where the seed is that of the context.
#[inline(always)]
pub(crate) fn rule_among(rules: &'static [Rule], seed: usize, tag: &str) -> Option<&'static Rule>
    requires small { seed < 512 }
    requires few { length rules.now ≤ 64 }
    requires kept { are_numbered (kept_number seed) 0 (map as_row rules.now) ≡ true }
    ensures { option_map as_row (option_copied result) ≡ row_of (map as_row rules.now) tag.now }
{
    match number_among(rules, seed, tag) {
        Some(number) => Some(&rules[number]),
        None => None,
    }
}

/// The number of a tag's row among the rows of a context, counted from 0. How many rows there are is read from a table, as the seed
/// is.
#[inline(always)]
pub(crate) fn row_number(context: Context, tag: &str) -> Option<usize>
    ensures row { MatchOption result (row context tag.now ≡ None)
        (λ number. (number < length (rows_of context)) × (slice_get (rows_of context) number ≡ row context tag.now)) }
    ensures small { IfSome result (λ number. number < 64) }
    ensures only { (number : ℕ) (r : Row) → slice_get (rows_of context) number ≡ Some r → r.tag ≡ tag.now → result ≡ Some number }
{
    number_within(rows(context), count_of(context), seed_of(context), tag)
}
