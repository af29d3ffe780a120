// The new numbers of the records that pointers and records name.
ghost use Rattle.std.specs.Prelude.{◌≡◌, ◌<◌, ◌⊎◌, ◌↔◌, List, IsTrue, decimal};
ghost use Rattle.std.specs.Str.{bytes_eq};
ghost use Rattle.ged_line.specs.Bytes.{Bytes};
ghost use Rattle.ged_tree.specs.Trees.{Trees};
ghost use Rattle.ged_tree.specs.declared.payload.Payload.TheVariants.{Pointer as PointerPayload};
ghost use Rattle.ged_tree.specs.Places.{structure_at};
ghost use Rattle.ged_canon.specs.Normal.{numbered as spells_number};
ghost use Rattle.ged_canon.specs.inner.Working.{number_among, IsNumberingOf};

use ged_link::{Index, PointerCursor};
use itoa::Buffer;

/// Whether a text is the number. A function of its own, so that most names are told by their first letter alone.
#[inline(never)]
fn is_decimal(digits: &str, number: usize) -> bool
    ensures { result ≡ bytes_eq digits.now (decimal number) }
{
    let mut buffer = Buffer::new();
    digits == buffer.format(number)
}

/// Whether a name is X and the number.
#[inline(always)]
pub(crate) fn is_numbered(name: &str, number: usize) -> bool
    requires { 0 < number }
    ensures { IsTrue result ↔ (name.now ≡ spells_number number) }
{
    match name.strip_prefix('X') {
        Some(digits) => is_decimal(digits, number),
        None => false,
    }
}

/// Whether a pointer keeps its name where the record that it names gets this new number: 0 where the record gets none.
#[inline(always)]
pub(crate) fn is_kept_name(name: &str, number: usize) -> bool
    ensures { IsTrue result ↔ ((number ≡ 0) ⊎ (name.now ≡ spells_number number)) }
{
    number == 0 || is_numbered(name, number)
}

/// The new number of the record that the pointer at a place names, or 0 where it has none; the name is handed in. Pointers that are
/// asked for in the order of their places are found at once.
#[inline(always)]
pub(crate) fn new_number_at(
    index: &Index,
    numbers: &[usize],
    place: usize,
    name: &str,
    pointers: &mut PointerCursor,
) -> usize
    ensures { (d : Trees) (names : List Bytes) → IsNumberingOf d names index.now numbers.now → (structure_at d place).payload ≡ PointerPayload name.now →
        result ≡ number_among 1 names name.now }
{
    match index.record_at(place, name, &mut *pointers) {
        Some(number) => numbers.get(number).copied().unwrap_or(0),
        None => 0,
    }
}

/// The new number of the record whose identifier has this name, or 0 where it has none.
pub(crate) fn new_number_of(index: &Index, numbers: &[usize], name: &str) -> usize
    ensures { (d : Trees) (names : List Bytes) → IsNumberingOf d names index.now numbers.now → result ≡ number_among 1 names name.now }
{
    match index.record_named(name) {
        Some(number) => numbers.get(number).copied().unwrap_or(0),
        None => 0,
    }
}
