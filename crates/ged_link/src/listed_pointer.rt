// What is listed of a pointer while its line is read: enough to follow it without another look at its text.
ghost use Rattle.std.specs.Prelude.{◌≡◌, ◌+◌, ◌<◌, ◌^◌, ℕ, Some, IfSome, IsSome};
ghost use Rattle.ged_line.specs.Bytes.{Bytes};
ghost use Rattle.ged_link.specs.NameNumbers.{counted_number, short_number};
ghost use Rattle.ged_link.specs.inner.PointerLists.{entry_in, IsListedPointer};
ghost use Rattle.ged_link.specs.inner.PointerTags.{IsTold};

use crate::listing::{halves, joined};
use crate::names::{BITS_END, counted_bits};
use crate::pointer_tag::PointerTag;
use crate::targets::Target;

/// Of a pointer of which nothing is listed, since its name is not counted, or 32 bits do not hold the count.
pub(crate) const NOT_LISTED: Target = Target {
    place: 0,
    number: 0,
};

/// What is told of a pointer that is listed: what varies of the number of the name ([`counted_bits`]), and what the tag tells.
#[derive(Clone, Copy)]
pub(crate) struct ListedPointer {
    pub(crate) bits: u64,
    pub(crate) told: PointerTag,
}

/// What is listed of a pointer with a tag to a name, in the two words of the target that is to take its place: the bits of the name's
/// number, the code of the tag above them, and a bit above that, which says that something is listed. A function of its own, so that the
/// line stays in registers.
#[inline(never)]
pub(crate) fn list_pointer(tag: &str, name: &str) -> Target
    ensures told { IsListedPointer result tag.now name.now }
    ensures found { (bits : ℕ) → counted_number name.now ≡ Some (2 ^ 63 + bits) → bits < 2 ^ 44 → 0 < entry_in result }
{
    let Some(bits) = counted_bits(name) else {
        return NOT_LISTED;
    };
    let entry = bits + BITS_END * (PointerTag::of(tag).code() + 16);
    let (place, number) = halves(entry);
    Target { place, number }
}

/// What is listed in the words of a target.
#[inline(always)]
pub(crate) fn listed_in(target: Target) -> Option<ListedPointer>
    ensures found { 0 < entry_in target → IsSome result }
    ensures small { IfSome result (λ listed. listed.bits < 2 ^ 44) }
    ensures told { (tag name : Bytes) → IsListedPointer target tag name
        → IfSome result (λ listed. (short_number name ≡ Some (2 ^ 63 + listed.bits)) × IsTold listed.told tag) }
{
    let entry = joined((target.place, target.number));
    if entry == 0 {
        return None;
    }
    let bits = entry % BITS_END;
    let told = PointerTag::of_code(entry / BITS_END % 16);
    Some(ListedPointer { bits, told })
}
