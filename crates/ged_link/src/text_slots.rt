// The slots of records that are found by the texts of their names.
ghost use Rattle.std.specs.Prelude.{◌≡◌, ◌<◌, ◌≤◌, ◌+◌, ◌%◌, ℕ, true, false, MatchBool, IfSome, IsSome, Ok, Some, None, length, slice_index_or};
ghost use Rattle.ged_link.specs.Texts.{text_in, is_slot_of, kept_among, kept_for, first_slot, slots_of, text_hash, free, HasNoRoom, AreWithin};
ghost use Rattle.ged_link.specs.inner.Texts.{MayStandAt, FitsSlot, IsSlotFor, KeepsText};

use crate::index::RecordPlace;
use std::alloc::AllocError;
use std::hash::{FoldHasher, Hasher};
use std::mem::size_of;

/// A record by its name, whose text stands among those of all names, or none: then the text has no bytes.
#[derive(Clone, Copy)]
pub(crate) struct TextSlot {
    /// The last bits of the name's hash, so that few texts are compared in vain.
    pub(crate) tag: u16,
    /// How many bytes the text has.
    pub(crate) length: u16,
    /// Where it begins among the bytes of all texts.
    pub(crate) start: u32,
    pub(crate) number: u32,
    pub(crate) place: u32,
}

const _: () = prove!(size_of::<TextSlot>() == 16);

/// A slot without a name.
pub(crate) const FREE: TextSlot = TextSlot {
    tag: 0,
    length: 0,
    start: 0,
    number: 0,
    place: 0,
};

impl TextSlot {
    /// The text of its name.
    #[inline(always)]
    fn text<'t>(&self, texts: &'t [u8]) -> &'t [u8]
        ensures { result.now ≡ text_in texts.now self.now }
    {
        let start = self.start as usize;
        match texts.get(start..start + self.length as usize) {
            Some(text) => text,
            None => &[],
        }
    }

    /// Whether it is a name's, whose hash ends in these bits.
    #[inline(always)]
    fn is_of(&self, tag: u16, name: &[u8], texts: &[u8]) -> bool
        ensures { result ≡ is_slot_of texts.now name.now tag self.now }
    {
        self.tag == tag && self.length != 0 && self.text(texts) == name
    }
}

/// The last bits of a hash.
#[inline(always)]
fn tag_of(hash: u64) -> u16
    ensures { result ≡ hash % 65536 }
{
    (hash % 0x1_0000) as u16
}

/// How many slots a name may have, one behind the other. So whatever names a file has, no search for one is long.
const WINDOW: usize = 8;

/// The first of the slots that a name with this hash may have.
#[inline(always)]
fn first_of(room: usize, hash: u64) -> usize
    requires { room < 4294967296 }
    ensures { result ≡ first_slot room hash }
{
    (((hash >> 32) * room as u64) >> 32) as usize
}

/// The slots that a name with this hash may have.
#[inline(always)]
fn window(slots: &[TextSlot], hash: u64) -> &[TextSlot]
    requires { length slots.now < 4294967296 }
    ensures { result.now ≡ slots_of slots.now hash }
{
    let behind = match slots.get(first_of(slots.len(), hash)..) {
        Some(behind) => behind,
        None => &[],
    };
    match behind.get(..WINDOW) {
        Some(window) => window,
        None => behind,
    }
}

/// What the first of some slots keeps that is a name's.
#[inline(always)]
fn find_among(slots: &[TextSlot], texts: &[u8], name: &[u8], tag: u16) -> Option<RecordPlace>
    ensures { result ≡ kept_among texts.now name.now tag slots.now }
{
    for slot in slots {
        if slot.is_of(tag, name, texts) {
            return Some(RecordPlace {
                number: slot.number as usize,
                place: slot.place as usize,
            });
        }
    }
    None
}

/// What is kept for a name that has this hash.
#[inline(always)]
pub(crate) fn find_kept(
    slots: &[TextSlot],
    texts: &[u8],
    name: &[u8],
    hash: u64,
) -> Option<RecordPlace>
    requires { length slots.now < 4294967296 }
    ensures { result ≡ kept_for slots.now texts.now name.now hash }
{
    find_among(window(slots, hash), texts, name, tag_of(hash))
}

/// How many slots stand before the first free one.
#[inline(always)]
fn used_before(slots: &[TextSlot]) -> usize
    ensures inside { result ≤ length slots.now }
    ensures used { (at : ℕ) → at < result → 0 < (slice_index_or slots.now at free).length }
    ensures free { result < length slots.now → (slice_index_or slots.now result free).length ≡ 0 }
{
    slots
        .iter()
        .position(|slot: &TextSlot| slot.length == 0)
        .unwrap_or(slots.len())
}

/// The first free slot of those that a name with this hash may have.
#[inline(always)]
fn free_slot(slots: &[TextSlot], hash: u64) -> Option<usize>
    requires { length slots.now < 4294967296 }
    ensures free { IfSome result (MayStandAt slots.now hash) }
    ensures full { result ≡ None → HasNoRoom slots.now hash }
{
    let window = window(slots, hash);
    let used = used_before(window);
    if used < window.len() {
        Some(first_of(slots.len(), hash) + used)
    } else {
        None
    }
}

/// Whether a slot is free of those that a name with this hash may have.
#[inline(always)]
pub(crate) fn has_room(slots: &[TextSlot], hash: u64) -> bool
    requires { length slots.now < 4294967296 }
    ensures { MatchBool result ((at : ℕ) × MayStandAt slots.now hash at) (HasNoRoom slots.now hash) }
{
    match free_slot(slots, hash) {
        Some(_) => true,
        None => false,
    }
}

/// The slot of a name with this hash, whose text is to stand at `start`; or `None` where that, the name or the record does not fit.
fn slot_for(hash: u64, start: usize, name: &[u8], found: RecordPlace) -> Option<TextSlot>
    ensures slot { IfSome result (IsSlotFor hash start name.now found) }
    ensures fits { FitsSlot start name.now found → IsSome result }
{
    let Ok(start) = u32::try_from(start) else {
        return None;
    };
    let Ok(length) = u16::try_from(name.len()) else {
        return None;
    };
    let Ok(number) = u32::try_from(found.number) else {
        return None;
    };
    let Ok(place) = u32::try_from(found.place) else {
        return None;
    };
    Some(TextSlot {
        tag: tag_of(hash),
        length,
        start,
        number,
        place,
    })
}

/// The hash of a name under a key. Names can be chosen that have one hash under one key in 2^27 ([`crate::keys::Keyed`]): but the first of
/// these then fill the slots that they all may have.
#[inline(always)]
pub(crate) fn hash_text(key: u64, name: &[u8]) -> u64
    ensures { result ≡ text_hash key name.now }
{
    let mut hasher = FoldHasher::default();
    hasher.write_u64(key);
    hasher.write(name);
    hasher.finish()
}

/// Keeps a record for a name, for which none is kept, in a slot that is free, and the name's text behind all others. The answer is
/// whether it is kept: it is not where no slot that the name may have is free, or what is to stand there does not fit. Grows.
pub(crate) fn keep_text(
    slots: &mut [TextSlot],
    texts: &mut Vec<u8>,
    name: &[u8],
    hash: u64,
    found: RecordPlace,
) -> Result<bool, AllocError>
    requires few { length slots.old < 4294967296 }
    requires within { AreWithin texts.old.items slots.old }
    requires named { 0 < length name.now }
    requires missed { kept_for slots.old texts.old.items name.now hash ≡ None }
    ensures kept { result ≡ Ok true → KeepsText slots.old texts.old.items slots.new texts.new.items name.now hash found }
    ensures full { result ≡ Ok false → FitsSlot (length texts.old.items) name.now found → HasNoRoom slots.old hash }
    ensures same { result ≡ Ok false → (slots.new ≡ slots.old) × (texts.new ≡ texts.old) }
    ensures crowded { (other : ℕ) → HasNoRoom slots.old other → HasNoRoom slots.new other }
    ensures within { AreWithin texts.new.items slots.new }
    ensures few { length slots.new ≡ length slots.old }
{
    let Some(at) = free_slot(slots, hash) else {
        return Ok(false);
    };
    let Some(slot) = slot_for(hash, texts.len(), name, found) else {
        return Ok(false);
    };
    texts.extend_from_slice(name)?;
    slots[at] = slot;
    Ok(true)
}
