// Records by the names of their cross-reference identifiers.
ghost use Rattle.std.specs.Prelude.{◌≡◌, ◌+◌, ◌∷◌, ◌<◌, ◌^◌, ◌↔◌, ℕ, IsTrue, IfOk, IfSome, OnOk, [], List, Option, Some, None, nat_eq};
ghost use Rattle.std.specs.Hash.DefaultHasher.{finish};
ghost use Rattle.std.specs.Option.{option_copied};
ghost use Rattle.std.specs.HashMap.{get, hasher_of, hash_map_len};
ghost use Rattle.ged_line.specs.Bytes.{Bytes};
ghost use Rattle.ged_link.specs.Links.{IsAmong};
ghost use Rattle.ged_link.specs.Indexes.{found_in};
ghost use Rattle.ged_link.specs.inner.Indexes.{HoldsShort, HoldsLong};
ghost use Rattle.ged_link.specs.TextRecords.{found_by_text};
ghost use Rattle.ged_link.specs.Slots.{number_read, slot_in, kept_in};
ghost use Rattle.ged_link.specs.NameNumbers.{count_read, counted_number, number_up_to, number_within, short_number};
ghost use Rattle.ged_link.specs.inner.Listing.{listed_name};
ghost use Rattle.ged_link.specs.inner.Resolving.{AddsRecord};
ghost use Rattle.ged_link.specs.inner.Slots.{kept_at, HasNoSlot, IsMissed};

use crate::index::RecordPlace;
use crate::keys::{KeyedNumbers, LongNames};
use crate::listing::ListedName;
use crate::records_by_text::RecordsByText;
use crate::slots::Slots;
use indexmap::IndexMap;
use std::alloc::{AllocError, Global};

/// The number that at most three bytes spell, or `None` where there are more.
#[inline(always)]
fn number_of_few(bytes: &[u8]) -> Option<u64>
    ensures number { result ≡ number_up_to 3 bytes.now }
    ensures small { IfSome result (λ number. number < 0x2000000) }
{
    match bytes {
        [] => Some(1),
        [first] => Some(u64::from(*first) + 0x100),
        [first, second] => Some(u64::from(*first) + 0x100 * u64::from(*second) + 0x1_0000),
        [first, second, third] => Some(
            u64::from(*first)
                + 0x100 * u64::from(*second)
                + 0x1_0000 * u64::from(*third)
                + 0x100_0000,
        ),
        _ => None,
    }
}

/// The same for at most four bytes; four spell it without the one above them, and only where the last is above one and below 128.
#[inline(always)]
fn number_of_rest(bytes: &[u8]) -> Option<u64>
    ensures number { result ≡ number_within 4 bytes.now }
    ensures small { IfSome result (λ number. number < 0x1_0000_0000) }
{
    match bytes {
        [first, second, third, fourth] if *fourth > 1 && *fourth < 0x80 => Some(
            u64::from(*first)
                + 0x100 * u64::from(*second)
                + 0x1_0000 * u64::from(*third)
                + 0x100_0000 * u64::from(*fourth),
        ),
        few => number_of_few(few),
    }
}

/// The number that a name of at most eight bytes spells, or `None` for a longer one.
///
/// Each byte is a digit to the base 256, the first byte the lowest, and above them stands a one, where there is room for it. Eight
/// bytes spell a number only if the last is above one and below 128, as those of all identifiers are.
#[inline(never)]
pub(crate) fn number_of_bytes(name: &[u8]) -> Option<u64>
    ensures { result ≡ number_within 8 name.now }
{
    match name {
        [first, second, third, fourth, rest @ ..] => {
            let high = number_of_rest(rest)?;
            let low = u64::from(*first)
                + 0x100 * u64::from(*second)
                + 0x1_0000 * u64::from(*third)
                + 0x100_0000 * u64::from(*fourth);
            Some(low + 0x1_0000_0000 * high)
        }
        few => number_of_few(few),
    }
}

/// Counts below it stay below 2 to the 50th with a digit more.
const COUNT_BOUND: u64 = 0x4000_0000_0000;

/// The count that decimal digits spell, or `None` where a byte is no digit, or the count before the last of them is not below
/// [`COUNT_BOUND`].
#[inline(always)]
#[tactic(auto, using(crate::proofs::CountLemmas::digit_read))]
fn read_count(digits: &[u8]) -> Option<u64>
    ensures count { result ≡ count_read 0 digits.now }
    ensures small { IfSome result (λ count. count < 2 ^ 50) }
{
    let mut count: u64 = 0;
    for digit in digits {
        if !digit.is_ascii_digit() {
            return None;
        }
        if count >= COUNT_BOUND {
            return None;
        }
        count = count * 10 + u64::from(*digit - b'0');
    }
    Some(count)
}

/// The highest of 64 bits, which the numbers of counted names have.
const COUNTED: u64 = 0x8000_0000_0000_0000;

/// The number of a counted name, or `None` for any other. A counted name is one byte and behind it at most 15 decimal digits, or none,
/// all of which but the last spell less than [`COUNT_BOUND`], as they always do where there are at most 14. Its number has the highest
/// of 64 bits, which no answer of [`number_of_bytes`] has, and under that bit what the digits spell, how many there are, and the byte.
/// Most names are counted, as I1 and F0023 are.
#[inline(always)]
fn number_of_counted(name: &[u8]) -> Option<u64>
    ensures { result ≡ counted_number name.now }
{
    match name {
        [first, digits @ ..] => {
            if digits.len() > 15 {
                return None;
            }
            let count = read_count(digits)?;
            let counted = 0x10 * count + digits.len() as u64;
            Some(COUNTED + u64::from(*first) + 0x100 * counted)
        }
        [] => None,
    }
}

/// The number that a short name spells, or `None` for a long one. A name is short if it is counted, as most are, or has at most eight
/// bytes. No two names spell one number.
#[inline(always)]
pub(crate) fn number_of(name: &str) -> Option<u64>
    ensures { result ≡ short_number name.now }
{
    match number_of_counted(name.as_bytes()) {
        Some(number) => Some(number),
        None => number_of_bytes(name.as_bytes()),
    }
}

/// Above all that varies of the number of a counted name, where 32 bits hold the count.
pub(crate) const BITS_END: u64 = 0x1000_0000_0000;

/// What varies of the number of a counted name, in 44 bits: the byte, how many digits there are, and their count; or `None` where 32
/// bits do not hold that, or where the name is not counted.
#[inline(always)]
pub(crate) fn counted_bits(name: &str) -> Option<u64>
    ensures number { IfSome result (λ bits. short_number name.now ≡ Some (2 ^ 63 + bits)) }
    ensures small { IfSome result (λ bits. bits < 2 ^ 44) }
    ensures found { (bits : ℕ) → counted_number name.now ≡ Some (2 ^ 63 + bits) → bits < 2 ^ 44 → result ≡ Some bits }
{
    let number = number_of_counted(name.as_bytes())?;
    let bits = number.checked_sub(COUNTED)?;
    if bits < BITS_END { Some(bits) } else { None }
}

/// What the digits of a counted name spell, by the name's number, where 32 bits hold it.
#[inline(always)]
pub(crate) fn count_in(number: u64) -> Option<u32>
    ensures { (first : ℕ) (digits : Bytes) → short_number (first ∷ digits) ≡ Some number → IfSome result (λ count. count ≡ number_read 0 digits) }
{
    let bits = number.checked_sub(COUNTED)?;
    match u32::try_from(bits / 0x1000) {
        Ok(count) => Some(count),
        Err(_) => None,
    }
}

/// The records of a document by their names.
#[derive(Drop)]
pub(crate) struct Names {
    /// Most of those whose names are short.
    slots: Slots,
    /// The others whose names are short, by the numbers that the names spell.
    short: IndexMap<u64, RecordPlace, KeyedNumbers>,
    /// All others, by the names' texts.
    long: RecordsByText,
}

impl Names {
    /// No records, where the slots are free. The table of long names has the key that was made of them, and room for all. The map of
    /// numbers has no key yet ([`Names::set_key`]).
    pub(crate) fn new(alloc: Global, slots: Slots, long: &LongNames) -> Result<Names, AllocError>
        requires free { (name : _) → (number : ℕ) → 0 < number → kept_in slots name number ≡ None }
        ensures none { IfOk result (λ names. (name : _) → found_in names name ≡ None) }
        ensures keyed { IfOk result (λ names. names.long.key ≡ finish long.now.hasher) }
        ensures long { IfOk result (λ names. (name : _) → found_by_text names.long name ≡ None) }
        ensures short { IfOk result (λ names. hash_map_len names.short ≡ 0) }
    {
        Ok(Names {
            slots,
            short: IndexMap::with_hasher(alloc, KeyedNumbers { key: 0 }),
            long: RecordsByText::new(alloc, long.key(), long.count, long.length)?,
        })
    }

    /// Whether each short name so far has a slot.
    pub(crate) fn have_slots(&self) -> bool
        ensures { IsTrue result ↔ (hash_map_len self.now.short ≡ 0) }
    {
        self.short.is_empty()
    }

    /// Gives the map of numbers, which is empty, the key of those that are to come ([`crate::keys::numbers_key`]).
    pub(crate) fn set_key(&mut self, alloc: Global, key: u64)
        requires { hash_map_len self.old.short ≡ 0 }
        ensures same { (name : _) → found_in self.new name ≡ found_in self.old name }
        ensures slots { self.new.slots ≡ self.old.slots }
        ensures long { self.new.long ≡ self.old.long }
        ensures short { hash_map_len self.new.short ≡ 0 }
        ensures keyed { (hasher_of {S = KeyedNumbers} self.new.short).key ≡ key }
    {
        self.short = IndexMap::with_hasher(alloc, KeyedNumbers { key });
    }

    /// Where the record that has a name stands. Takes no memory.
    #[inline(always)]
    pub(crate) fn find(&self, name: &str) -> Option<RecordPlace>
        ensures { result ≡ found_in self.now name.now }
    {
        match number_of(name) {
            Some(number) => match self.slots.find(name, number) {
                Some(found) => Some(found),
                None => self.find_short(number).copied(),
            },
            None => self.find_long(name),
        }
    }

    /// Where the record stands that has a counted name, by what varies of the name's number ([`counted_bits`]), without the name's text.
    /// Takes no memory.
    #[inline(always)]
    pub(crate) fn find_counted(&self, bits: u64) -> Option<RecordPlace>
        requires { bits < 2 ^ 44 }
        ensures { (name : Bytes) → short_number name ≡ Some (2 ^ 63 + bits) → result ≡ found_in self.now name }
    {
        let first = (bits % 0x100) as u8;
        let count = (bits / 0x1000) as u32;
        let number = COUNTED + bits;
        let slot = self.slots.slot_behind(first, count);
        match self.slots.find_at(slot, number) {
            Some(found) => Some(found),
            None => self.find_short(number).copied(),
        }
    }

    /// The record of a short name that has no slot, by the number that the name spells: where it is kept, so that the answer is a word.
    #[inline(never)]
    fn find_short(&self, number: u64) -> Option<&RecordPlace>
        ensures { option_copied result ≡ get nat_eq self.now.short number }
    {
        self.short.get(&number)
    }

    /// The same for a long name. It stays a call of its own, so that what is made of `find` is short.
    #[inline(never)]
    fn find_long(&self, name: &str) -> Option<RecordPlace>
        ensures { result ≡ found_by_text self.now.long name.now }
    {
        self.long.find(name)
    }

    /// Keeps a record under a number in a slot. The answer is whether no record had the name that spells the number and asks for
    /// the slot, or `None` where the slot is not the name's: then nothing is kept. Takes no memory.
    #[inline(always)]
    fn keep_in(&mut self, slot: usize, number: u64, found: RecordPlace) -> Option<bool>
        requires { 0 < number }
        ensures added { (name : Bytes) → short_number name ≡ Some number → slot_in self.old.slots.regions.items name ≡ slot
            → IfSome result (AddsRecord self.old self.new (Some name) found) }
        ensures same { result ≡ None → self.new ≡ self.old }
        ensures missed { result ≡ None → kept_at self.old.slots slot number ≡ None }
        ensures others { (self.new.short ≡ self.old.short) × (self.new.long ≡ self.old.long) }
    {
        match self.slots.keep(slot, number, found) {
            Some(true) => Some(self.find_short(number).copied().is_none()),
            other => other,
        }
    }

    /// Keeps a record in the slot that its name asks for, by what is listed of the name, without its text. The answer is whether no
    /// record had the name, or `None` where the name has no slot: then nothing is kept. Of a record without a name nothing is kept,
    /// and none had it. Takes no memory.
    #[inline(always)]
    pub(crate) fn keep_listed(&mut self, listed: ListedName, found: RecordPlace) -> Option<bool>
        ensures added { (xref : Option Bytes) → listed ≡ listed_name xref → IfSome result (AddsRecord self.old self.new xref found) }
        ensures same { result ≡ None → self.new ≡ self.old }
        ensures missed { (xref : Option Bytes) → listed ≡ listed_name xref → (xref ≡ Some [] → ⊥) → result ≡ None → IsMissed self.old listed.number xref }
        ensures others { (self.new.short ≡ self.old.short) × (self.new.long ≡ self.old.long) }
    {
        if listed.number == 0 {
            return if listed.digits == 0 { Some(true) } else { None };
        }
        let first = (listed.number % 256) as u8;
        let slot = self.slots.slot_behind(first, listed.digits);
        self.keep_in(slot, listed.number, found)
    }

    /// Adds a record by the number of its name, which has no slot, in the place of one with the same name. The answer is whether
    /// there was none. Grows.
    pub(crate) fn insert_short(
        &mut self,
        number: u64,
        found: RecordPlace,
    ) -> Result<bool, AllocError>
        ensures added { (name : Bytes) → short_number name ≡ Some number → HasNoSlot self.old name → IfOk result (AddsRecord self.old self.new (Some name) found) }
        ensures keyed { (hasher_of {S = KeyedNumbers} self.new.short).key ≡ (hasher_of {S = KeyedNumbers} self.old.short).key }
        ensures held { (names : List (Option Bytes)) (name : Bytes) → short_number name ≡ Some number → IsAmong (Some name) names
            → HoldsShort names self.old → OnOk result (HoldsShort names self.new) }
        ensures long { self.new.long ≡ self.old.long }
    {
        let before = self.short.insert(number, found)?;
        Ok(before.is_none())
    }

    /// The same by a long name's text.
    pub(crate) fn insert_long(
        &mut self,
        alloc: Global,
        name: &str,
        found: RecordPlace,
    ) -> Result<bool, AllocError>
        requires { short_number name.now ≡ None }
        ensures added { IfOk result (AddsRecord self.old self.new (Some name.now) found) }
        ensures keyed { self.new.long.key ≡ self.old.long.key }
        ensures held { (names : List (Option Bytes)) → IsAmong (Some name.now) names → HoldsLong names self.old → OnOk result (HoldsLong names self.new) }
        ensures short { self.new.short ≡ self.old.short }
    {
        self.long.insert(alloc, name, found)
    }
}
