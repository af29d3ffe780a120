// Records by the texts of their names.
ghost use Rattle.std.specs.Prelude.{◌≡◌, ◌<◌, ℕ, true, false, OnOk, Some, length};
ghost use Rattle.std.specs.Bool.{if◌then◌else◌};
ghost use Rattle.std.specs.HashMap.{get_by_text, hasher_of};
ghost use Rattle.std.specs.Str.{bytes_eq};
ghost use Rattle.ged_line.specs.Bytes.{Bytes};
ghost use Rattle.ged_link.specs.declared.keys.Keyed.{Keyed};
ghost use Rattle.ged_link.specs.Keys.{started};
ghost use Rattle.ged_link.specs.Texts.{AreWithin, AreCrowded};

use crate::index::RecordPlace;
use crate::keys::Keyed;
use crate::text_slots::{FREE, TextSlot, find_kept, has_room, hash_text, keep_text};
use indexmap::IndexMap;
use std::alloc::{AllocError, Global};

/// How many slots there are at most: 32 bits number them.
const MOST_SLOTS: usize = 0xFFFF_FFFF;

/// Records that are looked for by the texts of their names.
///
/// A name's hash says in which few slots it may stand. What finds none of them free, or does not fit one, is kept in a map, whose hash
/// takes longer, and under which no one can give many names one hash.
#[derive(Drop)]
pub(crate) struct RecordsByText {
    /// What names are hashed under, in the slots and in the map.
    pub(crate) key: u64,
    pub(crate) slots: Vec<TextSlot>,
    /// The texts of the names in the slots, one behind the other.
    pub(crate) texts: Vec<u8>,
    pub(crate) others: IndexMap<String, RecordPlace, Keyed>,
    /// Whether all that are in the map found no slot free, and none is there because it does not fit one.
    pub(crate) all_fit: bool,
    ghost few: { length slots.items < 4294967296 },
    ghost within: { AreWithin texts.items slots.items },
    ghost crowded: { all_fit ≡ true → AreCrowded key slots.items (get_by_text others) },
    ghost keyed: { (hasher_of {S = Keyed} others).start ≡ started key },
}

/// The record that is kept under a name's text.
#[inline(never)]
fn find_other(others: &IndexMap<String, RecordPlace, Keyed>, name: &str) -> Option<RecordPlace>
    ensures { result ≡ get_by_text others.now name.now }
{
    others.get(name).copied()
}

/// Keeps a record under a name's text. Grows.
#[cold]
#[inline(never)]
fn keep_other(
    alloc: Global,
    others: &mut IndexMap<String, RecordPlace, Keyed>,
    name: &str,
    found: RecordPlace,
) -> Result<(), AllocError>
    ensures kept { OnOk result ((other : Bytes) → get_by_text others.new other ≡ (if bytes_eq name.now other then Some found else get_by_text others.old other)) }
    ensures keyed { (hasher_of {S = Keyed} others.new).start ≡ (hasher_of {S = Keyed} others.old).start }
{
    let text = String::from_str(alloc, name)?;
    others.insert(text, found)?;
    Ok(())
}

impl RecordsByText {
    ghost use Rattle.std.specs.Prelude.{◌≡◌, ◌<◌, ℕ, true, false, IfOk, OnOk, Ok, Some, None, length, is_none};
    ghost use Rattle.std.specs.Bool.{if◌then◌else◌};
    ghost use Rattle.std.specs.Str.{bytes_eq};
    ghost use Rattle.ged_line.specs.Bytes.{Bytes};
    ghost use Rattle.std.specs.HashMap.{get_by_text};
    ghost use Rattle.ged_link.specs.Texts.{text_hash, HasNoRoom};
    ghost use Rattle.ged_link.specs.TextRecords.{found_by_text};

    /// No records, with two slots for each of so many, as far as 32 bits number them, and room for so many bytes of their names.
    pub(crate) fn new(
        alloc: Global,
        key: u64,
        count: usize,
        length: usize,
    ) -> Result<RecordsByText, AllocError>
        ensures none { IfOk result (λ records. (name : Bytes) → found_by_text records name ≡ None) }
        ensures keyed { IfOk result (λ records. records.key ≡ key) }
    {
        let room = count.saturating_mul(2).min(MOST_SLOTS);
        Ok(RecordsByText {
            key,
            slots: vec![in alloc; FREE; room]?,
            texts: Vec::with_capacity(alloc, length)?,
            others: IndexMap::with_hasher(alloc, Keyed::new(key)),
            all_fit: true,
        })
    }

    /// The record that has a name. Takes no memory.
    pub(crate) fn find(&self, name: &str) -> Option<RecordPlace>
        ensures { result ≡ found_by_text self.now name.now }
    {
        let hash = hash_text(self.key, name.as_bytes());
        match find_kept(&self.slots, &self.texts, name.as_bytes(), hash) {
            Some(found) => Some(found),
            None => find_other(&self.others, name),
        }
    }

    /// The record that is kept under the text of a name with this hash. The map is not asked where a slot is free that the name may have:
    /// then the name is not there.
    #[inline(always)]
    fn find_apart(&self, name: &str, hash: u64) -> Option<RecordPlace>
        requires { text_hash self.now.key name.now ≡ hash }
        ensures { result ≡ get_by_text self.now.others name.now }
    {
        if self.all_fit && has_room(&self.slots, hash) {
            return None;
        }
        find_other(&self.others, name)
    }

    /// Whether it is known that no name in the map has a slot free, and none is free for a name with this hash.
    fn are_crowded_with(&self, hash: u64) -> bool
        ensures crowded { result ≡ true → self.now.all_fit ≡ true }
        ensures room { result ≡ true → HasNoRoom self.now.slots.items hash }
    {
        if has_room(&self.slots, hash) {
            return false;
        }
        self.all_fit
    }

    /// Keeps a record under the text of a name with this hash. Grows.
    #[cold]
    #[inline(never)]
    fn keep_apart(
        &mut self,
        alloc: Global,
        name: &str,
        hash: u64,
        found: RecordPlace,
    ) -> Result<(), AllocError>
        requires { text_hash self.old.key name.now ≡ hash }
        ensures kept { OnOk result ((other : Bytes) → get_by_text self.new.others other ≡ (if bytes_eq name.now other then Some found else get_by_text self.old.others other)) }
        ensures slots { self.new.slots ≡ self.old.slots }
        ensures texts { self.new.texts ≡ self.old.texts }
        ensures key { self.new.key ≡ self.old.key }
    {
        let all_fit = self.are_crowded_with(hash);
        self.all_fit = false;
        keep_other(alloc, &mut self.others, name, found)?;
        self.all_fit = all_fit;
        Ok(())
    }

    /// Adds a record, if none has its name. The answer is whether none had it. Grows.
    pub(crate) fn insert(
        &mut self,
        alloc: Global,
        name: &str,
        found: RecordPlace,
    ) -> Result<bool, AllocError>
        requires { 0 < length name.now }
        ensures is_new { IfOk result (λ is_new. is_new ≡ is_none (found_by_text self.old name.now)) }
        ensures added { result ≡ Ok true → (other : Bytes) → found_by_text self.new other ≡ (if bytes_eq name.now other then Some found else found_by_text self.old other) }
        ensures same { result ≡ Ok false → self.new ≡ self.old }
        ensures keyed { self.new.key ≡ self.old.key }
    {
        let hash = hash_text(self.key, name.as_bytes());
        if find_kept(&self.slots, &self.texts, name.as_bytes(), hash).is_some() {
            return Ok(false);
        }
        if self.find_apart(name, hash).is_some() {
            return Ok(false);
        }
        if !keep_text(
            &mut self.slots,
            &mut self.texts,
            name.as_bytes(),
            hash,
            found,
        )? {
            self.keep_apart(alloc, name, hash, found)?;
        }
        Ok(true)
    }
}
