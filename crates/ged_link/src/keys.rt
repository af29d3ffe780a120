// The keys of the maps of an index, and the hashers that begin with them.
ghost use Rattle.std.specs.Prelude.{◌≡◌, Some, None, List, Option, fold, map};
ghost use Rattle.std.specs.Hash.DefaultHasher.{initial as unfed, finish};
ghost use Rattle.ged_line.specs.Bytes.{Bytes};
ghost use Rattle.ged_link.specs.NameNumbers.{short_number};
ghost use Rattle.ged_link.specs.Keys.{started};
ghost use Rattle.ged_link.specs.inner.Keys.{fed_long, fed_number};
ghost use Rattle.ged_link.specs.inner.Indexes.{numbers_key as key_of_numbers};
ghost use Rattle.ged_link.specs.inner.Listing.{listed_halves, all_halves};

use crate::listing::{RecordList, joined};
use crate::names::number_of_bytes;
use std::hash::{BuildHasher, DefaultHasher, FoldHasher, Hasher};

/// Makes the hashers of a map of texts: SipHash, each begun with a key, a hash of names among which are all that the map is
/// to hold.
///
/// Who writes a file knows this code and can compute the file's keys, but not choose them: what he makes to collide under a
/// key has another key once it stands in the file, so he can but try file after file. `FoldHasher` would not do for texts,
/// though it begins with such a key: eight letters of a name can be chosen by which one key in 2^27 takes all names to one
/// state, and letters behind them that give all names one hash from there on.
#[derive(Clone, Copy)]
pub(crate) struct Keyed {
    /// A hasher to which the key is written, so that this is done once.
    start: DefaultHasher,
}

impl Keyed {
    pub(crate) fn new(key: u64) -> Keyed
        ensures { result.start ≡ started key }
    {
        let mut start = DefaultHasher::new();
        start.write_u64(key);
        Keyed { start }
    }
}

impl BuildHasher for Keyed {
    type Hasher = DefaultHasher;

    ghost build_hasher = { λ k. k.start };

    fn build_hasher(&self) -> DefaultHasher {
        self.start
    }
}

/// The same for a map of numbers, by `FoldHasher`, which is faster. A number is multiplied by a constant there, so none
/// brings a factor that would take others to one state, and whether two numbers collide hangs on the key.
#[derive(Clone, Copy)]
pub(crate) struct KeyedNumbers {
    pub(crate) key: u64,
}

impl BuildHasher for KeyedNumbers {
    ghost use Rattle.std.specs.Hash.FoldHasher.{initial, write};
    ghost use Rattle.std.specs.Hash as fed;

    type Hasher = FoldHasher;

    ghost build_hasher = { λ k. fold write initial (fed.u64 k.key) };

    #[inline(always)]
    fn build_hasher(&self) -> FoldHasher {
        let mut start = FoldHasher::default();
        start.write_u64(self.key);
        start
    }
}

/// The long names of a document, as far as they are listed. Each is hashed at once, while its line is at hand.
#[derive(Drop)]
pub(crate) struct LongNames {
    /// How many there are, how many bytes they have, and how many the longest has. No answer rests on these.
    pub(crate) count: usize,
    pub(crate) length: usize,
    pub(crate) longest: usize,
    /// What each was written to.
    pub(crate) hasher: DefaultHasher,
}

impl LongNames {
    /// No name.
    pub(crate) fn none() -> LongNames
        ensures { result.hasher ≡ unfed }
    {
        LongNames {
            count: 0,
            length: 0,
            longest: 0,
            hasher: DefaultHasher::new(),
        }
    }

    /// One more. Its whole words of eight bytes are written, and then the number that the bytes behind these spell ([`number_of_bytes`]): its
    /// highest byte is none that a name has, so no list of names is written as another is.
    #[cold]
    #[inline(never)]
    pub(crate) fn push(&mut self, name: &str)
        requires { short_number name.now ≡ None }
        ensures { self.new.hasher ≡ fed_long self.old.hasher (Some name.now) }
    {
        self.count = self.count.saturating_add(1);
        self.length = self.length.saturating_add(name.len());
        self.longest = self.longest.max(name.len());
        let bytes = name.as_bytes();
        let (words, rest) = bytes.split_at(bytes.len() / 8 * 8);
        self.hasher.write(words);
        self.hasher.write_u64(number_of_bytes(rest).unwrap_or(0));
    }

    /// The key for their table.
    pub(crate) fn key(&self) -> u64
        ensures { result ≡ finish self.now.hasher }
    {
        self.hasher.finish()
    }
}

/// Writes the number that a name spells to a hasher, if it spells one.
#[inline(always)]
fn feed_number(hasher: &mut DefaultHasher, halves: (u32, u32))
    ensures { hasher.new ≡ fed_number hasher.old halves }
{
    let number = joined(halves);
    if number != 0 {
        hasher.write_u64(number);
    }
}

/// A hash of all numbers that names spell.
fn hash_numbers(numbers: &[(u32, u32)]) -> u64
    ensures { result ≡ finish (fold fed_number unfed numbers.now) }
{
    let mut hasher = DefaultHasher::new();
    for halves in numbers {
        feed_number(&mut hasher, *halves);
    }
    hasher.finish()
}

/// The key for the map of numbers, by what is listed of the names.
pub(crate) fn numbers_key(list: &RecordList) -> u64
    ensures { (names : List (Option Bytes)) → all_halves list.now ≡ map listed_halves names → result ≡ key_of_numbers names }
{
    hash_numbers(&list.names)
}
