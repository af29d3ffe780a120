// What is listed of the records: enough to keep each in its slot without another look at its text.
ghost use Rattle.std.specs.Prelude.{◌≡◌, ◌+◌, ◌*◌, ◌/◌, ◌%◌, ◌<◌, ◌++◌, ◌∷◌, [], List, Option, IfOk, OnOk, drop, fold, length, map, replicate};
ghost use Rattle.std.specs.Option.{option_copied};
ghost use Rattle.ged_line.specs.Bytes.{Bytes};
ghost use Rattle.ged_tree.specs.Trees.{records_of, trees_count};
ghost use Rattle.ged_tree.specs.Runs.{trees_between, IsRunOfTrees};
ghost use Rattle.ged_link.specs.Links.{identifiers};
ghost use Rattle.std.specs.Hash.DefaultHasher.{initial};
ghost use Rattle.ged_link.specs.inner.Keys.{fed_long};
ghost use Rattle.ged_link.specs.inner.Layout.{counted, no_names};
ghost use Rattle.ged_link.specs.inner.Listing.{listed_name, listed_halves, listed_digits, unnamed_in, all_halves, all_digits, AreTypesOf, IsRecordList};

use crate::keys::LongNames;
use crate::layout::{Tally, count_name, no_tallies};
use crate::names::{count_in, number_of};
use crate::record_type::{RecordType, type_of};
use crate::slots::read_number;
use ged_tree::{Forest, next_in_run};
use std::alloc::{AllocError, Global};

/// What a name's slot is found by: the number that the name spells ([`crate::names::number_of`]), whose lowest byte is the name's
/// first, and the number behind that byte. Both are 0 where a record has no name; of a name that spells no number they are 0 and 1.
#[derive(Clone, Copy)]
pub(crate) struct ListedName {
    pub(crate) number: u64,
    pub(crate) digits: u32,
}

/// Of a record without a name.
const NO_NAME: ListedName = ListedName {
    number: 0,
    digits: 0,
};

/// Of a name that spells no number.
const NO_NUMBER: ListedName = ListedName {
    number: 0,
    digits: 1,
};

/// What is told of the records, by their numbers.
///
/// What is listed of the names begins with the first record that has one, so it takes no memory where none has. It stands in two
/// vectors whose elements are those of [`crate::link_lists::Links`], which takes over their memory: to give back so large a block and
/// ask for others makes an allocator copy these as they grow.
#[derive(Drop)]
pub(crate) struct RecordList {
    /// How many names that spell a number begin with each byte.
    pub(crate) tallies: Vec<Tally>,
    /// The numbers of the names, each by its low and its high half, from the first record on that has a name.
    pub(crate) names: Vec<(u32, u32)>,
    /// The numbers behind their first bytes.
    pub(crate) digits: Vec<u32>,
    /// The types of all records.
    pub(crate) types: Vec<Option<RecordType>>,
    /// The names that spell no number.
    pub(crate) long: LongNames,
}

/// Counts the name of a record, by the number that it spells, or as a long one. The answer is what is listed of it.
#[inline(always)]
fn list_name(tallies: &mut Vec<Tally>, long: &mut LongNames, xref: Option<&str>) -> ListedName
    ensures counted { tallies.new.items ≡ counted tallies.old.items (option_copied xref.entry) }
    ensures long { long.new.hasher ≡ fed_long long.old.hasher (option_copied xref.entry) }
    ensures listed { result ≡ listed_name (option_copied xref.entry) }
{
    let Some(name) = xref else {
        return NO_NAME;
    };
    let [first, digits @ ..] = name.as_bytes() else {
        return NO_NUMBER;
    };
    let Some(number) = number_of(name) else {
        long.push(name);
        return NO_NUMBER;
    };
    let digits = match count_in(number) {
        Some(count) => count,
        None => read_number(digits),
    };
    count_name(tallies, *first, digits);
    ListedName { number, digits }
}

/// The low and the high half of a number.
#[inline(always)]
pub(crate) fn halves(number: u64) -> (u32, u32)
    ensures { result ≡ (number % 4294967296, number / 4294967296) }
{
    (
        (number % 0x1_0000_0000) as u32,
        (number / 0x1_0000_0000) as u32,
    )
}

/// The number that has these halves.
#[inline(always)]
pub(crate) fn joined(halves: (u32, u32)) -> u64
    ensures { result ≡ halves.0 + halves.1 * 4294967296 }
{
    let (low, high) = halves;
    u64::from(low) + u64::from(high) * 0x1_0000_0000
}

impl RecordList {
    /// Of no records. Grows.
    pub(crate) fn new(alloc: Global) -> Result<RecordList, AllocError>
        ensures tallies { IfOk result (λ list. list.tallies.items ≡ replicate 256 no_names) }
        ensures names { IfOk result (λ list. list.names.items ≡ []) }
        ensures digits { IfOk result (λ list. list.digits.items ≡ []) }
        ensures types { IfOk result (λ list. list.types.items ≡ []) }
        ensures long { IfOk result (λ list. list.long.hasher ≡ initial) }
    {
        Ok(RecordList {
            tallies: no_tallies(alloc)?,
            names: Vec::new(alloc),
            digits: Vec::new(alloc),
            types: Vec::new(alloc),
            long: LongNames::none(),
        })
    }

    /// One more record. Where neither it nor one before it has a name, only its type is listed. Grows.
    #[inline(always)]
    pub(crate) fn push(
        &mut self,
        xref: Option<&str>,
        record_type: Option<RecordType>,
    ) -> Result<(), AllocError>
        ensures tallies { OnOk result (self.new.tallies.items ≡ counted self.old.tallies.items (option_copied xref.entry)) }
        ensures names { OnOk result (all_halves self.new ≡ all_halves self.old ++ listed_halves (option_copied xref.entry) ∷ []) }
        ensures digits { length self.old.names.items ≡ length self.old.digits.items
            → OnOk result (all_digits self.new ≡ all_digits self.old ++ listed_digits (option_copied xref.entry) ∷ []) }
        ensures types { OnOk result (self.new.types.items ≡ self.old.types.items ++ record_type ∷ []) }
        ensures long { OnOk result (self.new.long.hasher ≡ fed_long self.old.long.hasher (option_copied xref.entry)) }
    {
        if xref.is_none() && self.names.is_empty() {
            self.types.push(record_type)?;
            return Ok(());
        }
        let name = list_name(&mut self.tallies, &mut self.long, xref);
        self.names.push(halves(name.number))?;
        self.digits.push(name.digits)?;
        self.types.push(record_type)?;
        Ok(())
    }

    /// How many records stand before the first that has a name: those of which only the types are listed.
    pub(crate) fn unnamed(&self) -> usize
        ensures { result ≡ unnamed_in self.now }
    {
        self.types.len().saturating_sub(self.names.len())
    }
}

/// What is listed of the names of all records, and how many records stand before the first that has one.
#[derive(Clone, Copy)]
pub(crate) struct ListedNames<'l> {
    pub(crate) list: &'l RecordList,
    pub(crate) unnamed: usize,
}

impl ListedNames<'_> {
    /// What is listed of the name of the record with a number. Of those before the first name nothing is read.
    #[inline(always)]
    pub(crate) fn name_at(self, number: usize) -> ListedName
        requires unnamed { self.unnamed ≡ unnamed_in self.list.now }
        requires names { number < length (all_halves self.list.now) }
        requires digits { number < length (all_digits self.list.now) }
        ensures { (xref : Option Bytes) (more : List (Option Bytes)) → drop number (all_halves self.entry.list.now) ≡ map listed_halves (xref ∷ more)
            → drop number (all_digits self.entry.list.now) ≡ map listed_digits (xref ∷ more) → result ≡ listed_name xref }
    {
        if number < self.unnamed {
            return NO_NAME;
        }
        let at = number - self.unnamed;
        ListedName {
            number: joined(self.list.names[at]),
            digits: self.list.digits[at],
        }
    }
}

/// The place of the first record. The run of records goes on to the end of all.
pub(crate) fn first_record<F: Forest>(forest: &F, end: usize) -> usize
    requires end { end ≡ trees_count (F.trees forest.now) }
    ensures run { IsRunOfTrees (F.trees forest.now) result end }
    ensures records { trees_between (F.trees forest.now) result end ≡ records_of (F.trees forest.now) }
{
    match next_in_run(forest, 0, end) {
        Some(first) => first,
        None => end,
    }
}

/// The list of the records, which are from a place up to an end. Grows.
fn list_between<F: Forest>(
    alloc: Global,
    forest: &F,
    start: usize,
    end: usize,
) -> Result<RecordList, AllocError>
    requires run { IsRunOfTrees (F.trees forest.now) start end }
    requires records { trees_between (F.trees forest.now) start end ≡ records_of (F.trees forest.now) }
    ensures tallies { IfOk result (λ list. list.tallies.items ≡ fold counted (replicate 256 no_names) (identifiers (records_of (F.trees forest.now)))) }
    ensures names { IfOk result (λ list. all_halves list ≡ map listed_halves (identifiers (records_of (F.trees forest.now)))) }
    ensures digits { IfOk result (λ list. all_digits list ≡ map listed_digits (identifiers (records_of (F.trees forest.now)))) }
    ensures types { IfOk result (λ list. AreTypesOf list.types.items (records_of (F.trees forest.now))) }
    ensures long { IfOk result (λ list. list.long.hasher ≡ fold fed_long initial (identifiers (records_of (F.trees forest.now)))) }
{
    let mut list = RecordList::new(alloc)?;
    let mut place = start;
    while let Some(after) = next_in_run(forest, place, end) {
        list.push(forest.xref(place), type_of(forest.tag(place)))?;
        place = after;
    }
    Ok(list)
}

/// The list of all records of a document, of which this is the end. Grows.
pub(crate) fn list_records<F: Forest>(
    alloc: Global,
    forest: &F,
    end: usize,
) -> Result<RecordList, AllocError>
    requires { end ≡ trees_count (F.trees forest.now) }
    ensures { IfOk result (IsRecordList (F.trees forest.now)) }
{
    let start = first_record(forest, end);
    list_between(alloc, forest, start, end)
}
