// The links of a document, as they stand in it, and where those of each record begin.
ghost use Rattle.std.specs.Prelude.{◌≡◌, ℕ, false, OnOk, IfSome, ◌&&◌, ◌||◌};
ghost use Rattle.ged_link.specs.inner.LinkWalks.{pair_eq, role_eq};
ghost use Rattle.ged_link.specs.inner.PairSets.{lists_have, is_listed, is_linked, AreInOrder, AreLinksInOrder, IsInOrder};

use crate::groups::sort_links;
use crate::index::RecordPlace;
use crate::pairs::Role;
use crate::places::kept_place;
use std::alloc::{AllocError, Global};

/// The links of one role.
///
/// The places are all that is true of them: those of each link are listed in `pairs` or in `wide`. The numbers and the starts
/// tell where to look for a link first, and no answer rests on them.
#[derive(Drop)]
pub(crate) struct Links {
    /// The places of the record that points and of the one that it points to.
    pub(crate) pairs: Vec<(u32, u32)>,
    /// The same of the links that do not fit there, kept apart: only a document of more than 2^32 structures has any.
    pub(crate) wide: Vec<(usize, usize)>,
    /// The number of the record that each of the pairs leads to.
    pub(crate) numbers: Vec<u32>,
    /// How many records begin before the first of the pairs. The first is HEAD, which has no number.
    pub(crate) without: usize,
    /// How many of the pairs stand before those of each later record. So a document without links takes no memory here.
    pub(crate) starts: Vec<u32>,
}

/// Two places as 32 bits hold them, or `None` where these do not hold both.
#[inline(always)]
fn short_pair(from: usize, to: usize) -> Option<(u32, u32)>
    ensures { IfSome result (λ pair. pair ≡ (from, to)) }
{
    let Ok(from) = u32::try_from(from) else {
        return None;
    };
    let Ok(to) = u32::try_from(to) else {
        return None;
    };
    Some((from, to))
}

impl Links {
    fn new(alloc: Global) -> Links
        ensures { (pair : ℕ × ℕ) → is_linked result pair ≡ false }
    {
        Links {
            pairs: Vec::new(alloc),
            wide: Vec::new(alloc),
            numbers: Vec::new(alloc),
            without: 0,
            starts: Vec::new(alloc),
        }
    }

    /// No links, in the memory of two vectors, whose elements are dropped.
    fn over(alloc: Global, pairs: Vec<(u32, u32)>, numbers: Vec<u32>) -> Links
        ensures { (pair : ℕ × ℕ) → is_linked result pair ≡ false }
    {
        let mut pairs = pairs;
        let mut numbers = numbers;
        pairs.clear();
        numbers.clear();
        Links {
            pairs,
            wide: Vec::new(alloc),
            numbers,
            without: 0,
            starts: Vec::new(alloc),
        }
    }

    /// Notes that the links of the next record begin. Grows.
    fn begin_record(&mut self) -> Result<(), AllocError>
        ensures pairs { OnOk result (self.new.pairs ≡ self.old.pairs) }
        ensures wide { OnOk result (self.new.wide ≡ self.old.wide) }
    {
        if self.pairs.is_empty() {
            self.without = self.without.saturating_add(1);
            return Ok(());
        }
        self.starts.push(kept_place(self.pairs.len()))?;
        Ok(())
    }

    /// Where the links of a record should begin among the pairs. The records are counted from 0, which is HEAD.
    #[inline(always)]
    pub(crate) fn start_of(&self, record: usize) -> usize {
        match record.checked_sub(self.without) {
            Some(later) => match self.starts.get(later) {
                Some(start) => *start as usize,
                None => self.pairs.len(),
            },
            None => 0,
        }
    }

    /// Adds that the record at a place points to another one. Grows.
    #[tactic(auto, using(crate::proofs::PairLemmas::linked_more))]
    fn push(&mut self, from: usize, to: RecordPlace) -> Result<(), AllocError>
        ensures { OnOk result ((pair : ℕ × ℕ) → is_linked self.new pair ≡ (pair_eq pair (from, to.place) || is_linked self.old pair)) }
    {
        let Some(pair) = short_pair(from, to.place) else {
            return self.push_wide(from, to.place);
        };
        self.pairs.push(pair)?;
        self.numbers.push(kept_place(to.number))?;
        Ok(())
    }

    /// The same for places that 32 bits do not hold. Grows.
    #[cold]
    #[inline(never)]
    #[tactic(auto, using(crate::proofs::PairLemmas::linked_wide))]
    fn push_wide(&mut self, from: usize, to: usize) -> Result<(), AllocError>
        ensures { OnOk result ((pair : ℕ × ℕ) → is_linked self.new pair ≡ (pair_eq pair (from, to) || is_linked self.old pair)) }
    {
        self.wide.push((from, to))?;
        Ok(())
    }

    /// Puts the pairs in order, by the record that points. Takes no memory.
    fn sort_pairs(&mut self)
        ensures ordered { IsInOrder self.new.pairs.items }
        ensures kept { (pair : ℕ × ℕ) → is_listed self.new.pairs.items pair ≡ is_listed self.old.pairs.items pair }
        ensures wide { self.new.wide ≡ self.old.wide }
    {
        sort_links(&mut self.pairs);
    }

    /// The same for the links that are kept apart.
    fn sort_wide(&mut self)
        ensures ordered { IsInOrder self.new.wide.items }
        ensures kept { (pair : ℕ × ℕ) → is_listed self.new.wide.items pair ≡ is_listed self.old.wide.items pair }
        ensures pairs { self.new.pairs ≡ self.old.pairs }
    {
        self.wide.sort_unstable();
    }

    /// Puts the links in order, by the record that points. Takes no memory.
    fn sort(&mut self)
        ensures ordered { AreLinksInOrder self.new }
        ensures kept { (pair : ℕ × ℕ) → is_linked self.new pair ≡ is_linked self.old pair }
    {
        self.sort_pairs();
        self.sort_wide();
    }
}

/// The links between persons and families by the role, in the order of the file until they are sorted.
#[derive(Drop)]
pub(crate) struct LinkLists {
    pub(crate) partners: Links,
    pub(crate) children: Links,
}

impl LinkLists {
    /// No links, in the memory of two vectors, whose elements are dropped.
    pub(crate) fn over(alloc: Global, pairs: Vec<(u32, u32)>, numbers: Vec<u32>) -> LinkLists
        ensures { (role : _) (pair : ℕ × ℕ) → lists_have result role pair ≡ false }
    {
        LinkLists {
            partners: Links::over(alloc, pairs, numbers),
            children: Links::new(alloc),
        }
    }

    /// Notes that the links of the next record begin. Grows.
    pub(crate) fn begin_record(&mut self) -> Result<(), AllocError>
        ensures { OnOk result ((role : Role) (pair : ℕ × ℕ) → lists_have self.new role pair ≡ lists_have self.old role pair) }
    {
        self.partners.begin_record()?;
        self.children.begin_record()
    }

    /// Adds that the record at a place points to another one. Grows.
    pub(crate) fn push(
        &mut self,
        role: Role,
        from: usize,
        to: RecordPlace,
    ) -> Result<(), AllocError>
        ensures { OnOk result ((other : Role) (pair : ℕ × ℕ) → lists_have self.new other pair
            ≡ ((role_eq other role && pair_eq pair (from, to.place)) || lists_have self.old other pair)) }
    {
        match role {
            Role::Partner => self.partners.push(from, to)?,
            Role::Child => self.children.push(from, to)?,
        }
        Ok(())
    }

    /// Puts the links of each role in order, by the record that points. Takes no memory.
    pub(crate) fn sort(&mut self)
        ensures ordered { AreInOrder self.new }
        ensures kept { (role : Role) (pair : ℕ × ℕ) → lists_have self.new role pair ≡ lists_have self.old role pair }
    {
        self.partners.sort();
        self.children.sort();
    }
}
