// Whether the record that a link leads to points back: looked for where its links should stand, or searched for.
ghost use Rattle.std.specs.Prelude.{◌≡◌, ℕ, true};
ghost use Rattle.ged_link.specs.inner.PairSets.{is_listed, is_linked, lists_have, AreInOrder, AreLinksInOrder, IsInOrder, AreAnswered};

use crate::index::RecordPlace;
use crate::link_lists::{LinkLists, Links};

/// What a person is in a family that is linked with it (FamilySearch GEDCOM 7.0, "INDIVIDUAL_RECORD" and
/// "FAMILY_RECORD").
#[derive(Clone, Copy)]
pub(crate) enum Role {
    /// FAMS, which HUSB and WIFE answer.
    Partner,
    /// FAMC, which CHIL answers.
    Child,
}

/// How many links of a record are looked at before all links are sorted: few records have as many of one role.
const NEAR: usize = 32;

/// Whether a pair stands among the links that follow each other from an index on and are of the record at its first place. It
/// may stand elsewhere where the answer is false.
#[inline(always)]
fn stands_near(pairs: &[(u32, u32)], start: usize, from: usize, to: usize) -> bool
    ensures { result ≡ true → is_listed pairs.now (from, to) ≡ true }
{
    for index in start..start.saturating_add(NEAR) {
        let Some((other, place)) = pairs.get(index) else {
            return false;
        };
        if *other as usize != from {
            return false;
        }
        if *place as usize == to {
            return true;
        }
    }
    false
}

/// The same for the links from an index up to another one, by halving, which finds each one where they rise, as those of a family
/// rise whose children have its order.
#[cold]
#[inline(never)]
fn stands_in_order(pairs: &[(u32, u32)], start: usize, end: usize, from: usize, to: usize) -> bool
    ensures { result ≡ true → is_listed pairs.now (from, to) ≡ true }
{
    let Some(group) = pairs.get(start..end) else {
        return false;
    };
    let passed = group.partition_point(|pair: &(u32, u32)| -> bool { (pair.1 as usize) < to });
    let Some((other, place)) = pairs.get(start.saturating_add(passed)) else {
        return false;
    };
    *other as usize == from && *place as usize == to
}

/// Whether a pair is one of the links, if it stands among those of the record at its first place, whose number is handed in. It
/// may be one of them too where the answer is false.
#[inline(always)]
fn stands_there(links: &Links, number: usize, from: usize, to: usize) -> bool
    ensures { result ≡ true → is_listed links.now.pairs.items (from, to) ≡ true }
{
    let next = number.saturating_add(1);
    let start = links.start_of(next);
    if stands_near(&links.pairs, start, from, to) {
        return true;
    }
    let end = links.start_of(next.saturating_add(1));
    stands_in_order(&links.pairs, start, end, from, to)
}

/// Whether the link at an index, which tells a pair of places, is answered by one that stands where it should.
#[inline(always)]
fn is_answered(links: &Links, index: usize, from: usize, to: usize) -> bool
    ensures { result ≡ true → is_listed links.now.pairs.items (to, from) ≡ true }
{
    let Some(number) = links.numbers.get(index) else {
        return false;
    };
    stands_there(links, *number as usize, to, from)
}

/// Whether each record that is pointed to by a pair points back, by links that stand where they should. The links stand in the
/// order of the file.
fn all_answered(links: &Links) -> bool
    ensures { result ≡ true → (x y : ℕ) → is_listed links.now.pairs.items (x, y) ≡ true → is_listed links.now.pairs.items (y, x) ≡ true }
{
    for index in 0..links.pairs.len() {
        let (from, to) = links.pairs[index];
        if !is_answered(links, index, from as usize, to as usize) {
            return false;
        }
    }
    true
}

/// The same where no link is kept apart from the pairs; else the answer is false.
fn have_answers(links: &Links) -> bool
    ensures { result ≡ true → (x y : ℕ) → is_linked links.now (x, y) ≡ true → is_linked links.now (y, x) ≡ true }
{
    links.wide.is_empty() && all_answered(links)
}

/// Whether each record that is pointed to points back. It may be so too where the answer is false: then all links are
/// searched. The links stand in the order of the file. Takes no memory.
pub(crate) fn are_answered(lists: &LinkLists) -> bool
    ensures { result ≡ true → AreAnswered lists.now }
{
    have_answers(&lists.partners) && have_answers(&lists.children)
}

/// Whether the record at the first place points to the one at the second. Takes no memory.
fn has_link(pairs: &[(u32, u32)], from: usize, to: usize) -> bool
    requires { IsInOrder pairs.now }
    ensures { result ≡ is_listed pairs.now (from, to) }
{
    pairs
        .binary_search_by_key(&(from, to), |pair: &(u32, u32)| -> (usize, usize) {
            (pair.0 as usize, pair.1 as usize)
        })
        .is_ok()
}

/// The same for links that are kept apart.
#[cold]
#[inline(never)]
fn has_wide(wide: &[(usize, usize)], from: usize, to: usize) -> bool
    requires { IsInOrder wide.now }
    ensures { result ≡ is_listed wide.now (from, to) }
{
    wide.binary_search(&(from, to)).is_ok()
}

/// The same for a record, whose links stand where they should or elsewhere.
fn has_one(links: &Links, from: RecordPlace, to: usize) -> bool
    requires { AreLinksInOrder links.now }
    ensures { result ≡ is_linked links.now (from.place, to) }
{
    stands_there(links, from.number, from.place, to)
        || has_link(&links.pairs, from.place, to)
        || has_wide(&links.wide, from.place, to)
}

/// Whether a record points to the one at a place, where the links are sorted. Takes no memory.
pub(crate) fn has(lists: &LinkLists, role: Role, from: RecordPlace, to: usize) -> bool
    requires { AreInOrder lists.now }
    ensures { result ≡ lists_have lists.now role (from.place, to) }
{
    match role {
        Role::Partner => has_one(&lists.partners, from, to),
        Role::Child => has_one(&lists.children, from, to),
    }
}
