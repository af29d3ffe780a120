// Notices: what is told of a document that is accepted.
ghost use Rattle.std.specs.Prelude.{◌≡◌, ℕ, IfOk, MatchOption};
ghost use Rattle.ged_tree.specs.Places.{line_at};
ghost use Rattle.ged_link.specs.LinkFaults.{IsLowest};
ghost use Rattle.ged_link.specs.Notices.{OneWay, OneWayAt, AreOneWayNotices};
ghost use Rattle.ged_link.specs.Indexes.{IsIndexOf};

use crate::index::Index;
use ged_tree::Forest;
use std::alloc::{AllocError, Global};

/// What a notice tells of a structure.
#[derive(Clone, Copy, Debug, PartialEq, Eq)]
pub enum NoticeKind {
    /// A link between a person and a family in one direction only: a structure directly under the record of the one that
    /// points to the other, whose record has none that points back (FamilySearch GEDCOM 7.0, "INDIVIDUAL_RECORD" and
    /// "FAMILY_RECORD").
    OneWay,
    /// A standard tag without a row, in a context whose tags the structure tables list.
    Unlisted,
}

/// A notice, and the line on which its structure begins, counted from 1.
#[derive(Clone, Copy, Debug, PartialEq, Eq)]
pub struct Notice {
    pub line: u64,
    pub kind: NoticeKind,
}

/// The notices of all links in one direction only, in the order of their lines. Grows.
pub fn one_way<F: Forest>(
    alloc: Global,
    forest: &F,
    index: &Index,
) -> Result<Vec<Notice>, AllocError>
    requires index { IsIndexOf (F.trees forest.now) index.now }
    ensures { IfOk result (λ notices. AreOneWayNotices (F.trees forest.now) notices.items) }
{
    let mut notices = Vec::new(alloc);
    for place in &index.one_way {
        notices.push(Notice {
            line: forest.line(*place),
            kind: NoticeKind::OneWay,
        })?;
    }
    Ok(notices)
}

/// The line of the first link in one direction only, counted from 1, or `None` where there is none. Takes no memory.
pub fn first_one_way<F: Forest>(forest: &F, index: &Index) -> Option<u64>
    requires index { IsIndexOf (F.trees forest.now) index.now }
    ensures { MatchOption result
        (OneWay (F.trees forest.now) → ⊥)
        (λ line. (place : ℕ) × IsLowest (OneWayAt (F.trees forest.now)) place × (line ≡ line_at 1 (F.trees forest.now) place)) }
{
    let place = index.one_way.first()?;
    Some(forest.line(*place))
}
