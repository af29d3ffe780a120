// Structures with a standard tag that the tables do not list where they stand.
ghost use Rattle.std.specs.Prelude.{◌≡◌, ◌≢◌, ◌<◌, ◌++◌, true, List, ℕ, map, OnOk, IfOk, IsTrue, ◌↔◌, MatchOption};
ghost use Rattle.ged_line.specs.Names.{is_standard_tag, is_tag};
ghost use Rattle.ged_tree.specs.Documents.{is_document};
ghost use Rattle.ged_tree.specs.Runs.{IsRunOfTrees, trees_between};
ghost use Rattle.ged_tree.specs.Places.{line_at};
ghost use Rattle.ged_link.specs.LinkFaults.{IsLowest};
ghost use Rattle.ged_schema.specs.declared.context.Context.TheVariants.{File, Unchecked};
ghost use Rattle.ged_schema.specs.Unlisted.{AreUnlistedNotices, IsCoverage, Unlisted, UnlistedAt, UnlistedFrom, unlisted_notice};
ghost use Rattle.ged_schema.specs.inner.Listings.{ListsUnlisted};

use crate::context::Context;
use crate::slots::{rule_among, seed_of};
use crate::tables::rows;
use ged_link::{Notice, NoticeKind};
use ged_tree::{Forest, end_of_all, next_in_run};
use std::alloc::{AllocError, Global};

/// Whether the tables list each standard tag of a document in the contexts where they say what may stand
/// (FamilySearch GEDCOM 7.0, "Structure Organization").
#[derive(Clone, Copy, Debug, PartialEq, Eq)]
pub enum Coverage {
    /// They do: [`unlisted`] has nothing to tell.
    Whole,
    /// They do not: [`unlisted`] tells one notice or more.
    Partial,
}

/// Whether a tag without a row in a context gives a notice there.
pub(crate) fn gives_notice(context: Context, tag: &str) -> bool
    requires { is_tag tag.now ≡ true }
    ensures { IsTrue result ↔ ((is_standard_tag tag.now ≡ true) × (context ≢ Unchecked)) }
{
    context != Context::Unchecked && !tag.as_bytes().starts_with(b"_")
}

/// Adds the notices of a run's structures with unlisted tags, and of those below them.
fn push_unlisted<F: Forest>(
    forest: &F,
    context: Context,
    start: usize,
    end: usize,
    notices: &mut Vec<Notice>,
) -> Result<(), AllocError>
    requires run { IsRunOfTrees (F.trees forest.now) start end }
    requires document { is_document (F.trees forest.now) ≡ true }
    ensures { OnOk result ((places : List ℕ) × ListsUnlisted context start (trees_between (F.trees forest.now) start end) places
        × (notices.new.items ≡ notices.old.items ++ map (unlisted_notice (F.trees forest.now)) places)) }
{
    let rules = rows(context);
    let seed = seed_of(context);
    let mut place = start;
    while let Some(after) = next_in_run(forest, place, end) {
        let tag = forest.tag(place);
        if let Some(rule) = rule_among(rules, seed, tag) {
            if place + 1 < after {
                push_unlisted(forest, rule.below, place + 1, after, notices)?;
            }
        } else if gives_notice(context, tag) {
            notices.push(Notice {
                line: forest.line(place),
                kind: NoticeKind::Unlisted,
            })?;
        }
        place = after;
    }
    Ok(())
}

/// The notices of all structures whose tag is a standard one without a row, in a context other than
/// [`Context::Unchecked`], in the order of their lines. So nothing below a structure without a row gives a notice. Answers an error
/// where a growth was refused. Grows (FamilySearch GEDCOM 7.0, "Structure Organization").
pub fn unlisted<F: Forest>(alloc: Global, forest: &F) -> Result<Vec<Notice>, AllocError>
    ensures { IfOk result (λ notices. AreUnlistedNotices (F.trees forest.now) notices.items) }
{
    let mut notices = Vec::new(alloc);
    push_unlisted(forest, Context::File, 0, end_of_all(forest), &mut notices)?;
    Ok(notices)
}

/// The place of the first structure with an unlisted tag, among those of a run and those below them.
fn first_between<F: Forest>(forest: &F, context: Context, start: usize, end: usize) -> Option<usize>
    requires run { IsRunOfTrees (F.trees forest.now) start end }
    requires document { is_document (F.trees forest.now) ≡ true }
    ensures { MatchOption result
        ((place : ℕ) → ¬ (UnlistedFrom context start (trees_between (F.trees forest.now) start end) place))
        (λ place. IsLowest (UnlistedFrom context start (trees_between (F.trees forest.now) start end)) place) }
{
    let rules = rows(context);
    let seed = seed_of(context);
    let mut place = start;
    while let Some(after) = next_in_run(forest, place, end) {
        let tag = forest.tag(place);
        if let Some(rule) = rule_among(rules, seed, tag) {
            if let Some(found) = first_between(forest, rule.below, place + 1, after) {
                return Some(found);
            }
        } else if gives_notice(context, tag) {
            return Some(place);
        }
        place = after;
    }
    None
}

/// The line of the first structure that gives a notice in [`unlisted`], counted from 1, or `None` where there is none. Takes no
/// memory (FamilySearch GEDCOM 7.0, "Structure Organization").
pub fn first_unlisted<F: Forest>(forest: &F) -> Option<u64>
    ensures { MatchOption result
        (¬ (Unlisted File (F.trees forest.now)))
        (λ line. (place : ℕ) × IsLowest (UnlistedAt (F.trees forest.now)) place × (line ≡ line_at 1 (F.trees forest.now) place)) }
{
    let place = first_between(forest, Context::File, 0, end_of_all(forest))?;
    Some(forest.line(place))
}

/// Whether the tables list each tag of a document, told in a walk of its own.
pub(crate) fn coverage_of<F: Forest>(forest: &F) -> Coverage
    ensures { IsCoverage (F.trees forest.now) result }
{
    match first_unlisted(forest) {
        Some(_) => Coverage::Partial,
        None => Coverage::Whole,
    }
}
