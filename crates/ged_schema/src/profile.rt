// Profiles: whether notices refuse a document.
ghost use Rattle.std.specs.Prelude.{◌≡◌, ℕ, MatchOption, MatchResult};
ghost use Rattle.ged_tree.specs.DocumentLines.{document_lines};
ghost use Rattle.ged_tree.specs.Places.{line_at};
ghost use Rattle.ged_link.specs.Indexes.{IsIndexOf};
ghost use Rattle.ged_link.specs.LinkFaults.{IsLowest};
ghost use Rattle.ged_schema.specs.declared.context.Context.TheVariants.{File};
ghost use Rattle.ged_schema.specs.Checked.{Checked};
ghost use Rattle.ged_schema.specs.Unlisted.{IsCoverage, Unlisted, UnlistedAt};
ghost use Rattle.ged_schema.specs.Profiles.{CheckedAs, IsFirstFaultAs, IsFirstNotice, NoNotice};

use crate::checking::check_tables;
use crate::fault::{SchemaAt, SchemaFault};
use crate::line_walk::LineWalk;
use crate::notices::{Coverage, first_unlisted};
use ged_link::{Index, first_one_way};
use ged_tree::{Forest, LineReader, end_of_all};

/// Whether notices refuse a document that is otherwise as the structure tables ask.
#[derive(Clone, Copy, Debug, PartialEq, Eq)]
pub enum Profile {
    /// A notice refuses nothing.
    Lenient,
    /// Each notice is a fault: [`SchemaFault::OneWayLink`] or [`SchemaFault::UnlistedTag`].
    Strict,
}

/// What [`first_unlisted`] answers, without a walk where the tables list each tag.
fn first_tag<F: Forest>(forest: &F, coverage: Coverage) -> Option<u64>
    requires { IsCoverage (F.trees forest.now) coverage }
    ensures { MatchOption result
        (¬ (Unlisted File (F.trees forest.now)))
        (λ line. (place : ℕ) × IsLowest (UnlistedAt (F.trees forest.now)) place × (line ≡ line_at 1 (F.trees forest.now) place)) }
{
    match coverage {
        Coverage::Whole => None,
        Coverage::Partial => first_unlisted(forest),
    }
}

/// The first notice of a document, told as a fault.
fn first_notice<F: Forest>(forest: &F, index: &Index, coverage: Coverage) -> Option<SchemaAt>
    requires index { IsIndexOf (F.trees forest.now) index.now }
    requires coverage { IsCoverage (F.trees forest.now) coverage }
    ensures { MatchOption result
        (NoNotice (F.trees forest.now))
        (λ at. IsFirstNotice (F.trees forest.now) at) }
{
    let (line, fault) = match (first_one_way(forest, index), first_tag(forest, coverage)) {
        (Some(link), Some(tag)) => {
            if link < tag {
                (link, SchemaFault::OneWayLink)
            } else {
                (tag, SchemaFault::UnlistedTag)
            }
        }
        (Some(link), None) => (link, SchemaFault::OneWayLink),
        (None, Some(tag)) => (tag, SchemaFault::UnlistedTag),
        (None, None) => return None,
    };
    Some(SchemaAt { line, fault })
}

/// The coverage of a document that is as the structure tables ask, or the notice that the profile refuses.
fn refuse_notices<F: Forest>(
    profile: Profile,
    forest: &F,
    index: &Index,
    coverage: Coverage,
) -> Result<Coverage, SchemaAt>
    requires index { IsIndexOf (F.trees forest.now) index.now }
    requires checked { Checked (F.trees forest.now) }
    requires coverage { IsCoverage (F.trees forest.now) coverage }
    ensures { MatchResult result
        (λ coverage. CheckedAs profile (F.trees forest.now) × IsCoverage (F.trees forest.now) coverage)
        (λ at. IsFirstFaultAs profile (F.trees forest.now) at) }
{
    match profile {
        Profile::Lenient => Ok(coverage),
        Profile::Strict => match first_notice(forest, index, coverage) {
            Some(at) => Err(at),
            None => Ok(coverage),
        },
    }
}

/// What [`check_as`] answers, and where a document is as the profile asks, whether the tables list each of its standard
/// tags. Takes no memory.
///
/// The tags are looked up once for both. Under [`Profile::Strict`] the answer is never [`Coverage::Partial`]
/// (FamilySearch GEDCOM 7.0, "Structure Organization" and "Data types").
pub fn check_coverage<F: Forest>(
    profile: Profile,
    forest: &F,
    index: &Index,
) -> Result<Coverage, SchemaAt>
    requires { IsIndexOf (F.trees forest.now) index.now }
    ensures { MatchResult result
        (λ coverage. CheckedAs profile (F.trees forest.now) × IsCoverage (F.trees forest.now) coverage)
        (λ at. IsFirstFaultAs profile (F.trees forest.now) at) }
{
    let coverage = check_tables(forest, index)?;
    refuse_notices(profile, forest, index, coverage)
}

/// What [`check_coverage`] answers, for a document whose lines a walk has read: as while [`ged_tree::flatten_with`] made it.
/// Takes no memory.
///
/// Where the walk has seen each structure as the tables ask, the document is not walked through again
/// (FamilySearch GEDCOM 7.0, "Structure Organization" and "Data types").
pub fn check_walked<F: Forest>(
    profile: Profile,
    forest: &F,
    index: &Index,
    walk: &LineWalk,
) -> Result<Coverage, SchemaAt>
    requires index { IsIndexOf (F.trees forest.now) index.now }
    requires walk { ⟦<LineWalk as LineReader>⟧.has_read walk.now (document_lines (F.trees forest.now)) }
    ensures { MatchResult result
        (λ coverage. CheckedAs profile (F.trees forest.now) × IsCoverage (F.trees forest.now) coverage)
        (λ at. IsFirstFaultAs profile (F.trees forest.now) at) }
{
    // That the forest is a document is what `end_of_all` tells.
    let _end = end_of_all(forest);
    let coverage = match walk.coverage(index) {
        Some(coverage) => coverage,
        None => check_tables(forest, index)?,
    };
    refuse_notices(profile, forest, index, coverage)
}

/// Whether a document is as the structure tables ask and, under the strict profile, has no notice; or its first fault.
/// Takes no memory.
///
/// Under [`Profile::Lenient`] it answers what [`check`](crate::check) answers. Under [`Profile::Strict`] a notice is told
/// where `check` finds no fault, and then the one at the lowest line
/// (FamilySearch GEDCOM 7.0, "Structure Organization" and "Data types").
pub fn check_as<F: Forest>(profile: Profile, forest: &F, index: &Index) -> Result<(), SchemaAt>
    requires { IsIndexOf (F.trees forest.now) index.now }
    ensures { MatchResult result (λ _. CheckedAs profile (F.trees forest.now)) (λ at. IsFirstFaultAs profile (F.trees forest.now) at) }
{
    check_coverage(profile, forest, index)?;
    Ok(())
}
