// Laws of the definitions that the contracts of this crate cite. Nobody needs to run the functions: their contracts are
// proved.
ghost use Rattle.std.specs.Prelude.{◌↔◌};
ghost use Rattle.ged_link.specs.Indexes.{IsIndexOf};
ghost use Rattle.ged_schema.specs.declared.fault.SchemaAt.{SchemaAt};
ghost use Rattle.ged_schema.specs.Profiles.{CheckedAs, IsFirstFaultAs};
ghost use Rattle.ged_schema.specs.CheckedLaws.{CheckedOrFault};
ghost use Rattle.ged_schema.specs.Laws.{HasDistinctTags, NoFaultOfChecked, NoneIsUnlisted, OneFirstFault, OneListing, OneNotice, UnlistedHasPlace};

use crate::context::Context;
use crate::profile::{Profile, check_as};
use crate::slots::seed_of;
use ged_link::Index;
use ged_tree::Forest;

/// No two rows of a context have the same tag.
pub fn distinct_tags(context: Context)
    ensures { HasDistinctTags context }
{
    let _ = seed_of(context);
}

/// A document has one first fault at most, under each profile.
pub fn one_first_fault()
    ensures { OneFirstFault }
{}

/// A document that is as a profile asks has no first fault under it.
pub fn no_fault_of_checked()
    ensures { NoFaultOfChecked }
{}

/// A document has a first fault exactly where it is not as the profile asks.
pub fn fault_of_unchecked<F: Forest>(profile: Profile, forest: &F, index: &Index)
    requires { IsIndexOf (F.trees forest.now) index.now }
    ensures { ((at : SchemaAt) × IsFirstFaultAs profile (F.trees forest.now) at) ↔ ¬ (CheckedAs profile (F.trees forest.now)) }
{
    let _ = check_as(profile, forest, index);
}

/// No line has a notice of each kind.
pub fn one_notice()
    ensures { OneNotice }
{}

/// Some structure has an unlisted tag exactly where the one at some place has.
pub fn unlisted_has_place()
    ensures { UnlistedHasPlace }
{}

/// The notices of a document's structures with unlisted tags are one list.
pub fn one_listing()
    ensures { OneListing }
{}

/// That list is empty exactly where no structure has an unlisted tag.
pub fn none_is_unlisted()
    ensures { NoneIsUnlisted }
{}

/// A document is as a profile asks, or it has a first fault under it.
pub fn checked_or_fault()
    ensures { CheckedOrFault }
{}
