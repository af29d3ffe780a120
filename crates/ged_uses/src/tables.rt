// On ged_schema.
ghost use Rattle.std.specs.Prelude.{◌≡◌, ◌⊎◌, IfOk, IfErr, MatchOption, alloc_error, option_map};
ghost use Rattle.ged_link.specs.LinkFaults.{HasLinkFault};
ghost use Rattle.ged_schema.specs.declared.context.Context.TheVariants.{Indi};
ghost use Rattle.ged_schema.specs.declared.profile.Profile.TheVariants.{Strict};
ghost use Rattle.ged_schema.specs.Profiles.{CheckedAs, IsFirstFaultAs};
ghost use Rattle.ged_schema.specs.Tables.{row};

use ged_link::{LinkFault, resolve};
use ged_schema::{Context, Profile, SchemaAt, check_as, lookup_name};
use ged_tree::Forest;
use ged_value::Kind;
use std::alloc::Global;

/// What the tables require of a payload directly below a person.
pub fn kind_below_person(tag: &str) -> Option<Kind>
    ensures { result ≡ option_map (λ found. found.kind) (row Indi tag.now) }
{
    let rule = lookup_name(Context::Indi, tag)?;
    Some(rule.kind)
}

/// The first fault by the tables under the strict profile, or the fault of the cross-references.
pub fn table_fault<F: Forest>(alloc: Global, forest: &F) -> Result<Option<SchemaAt>, LinkFault>
    ensures found { IfOk result (λ found. MatchOption found
        (CheckedAs Strict (F.trees forest.now))
        (λ at. IsFirstFaultAs Strict (F.trees forest.now) at)) }
    ensures fault { IfErr result (λ fault. (fault ≡ LinkFault.Memory alloc_error) ⊎ HasLinkFault (F.trees forest.now) fault) }
{
    let index = resolve(alloc, forest)?;
    match check_as(Profile::Strict, forest, &index) {
        Ok(()) => Ok(None),
        Err(at) => Ok(Some(at)),
    }
}
