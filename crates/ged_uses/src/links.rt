// On ged_link.
ghost use Rattle.std.specs.Prelude.{◌≡◌, ◌⊎◌, ℕ, IfOk, IfErr, MatchOption, alloc_error};
ghost use Rattle.ged_tree.specs.Places.{line_at};
ghost use Rattle.ged_link.specs.Notices.{OneWay, OneWayAt};
ghost use Rattle.ged_link.specs.LinkFaults.{HasLinkFault, IsLowest};

use ged_link::{LinkFault, first_one_way, resolve};
use ged_tree::Forest;
use std::alloc::Global;

/// The line of the first one-way link, or the fault of the cross-references.
pub fn first_link<F: Forest>(alloc: Global, forest: &F) -> Result<Option<u64>, LinkFault>
    ensures found { IfOk result (λ found. MatchOption found
        (OneWay (F.trees forest.now) → ⊥)
        (λ line. (place : ℕ) × IsLowest (OneWayAt (F.trees forest.now)) place × (line ≡ line_at 1 (F.trees forest.now) place))) }
    ensures fault { IfErr result (λ fault. (fault ≡ LinkFault.Memory alloc_error) ⊎ HasLinkFault (F.trees forest.now) fault) }
{
    let index = resolve(alloc, forest)?;
    Ok(first_one_way(forest, &index))
}
