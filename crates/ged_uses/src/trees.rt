// On ged_tree, and on a definition of ged_schema.
ghost use Rattle.std.specs.Prelude.{◌≡◌};
ghost use Rattle.ged_tree.specs.Trees.{records_of};
ghost use Rattle.ged_schema.specs.Checked.{count_of};

use ged_tree::{Forest, end_of_all, next_in_run};

/// How many records have a tag. HEAD is none. Takes no memory.
pub fn count_records<F: Forest>(forest: &F, tag: &str) -> usize
    ensures { result ≡ count_of tag.now (records_of (F.trees forest.now)) }
{
    let end = end_of_all(forest);
    let Some(mut place) = next_in_run(forest, 0, end) else {
        return 0;
    };
    let mut count = 0usize;
    while let Some(after) = next_in_run(forest, place, end) {
        if forest.tag(place) == tag {
            count += 1;
        }
        place = after;
    }
    count
}
