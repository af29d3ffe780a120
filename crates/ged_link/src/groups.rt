// Links that follow each other by the records that point, put in order record by record.
ghost use Rattle.std.specs.Prelude.{◌<◌, ◌≤◌, length};
ghost use Rattle.std.specs.List.Sorted.{IsPermutation};
ghost use Rattle.ged_link.specs.inner.PairSets.{IsInOrder};

/// Where the links of the record end that one at an index is of.
fn group_end(pairs: &[(u32, u32)], start: usize) -> usize
    requires { start < length pairs.now }
    ensures forth { start < result }
    ensures within { result ≤ length pairs.now }
{
    let from = pairs[start].0;
    let mut end = start + 1;
    while end < pairs.len() && pairs[end].0 == from {
        end += 1;
    }
    end
}

/// Sorts some of the links by the records that they lead to.
fn sort_group(pairs: &mut [(u32, u32)], start: usize, end: usize)
    requires order { start ≤ end }
    requires within { end ≤ length pairs.old }
    ensures { IsPermutation pairs.old pairs.new }
{
    pairs[start..end].sort_unstable_by_key(|pair: &(u32, u32)| -> u32 { pair.1 });
}

/// Sorts the links of each record that stand together by the records that they lead to.
fn sort_groups(pairs: &mut [(u32, u32)])
    ensures { IsPermutation pairs.old pairs.new }
{
    let mut start = 0;
    while start < pairs.len() {
        let end = group_end(pairs, start);
        if end - start > 1 {
            sort_group(pairs, start, end);
        }
        start = end;
    }
}

/// Puts links in order, by the record that points. Where they follow each other by it, as they stand in the file, and those of each
/// record are sorted, they are in order, and the sort of all only goes over them. Takes no memory.
pub(crate) fn sort_links(pairs: &mut [(u32, u32)])
    ensures ordered { IsInOrder pairs.new }
    ensures permutation { IsPermutation pairs.old pairs.new }
{
    sort_groups(pairs);
    pairs.sort_unstable();
}
