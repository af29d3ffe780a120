// Runs of structures below which nothing stands, and which stand in a file as they are written.
ghost use Rattle.std.specs.Prelude.{◌<◌, IfSome};
ghost use Rattle.ged_tree.specs.Runs.{IsRunOfTrees};
ghost use Rattle.ged_canon.specs.inner.Writing.{AreLinesOfRun};

use crate::writer::order::are_in_order;
use crate::writer::plan::Writer;
use ged_tree::{Forest, next_in_run};

/// How many structures are looked at together: in longer runs something mostly stands below one of them.
const MOST_LEAVES: usize = 3;

impl<F: Forest> Writer<'_, '_, F> {
    /// From where up to where the lines of a run of structures at a level, which are no records, stand together in the file as they are written,
    /// whatever their context; or `None` where that is not told at a glance: nothing may stand below any of them, each line must be the only
    /// one of its structure and stay as it is, and their tags must be in order.
    #[inline(always)]
    pub(crate) fn leaves_run(&self, level: u8, start: usize, end: usize) -> Option<(usize, usize)>
        requires deep { 0 < level }
        requires run { IsRunOfTrees (F.trees self.now.forest.now) start end }
        ensures { IfSome result (AreLinesOfRun self.now.plan.edition self.now.plan.file.now level (F.trees self.now.forest.now) start end) }
    {
        if end - start > MOST_LEAVES {
            return None;
        }
        self.few_leaves_run(level, start, end)
    }

    /// The same for a run of any length. A function of its own, with a few values in registers.
    #[inline(never)]
    fn few_leaves_run(&self, level: u8, start: usize, end: usize) -> Option<(usize, usize)>
        requires deep { 0 < level }
        requires run { IsRunOfTrees (F.trees self.now.forest.now) start end }
        ensures { IfSome result (AreLinesOfRun self.now.plan.edition self.now.plan.file.now level (F.trees self.now.forest.now) start end) }
    {
        let first = self.lines.start_of(start);
        let mut last = first;
        let mut place = start;
        while let Some(after) = next_in_run(self.forest, place, end) {
            if after > place + 1 {
                return None;
            }
            let (from, to) = self.plain_run(level, place)?;
            if from != last {
                return None;
            }
            last = to;
            place = after;
        }
        if !are_in_order(self.forest, start, end) {
            return None;
        }
        Some((first, last))
    }
}
