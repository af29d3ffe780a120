// The whole lines of a file that is fed piece by piece, judged as they come.
ghost use Rattle.std.specs.Prelude.{◌≢◌, ◌++◌, [], MatchResult};
ghost use Rattle.ged_line.specs.WholeLines.{AreWhole};
ghost use Rattle.ged_tree.specs.FileFaults.{FirstFaultIn};
ghost use Rattle.ged_tool.specs.Judged.{HasJudged};

use ged_line::further_lines;
use ged_tree::{Judge, TreeAt, TreeFault};

/// The lines so far, at none of which a fault stands.
#[derive(Drop)]
pub(crate) struct Judged {
    judge: Judge,
    count: u64,
}

impl Judged {
    /// No lines.
    pub(crate) fn new() -> Judged
        ensures { HasJudged result [] }
    {
        Judged {
            judge: Judge::new(),
            count: 0,
        }
    }

    /// Judges the lines that come behind those of a front, up to the first one with a fault.
    pub(crate) fn take(&mut self, front: &[u8], more: &[u8]) -> Result<(), TreeAt>
        requires whole { AreWhole front.now }
        requires judged { HasJudged self.old front.now }
        ensures { MatchResult result
            (λ _. HasJudged self.new (front.now ++ more.now))
            (λ at. FirstFaultIn (front.now ++ more.now) at.line at.fault × (at.fault ≢ TreeFault.NoTrailer)) }
    {
        for spelled in further_lines(front, more) {
            let line = self.count + 1;
            match spelled {
                Ok(spelled) => {
                    if let Err(fault) = self.judge.line(&spelled.line) {
                        return Err(TreeAt { line, fault });
                    }
                }
                Err(fault) => {
                    let fault = TreeFault::Line(fault);
                    return Err(TreeAt { line, fault });
                }
            }
            self.count = line;
        }
        Ok(())
    }
}
