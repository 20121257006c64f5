ghost use Rattle.std.specs.Prelude.{◌≡◌};
ghost use Rattle.top_run.specs.Top.{status_of};

use tick_law::Verdict;

/// The status that the program ends with: 0 for a run that finished, 10 for one that is stuck, 11 for one that its budget cut, 2
/// for words that are not accepted or name what a machine does not have, 3 for a file that breaks a rule, 4 for a program that
/// breaks one, 5 for a file whose reading failed, 6 for a write that failed, 8 for want of memory.
#[derive(Clone, Copy, Debug, PartialEq, Eq)]
pub struct Status(pub u8);

impl Status {
    /// The status of a verdict.
    pub fn of(verdict: Verdict) -> Self
        ensures { result.0 ≡ status_of verdict }
    {
        match verdict {
            Verdict::Finished => Status(0),
            Verdict::Stuck => Status(10),
            Verdict::Cut => Status(11),
        }
    }
}
