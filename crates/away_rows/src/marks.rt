ghost use Rattle.std.specs.Prelude.{◌≡◌, ◌<◌, length, IfOk};
ghost use Rattle.away_rows.specs.Marks.{no_marks, claimed, finished};

use bit_set::BitSet;
use sim_base::OutOfMemory;
use std::alloc::Global;

/// The actors of one side that have to step in a pass: those that wait, those that are out for their step, and those that are
/// back. Nobody else has a mark.
#[derive(Drop)]
pub struct Marks {
    pub waiting: BitSet,
    pub out: BitSet,
    pub back: BitSet,
}

impl Marks {
    /// Nobody of so many actors has a mark.
    pub fn open(alloc: Global, count: u32) -> Result<Marks, OutOfMemory>
        ensures { IfOk result (λ marks. marks ≡ no_marks count) }
    {
        Ok(Marks {
            waiting: BitSet::open(alloc, count)?,
            out: BitSet::open(alloc, count)?,
            back: BitSet::open(alloc, count)?,
        })
    }

    /// An actor that waited is out.
    pub fn claim(marks: &mut Marks, no: u32)
        requires waiting { no < length marks.old.waiting }
        requires out { no < length marks.old.out }
        ensures { marks.new ≡ claimed marks.old no }
    {
        marks.waiting.remove(no as usize);
        marks.out.insert(no as usize);
    }

    /// An actor that was out is back.
    pub fn finish(marks: &mut Marks, no: u32)
        requires out { no < length marks.old.out }
        requires back { no < length marks.old.back }
        ensures { marks.new ≡ finished marks.old no }
    {
        marks.out.remove(no as usize);
        marks.back.insert(no as usize);
    }
}
