ghost use Rattle.model_rows.specs.LineRows.{UsedLines, Victims};

#[tactic(auto, using(crate::proofs::LineRows::used_lines))]
/// How lines are read and written, and what becomes of their use numbers.
pub fn used_lines()
    ensures lines { UsedLines }
{}

#[tactic(auto, using(crate::proofs::LineRows::victims))]
/// Which line gives way to another, how it is written down, and how the other one comes.
pub fn victims()
    ensures victims { Victims }
{}
