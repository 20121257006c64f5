ghost use Rattle.model_rows.specs.OutsideRows.{Rising};

#[tactic(auto, using(crate::proofs::OutsideRows::rising))]
/// When a count of faults rose in a call.
pub fn rising_counts()
    ensures rising { Rising }
{}
