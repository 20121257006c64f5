ghost use Rattle.model_rows.specs.ReportRows.{Printed};

#[tactic(auto, using(crate::proofs::ReportRows::printed))]
/// Reports of runs of agents and memories, to the byte.
pub fn printed_reports()
    ensures printed { Printed }
{}
