ghost use Rattle.model_rows.specs.CoreRows.{PrintedCores};

#[tactic(auto, using(crate::proofs::CoreRows::printed_cores))]
/// The lines of cores and of their registers, to the byte.
pub fn printed_cores()
    ensures printed { PrintedCores }
{}
