ghost use Rattle.model_rows.specs.MemoryRows.{WholeAnswers};

#[tactic(auto, using(crate::proofs::MemoryRows::whole_answers))]
/// A read and a write that a memory serves, with all that its answers say.
pub fn whole_answers()
    ensures answers { WholeAnswers }
{}
