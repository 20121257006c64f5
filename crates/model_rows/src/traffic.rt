ghost use Rattle.model_rows.specs.TrafficRows.{DrawnValues, DrawnRequests, SummedAnswers};

#[tactic(auto, using(crate::proofs::TrafficRows::drawn_values))]
/// The first values that an agent draws from 0, and which of them ask for a write in mode `mixed`.
pub fn drawn_values()
    ensures values { DrawnValues }
{}

#[tactic(auto, using(crate::proofs::TrafficRows::drawn_requests))]
/// The steps in which agents send requests, with all that these say.
pub fn drawn_requests()
    ensures requests { DrawnRequests }
{}

#[tactic(auto, using(crate::proofs::TrafficRows::summed_answers))]
/// How an agent's sum goes on with the answers that it takes.
pub fn summed_answers()
    ensures sums { SummedAnswers }
{}
