ghost use Rattle.model_rows.specs.RingRows.{ThreeRelays};

#[tactic(auto, using(crate::proofs::RingRows::three_relays))]
/// The plan of the ring of three relays, number by number.
pub fn three_relays()
    ensures plan { ThreeRelays }
{}
