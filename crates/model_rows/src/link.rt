ghost use Rattle.model_rows.specs.LinkRows.{InTurn};

#[tactic(auto, using(crate::proofs::LinkRows::in_turn))]
/// Two ports of a direct link contend for a third one that has room for one message: the pointer gives each its turn.
pub fn contending_ports()
    ensures in_turn { InTurn }
{}
