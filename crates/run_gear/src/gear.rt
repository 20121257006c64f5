use actor_turn::side::SideGear;
use port_msg::RecList;
use port_row::Ports;

/// What a run takes besides its world and its next times: both sides, rows in hand for its parts, and room for the records of
/// a time.
#[derive(Drop)]
pub struct Gear {
    pub parts: SideGear,
    pub links: SideGear,
    pub hands: Vec<Ports>,
    pub recs: RecList,
}
