use crate::gear::Gear;
use port_rows::World;
use sim_base::Time;
use trace_out::Names;

/// A run at its beginning: its world, its gear, the names that its lines have, and the greatest time that runs.
#[derive(Drop)]
pub struct Opened<P: Drop, N: Drop> {
    pub world: World<P, N>,
    pub gear: Gear,
    pub names: Names,
    pub until: Time,
}
