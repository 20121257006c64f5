use actor_turn::gear::RowGear;
use port_rows::World;
use trace_out::Names;

/// A run of a plan: its world and its gear, the names of its lines, the greatest time that is to run, the boundary that it has come
/// to (all times below it are done), and the last of these at which an actor made progress, or 0. Times in picoseconds.
#[derive(Drop)]
pub struct Run<P: Drop, N: Drop> {
    pub world: World<P, N>,
    pub gear: RowGear,
    pub names: Names,
    pub until: u64,
    pub at: u64,
    pub end: u64,
}
