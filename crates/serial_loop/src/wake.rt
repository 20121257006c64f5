//! Owners of ports on the other side are woken by what their ports show.
ghost use Rattle.std.specs.Prelude.{◌≡◌, ◌^◌, ◌<◌, ◌≤◌, length, map};
ghost use Rattle.sim_base.specs.declared.time.TheConstants.{LATEST_TICK};
ghost use Rattle.tick_law.specs.Wires.{owner_of};
ghost use Rattle.model_laws.specs.Fitted.{Wakes};
ghost use Rattle.port_row.specs.Row.{face_of};
ghost use Rattle.actor_turn.specs.Side.{edge_of};
ghost use Rattle.port_rows.specs.Rows.{are_parts};
ghost use Rattle.serial_loop.specs.Woken.{set_where, AreWoken};

use crate::table::NextTable;
use actor_turn::side::SideGear;
use port_rows::{PortRows, SideOf};
use sim_base::{Time, first_edge_from};

/// Where this holds, the owner of a port steps at its first edge from `from`.
fn wake_where(changed: bool, port: u32, others: &SideGear, from: u64, next: &mut NextTable)
    requires port { port < length others.now.wiring.owner }
    requires wakes { Wakes others.now.wiring
        (length others.now.wiring.owner) others.now.periods.items next.old }
    requires time { from ≤ LATEST_TICK }
    ensures { next.new ≡ set_where changed (owner_of others.now.wiring port)
        (edge_of others.now from (owner_of others.now.wiring port)) next.old }
{
    if changed {
        let no = others.wiring.owner(port);
        let edge = first_edge_from(Time(from), others.periods[no as usize]);
        next.set(no, Some(edge.0));
    }
}

/// Wakes the owner, of this side, of each port that shows it something else than was seen of it, and notes what all
/// ports show. Who is woken steps at its first edge from `from`.
pub fn wake_changed(
    rows: &mut PortRows,
    side: SideOf,
    others: &SideGear,
    from: u64,
    next: &mut NextTable,
)
    requires wakes { Wakes others.now.wiring
        (length rows.old.ports) others.now.periods.items next.old }
    requires few { length rows.old.ports < 2 ^ 32 }
    requires seen { length rows.old.seen ≡ length rows.old.ports }
    requires time { from ≤ LATEST_TICK }

    ensures woken { AreWoken (are_parts side) others.now from rows.old next.old next.new }
    ensures settled { rows.new ≡ record rows.old { seen = map face_of rows.old.ports } }
{
    for port in 0..(rows.len() as u32) {
        let changed = rows.has_changed(port, side);
        wake_where(changed, port, others, from, next);
        rows.settle_at(port);
    }
}
