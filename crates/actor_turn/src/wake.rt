//! Owners of ports on the other side are woken by what their ports show.
ghost use Rattle.std.specs.Prelude.{◌≡◌, ℕ, ◌<◌, ◌≤◌, length, map, slice_set, true, false};
ghost use Rattle.sim_base.specs.declared.time.TheConstants.{LATEST_TICK};
ghost use Rattle.tick_law.specs.Wires.{own_of, Has, AllApart};
ghost use Rattle.tick_law.specs.Pass.{port_at};
ghost use Rattle.port_row.specs.Row.{face_of, face_at};
ghost use Rattle.port_rows.specs.Rows.{are_parts, other_face};
ghost use Rattle.actor_turn.specs.Waking.{CanWake, woken_by, Waking};

use crate::next::set_next;
use crate::side::SideGear;
use event_queue::NextTimes;
use port_rows::{PortRows, SideOf};
use sim_base::{ActorNo, Steps};
use std::sync::ledger::Ledger;

/// Where this holds, the owner of a port steps at its first edge from `from`.
fn wake_where<L: Ledger>(
    changed: bool,
    port: u32,
    others: &SideGear,
    from: u64,
    next: &mut NextTimes,
    looks: &mut Steps<L>,
)
    requires port { port < length others.now.wiring.owner }
    requires wakes { CanWake others.now (length others.now.wiring.owner) next.old }
    requires time { from ≤ LATEST_TICK }
    ensures { next.new ≡ woken_by changed others.now port from next.old }
{
    if changed {
        let no = others.wiring.owner(port);
        let period = others.periods[no as usize];
        let edge = others.beat.first_edge_from(from, period);
        set_next(next, ActorNo(others.first + no), Some(edge), looks);
    }
}

/// Whether a port shows its owner of this side something else than was seen of it. What it shows is noted as seen.
fn note_change(rows: &mut PortRows, port: u32, side: SideOf) -> bool
    requires { port < length rows.old.ports }
    ensures rows { rows.new
        ≡ record rows.old {
          seen = slice_set rows.old.seen port
              (face_of (port_at rows.old.ports port));
        } }
    ensures within { port < length rows.old.seen }
    ensures changed { result ≡ other_face (are_parts side) (face_at rows.old.seen port)
        (face_of (port_at rows.old.ports port)) }
{
    let changed = rows.has_changed(port, side);
    rows.settle_at(port);
    changed
}

/// Wakes the part of each port of a link that shows it something else than was seen, at its first edge from `from`, and notes
/// what the ports show. It looks at the touched ports alone.
pub fn wake_parts<L: Ledger>(
    rows: &mut PortRows,
    link: u32,
    parts: &SideGear,
    from: u64,
    next: &mut NextTimes,
    looks: &mut Steps<L>,
)
    requires link { link < length rows.old.wires.own }
    requires apart { AllApart (own_of rows.old.wires link) }
    requires within { (q : ℕ) → Has (own_of rows.old.wires link) q → q < length rows.old.ports }
    requires wakes { CanWake parts.now (length rows.old.ports) next.old }
    requires time { from ≤ LATEST_TICK }
    ensures { Waking true (own_of rows.old.wires link) parts.now from rows.old next.old
        (length (own_of rows.old.wires link)) rows.new next.new }
{
    let mut at = 0;
    while let Some(k) = rows.next_touched(link, at) {
        let port = rows.own(link)[k];
        let changed = note_change(rows, port, SideOf::Parts);
        wake_where(changed, port, parts, from, next, looks);
        at = k + 1;
    }
}

/// Wakes the link of each of a part's ports that shows it something else than was seen, at its first edge from `from`, and notes
/// what the ports show.
pub fn wake_links<L: Ledger>(
    rows: &mut PortRows,
    own: &[u32],
    links: &SideGear,
    from: u64,
    next: &mut NextTimes,
    looks: &mut Steps<L>,
)
    requires apart { AllApart own.now }
    requires within { (q : ℕ) → Has own.now q → q < length rows.old.ports }
    requires wakes { CanWake links.now (length rows.old.ports) next.old }
    requires time { from ≤ LATEST_TICK }
    ensures { Waking false own.now links.now from rows.old next.old
        (length own.now) rows.new next.new }
{
    for q in own {
        let changed = note_change(rows, *q, SideOf::Links);
        wake_where(changed, *q, links, from, next, looks);
    }
}

/// These ports show what was seen of them, so that they wake nobody. They are touched no more.
pub fn pass_over(rows: &mut PortRows, own: &[u32])
    requires within { (q : ℕ) → Has own.now q → q < length rows.old.ports }
    requires seen { rows.old.seen ≡ map face_of rows.old.ports }
    ensures { rows.new ≡ rows.old }
{
    for q in own {
        rows.settle_at(*q);
    }
}
