ghost use Rattle.std.specs.Prelude.{◌≡◌, ◌^◌, ◌<◌, ◌≤◌, [], length, map, IfOk};
ghost use Rattle.sim_base.specs.declared.time.TheConstants.{LATEST_TICK};
ghost use Rattle.port_row.specs.Row.{face_of};
ghost use Rattle.port_rows.specs.Opening.{AreHands};
ghost use Rattle.port_rows.specs.Rows.{RowsView};
ghost use Rattle.actor_turn.specs.Ready.{IsReady};
ghost use Rattle.actor_turn.specs.Side.{AreInOrder};

use crate::side::SideGear;
use bit_set::BitSet;
use event_queue::NextTimes;
use port_msg::RecList;
use port_row::Ports;
use sim_base::OutOfMemory;
use std::alloc::Global;

/// What a run takes besides its world: both sides, rows in hand for its parts, who is due, next times, and room for the records
/// of a time.
#[derive(Drop)]
pub struct RowGear {
    pub parts: SideGear,
    pub links: SideGear,
    pub hands: Vec<Ports>,
    pub part_due: BitSet,
    pub link_due: BitSet,
    pub next: NextTimes,
    pub recs: RecList,
}

impl RowGear {
    /// A gear of these sides, with rows in hand for its parts, and with nobody marked. It is ready for rows that are wired as its
    /// links, once all is seen.
    pub fn open(
        alloc: Global,
        parts: SideGear,
        links: SideGear,
        hands: Vec<Ports>,
        next: NextTimes,
        recs: RecList,
    ) -> Result<RowGear, OutOfMemory>
        requires order { AreInOrder parts links (length next) }
        requires hands { AreHands hands.items parts.wiring (length parts.wiring.own) }
        requires few_parts { length parts.wiring.own < 2 ^ 32 }
        requires few_links { length links.wiring.own < 2 ^ 32 }
        ensures ready { IfOk result (λ gear. (rows : RowsView) → links.wiring ≡ rows.wires
            → rows.seen ≡ map face_of rows.ports
            → IsReady gear (length parts.wiring.own) (length links.wiring.own) rows) }
        ensures parts { IfOk result (λ gear. gear.parts ≡ parts) }
        ensures links { IfOk result (λ gear. gear.links ≡ links) }
        ensures next { IfOk result (λ gear. gear.next ≡ next) }
        ensures recs { IfOk result (λ gear. gear.recs ≡ recs) }
    {
        let part_due = BitSet::open(alloc, parts.wiring.count() as u32)?;
        let link_due = BitSet::open(alloc, links.wiring.count() as u32)?;
        Ok(RowGear {
            parts,
            links,
            hands,
            part_due,
            link_due,
            next,
            recs,
        })
    }

    /// Begins time `t` (picoseconds): the list of records is emptied, and both sides know an edge near it.
    pub fn begin(&mut self, t: u64)
        requires { t ≤ LATEST_TICK }
        ensures { self.new ≡ record self.old { recs = record self.old.recs { items = [] } } }
    {
        self.recs.clear();
        self.parts.beat.move_to(t);
        self.links.beat.move_to(t);
    }
}
