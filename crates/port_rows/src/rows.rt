ghost use Rattle.std.specs.Prelude.{◌≡◌, ℕ, ◌+◌, ◌*◌, ◌<◌, ◌≤◌, ◌^◌, length, vec_len, IfNone, IfOk, IfSome, slice_index};
ghost use Rattle.tick_law.specs.Machine.{recorded};
ghost use Rattle.tick_law.specs.Wires.{own_of, owner_of, Has, AllApart};
ghost use Rattle.tick_law.specs.Pass.{port_at, gather};
ghost use Rattle.port_row.specs.Row.{with_ports, with_port};
ghost use Rattle.port_rows.specs.Opening.{IsSide};
ghost use Rattle.port_rows.specs.Rows.{other_face, are_parts, IsNextAt, settled_rows, settled_with, with_number, with_own, with_row, row_of_link, settled_at, link_own, step_with, link_step, after_step, after_link, IsAsLong, shows_other, NoChangeFrom};

use crate::opening::{hollow_rows, places_of};
use crate::side::SideOf;
use port_msg::{Port, RecList};
use port_row::{Face, Ports};
use sim_base::{LATEST_TICK, OutOfMemory, Steps};
use std::alloc::Global;
use std::marker::Model;
use std::sync::ledger::Ledger;
use tick_law::{Actor, Wiring};

/// The ports of a world by number. Each stands in the row of its link, at its place among that link's ports.
#[derive(Drop)]
pub struct PortRows {
    rows: Vec<Ports>,
    wiring: Wiring,
    places: Vec<u32>,
}

impl Model for PortRows {
    ghost use Rattle.port_rows.specs.Rows.{RowsView, rows_view, IsSeated};

    ghost Value = { RowsView };

    ghost view = { λ r. rows_view r.rows.items r.wiring };

    ghost invariant = { λ r. IsSeated r.rows.items r.wiring r.places.items };
}

/// Where a port stands: its link, and its place in the row of that link.
#[derive(Clone, Copy)]
struct Seat {
    link: usize,
    place: usize,
}

/// Where the port of this number stands.
fn seat_of(wiring: &Wiring, places: &[u32], port: u32) -> Seat
    requires known { port < length wiring.now.owner }
    requires tabled { length places.now ≡ length wiring.now.owner }
    ensures link { result.link ≡ owner_of wiring.now port }
    ensures place { result.place ≡ slice_index places.now port }
{
    Seat {
        link: wiring.owner(port) as usize,
        place: places[port as usize] as usize,
    }
}

/// Whether two faces are not the same to an owner of this side.
fn is_other_face(side: SideOf, a: Face, b: Face) -> bool
    ensures { result ≡ other_face (are_parts side) a b }
{
    match side {
        SideOf::Parts => a.in_head != b.in_head || a.out_room != b.out_room,
        SideOf::Links => a.out_head != b.out_head || a.in_room != b.in_room,
    }
}

impl PortRows {
    /// These ports by number, all settled. The wiring tells the link of each, and the numbers of each link's ports in order.
    pub fn open(alloc: Global, ports: Vec<Port>, wiring: Wiring) -> Result<PortRows, OutOfMemory>
        requires few { vec_len ports < 2 ^ 32 }
        requires side { IsSide wiring (vec_len ports) }
        ensures { IfOk result (λ rows. rows ≡ settled_rows ports.items wiring) }
    {
        let places = places_of(alloc, &wiring, ports.len())?;
        let rows = hollow_rows(alloc, &wiring)?;
        let mut hand = Ports::open(alloc, ports)?;
        let mut all = PortRows {
            rows,
            wiring,
            places,
        };
        all.fill(&mut hand);
        Ok(all)
    }

    /// Takes the ports of this row by number, and settles them.
    fn fill(&mut self, hand: &mut Ports)
        requires same { length hand.old.ports ≡ length self.old.ports }
        requires seen { length self.old.seen ≡ length self.old.ports }
        ensures { self.new ≡ settled_with self.old hand.old.ports }
    {
        for q in 0..hand.len() {
            self.exchange(q as u32, hand, q);
            self.settle_at(q as u32);
        }
    }

    /// Exchanges a port for one of another row.
    fn exchange(&mut self, port: u32, hand: &mut Ports, k: usize)
        requires here { port < length self.old.ports }
        requires there { k < length hand.old.ports }
        ensures here { self.new ≡ with_number self.old port (port_at hand.old.ports k) }
        ensures there { hand.new ≡ with_port hand.old k (port_at self.old.ports port) }
    {
        let seat = seat_of(&self.wiring, &self.places, port);
        self.rows[seat.link].exchange(seat.place, hand, k);
    }

    /// Exchanges these ports for those of another row, each for the one at its place. What was seen of them stays.
    pub fn lend(&mut self, own: &[u32], hand: &mut Ports)
        requires within { (q : ℕ) → Has own.now q → q < length self.old.ports }
        requires same { length own.now ≡ length hand.old.ports }
        requires apart { AllApart own.now }
        ensures here { self.new ≡ with_own self.old own.now hand.old.ports }
        ensures there { hand.new ≡ with_ports hand.old (gather self.old.ports own.now) }
    {
        let mut left = own.len();
        while left > 0 {
            left -= 1;
            self.exchange(own[left], hand, left);
        }
    }

    /// Exchanges the row of a link for another one of as many ports, with what was seen of them.
    pub fn swap_row(&mut self, no: u32, hand: &mut Ports)
        requires here { no < length self.old.wires.own }
        requires same { length hand.old.ports ≡ length (link_own self.old no) }
        requires seen { length hand.old.seen ≡ length (link_own self.old no) }
        ensures here { self.new ≡ with_row self.old no hand.old }
        ensures there { hand.new ≡ row_of_link self.old no }
    {
        std::mem::swap(&mut self.rows[no as usize], hand);
    }

    /// A link steps with its row where it stands.
    pub fn tick_link<N: Actor, L: Ledger>(
        &mut self,
        no: u32,
        link: &mut N,
        cycle: u64,
        recs: &mut RecList,
        steps: &mut Steps<L>,
    ) -> bool
        requires here { no < length self.old.wires.own }
        requires own { length (own_of self.old.wires no) ≡ N.machine.own link.old }
        requires time { cycle * N.machine.period link.old ≤ LATEST_TICK }
        requires room { length recs.old.items + 64 * length (link_own self.old no) ≤ recs.old.room }

        ensures state { link.new ≡ (link_step N.machine link.old self.old no cycle).state }
        ensures ports { self.new ≡ after_link N.machine link.old self.old no cycle }
        ensures long { IsAsLong (link_own self.old no) (link_step N.machine link.old self.old no cycle) }
        ensures records { recs.new ≡ recorded recs.old (link_step N.machine link.old self.old no cycle) }
        ensures flag { result ≡ (link_step N.machine link.old self.old no cycle).flag }
        ensures steps { steps.new ≡ steps.old + 1 }
    {
        link.tick(&mut self.rows[no as usize], cycle, recs, steps)
    }

    /// A part steps with its ports, which stand in a row of its own meanwhile.
    pub fn tick_part<P: Actor, L: Ledger>(
        &mut self,
        own: &[u32],
        hand: &mut Ports,
        part: &mut P,
        cycle: u64,
        recs: &mut RecList,
        steps: &mut Steps<L>,
    ) -> bool
        requires within { (q : ℕ) → Has own.now q → q < length self.old.ports }
        requires same { length own.now ≡ length hand.old.ports }
        requires apart { AllApart own.now }
        requires own { length own.now ≡ P.machine.own part.old }
        requires time { cycle * P.machine.period part.old ≤ LATEST_TICK }
        requires room { length recs.old.items + 64 * length own.now ≤ recs.old.room }

        ensures state { part.new ≡ (step_with P.machine part.old self.old own.now cycle).state }
        ensures ports { self.new ≡ after_step P.machine part.old self.old own.now cycle }
        ensures hand { hand.new ≡ hand.old }
        ensures long { IsAsLong own.now (step_with P.machine part.old self.old own.now cycle) }
        ensures records { recs.new ≡ recorded recs.old (step_with P.machine part.old self.old own.now cycle) }
        ensures flag { result ≡ (step_with P.machine part.old self.old own.now cycle).flag }
        ensures steps { steps.new ≡ steps.old + 1 }
    {
        self.lend(own, hand);
        let flag = part.tick(hand, cycle, recs, steps);
        self.lend(own, hand);
        flag
    }

    /// How many ports there are.
    pub fn len(&self) -> usize
        ensures { result ≡ length self.now.ports }
    {
        self.places.len()
    }

    /// A port, by its number.
    pub fn port(&self, port: u32) -> &Port
        requires { port < length self.now.ports }
        ensures { result.now ≡ port_at self.now.ports port }
    {
        let seat = seat_of(&self.wiring, &self.places, port);
        let row = &self.rows[seat.link];
        row.port(seat.place)
    }

    /// The numbers of a link's ports, in order.
    pub fn own(&self, link: u32) -> &[u32]
        requires { link < length self.now.wires.own }
        ensures { result.now ≡ own_of self.now.wires link }
    {
        self.wiring.own(link)
    }

    /// The least place of a link's row, from `from` on, that was touched. Those that are passed over show what was seen of them.
    pub fn next_touched(&self, link: u32, from: usize) -> Option<usize>
        requires { link < length self.now.wires.own }
        ensures none { IfNone result (NoChangeFrom self.now (own_of self.now.wires link) from) }
        ensures least { IfSome result (λ k. IsNextAt self.now (own_of self.now.wires link) from k) }
    {
        let row = &self.rows[link as usize];
        row.next_touched(from)
    }

    /// Whether a port shows its owner of this side something else than was seen of it.
    pub fn has_changed(&self, port: u32, side: SideOf) -> bool
        requires { port < length self.now.ports }
        ensures { result ≡ shows_other (are_parts side) self.now port }
    {
        let seat = seat_of(&self.wiring, &self.places, port);
        let row = &self.rows[seat.link];
        is_other_face(side, row.seen(seat.place), row.face(seat.place))
    }

    /// Notes what a port shows as what was seen of it.
    pub fn settle_at(&mut self, port: u32)
        requires { port < length self.old.ports }
        ensures seen { self.new ≡ settled_at self.old port }
        ensures within { port < length self.old.seen }
    {
        let seat = seat_of(&self.wiring, &self.places, port);
        self.rows[seat.link].settle_at(seat.place);
    }
}
