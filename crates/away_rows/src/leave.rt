//! An actor leaves its seat with its ports, and comes back.
ghost use Rattle.std.specs.Prelude.{◌≡◌, ℕ, ◌<◌, length, Some, None};
ghost use Rattle.tick_law.specs.Wires.{Has, AllApart, own_of};
ghost use Rattle.tick_law.specs.Pass.{gather};
ghost use Rattle.port_rows.specs.Rows.{with_own, with_row, row_of_link, link_own};
ghost use Rattle.away_rows.specs.declared.body.Body.{Body};
ghost use Rattle.away_rows.specs.Bodies.{body_at, HasRow, SeatSet, with_own_ports, with_own_row};

use crate::body::Body;
use crate::seat::{rise, sit};
use port_rows::PortRows;

/// Part `no` leaves with its ports. The ports of its row stand in their places meanwhile.
pub fn part_leaves<P: Drop>(
    seats: &mut Vec<Option<Box<Body<P>>>>,
    rows: &mut PortRows,
    own: &[u32],
    no: u32,
) -> Box<Body<P>>
    requires here { HasRow own.now (body_at seats.old.items no) }
    requires within { (q : ℕ) → Has own.now q → q < length rows.old.ports }
    requires apart { AllApart own.now }

    ensures body { (b : Body P) → body_at seats.old.items no ≡ Some b
        → result.value ≡ with_own_ports b (gather rows.old.ports own.now) }
    ensures rows { (b : Body P) → body_at seats.old.items no ≡ Some b
        → rows.new ≡ with_own rows.old own.now b.row.ports }
    ensures seats { SeatSet seats.old.items seats.new.items no None }
{
    let mut body = rise(seats, no as usize);
    rows.lend(own, &mut body.row);
    body
}

/// Part `no` comes back with its ports.
pub fn part_returns<P: Drop>(
    seats: &mut Vec<Option<Box<Body<P>>>>,
    rows: &mut PortRows,
    own: &[u32],
    no: u32,
    mut body: Box<Body<P>>,
)
    requires here { no < length seats.old.items }
    requires same { length own.now ≡ length body.value.row.ports }
    requires within { (q : ℕ) → Has own.now q → q < length rows.old.ports }
    requires apart { AllApart own.now }

    ensures rows { rows.new ≡ with_own rows.old own.now body.value.row.ports }
    ensures seats { SeatSet seats.old.items seats.new.items no
        (Some (with_own_ports body.value (gather rows.old.ports own.now))) }
{
    rows.lend(own, &mut body.row);
    sit(seats, no as usize, body);
}

/// Link `no` leaves with its row. Its other row stands in that place meanwhile.
pub fn link_leaves<N: Drop>(
    seats: &mut Vec<Option<Box<Body<N>>>>,
    rows: &mut PortRows,
    no: u32,
) -> Box<Body<N>>
    requires here { HasRow (link_own rows.old no) (body_at seats.old.items no) }
    requires known { no < length rows.old.wires.own }

    ensures body { (b : Body N) → body_at seats.old.items no ≡ Some b
        → result.value ≡ with_own_row b (row_of_link rows.old no) }
    ensures rows { (b : Body N) → body_at seats.old.items no ≡ Some b
        → rows.new ≡ with_row rows.old no b.row }
    ensures seats { SeatSet seats.old.items seats.new.items no None }
{
    let mut body = rise(seats, no as usize);
    rows.swap_row(no, &mut body.row);
    body
}

/// Link `no` comes back with its row.
pub fn link_returns<N: Drop>(
    seats: &mut Vec<Option<Box<Body<N>>>>,
    rows: &mut PortRows,
    no: u32,
    mut body: Box<Body<N>>,
)
    requires here { no < length seats.old.items }
    requires known { no < length rows.old.wires.own }
    requires same { length body.value.row.ports ≡ length (link_own rows.old no) }
    requires seen { length body.value.row.seen ≡ length (link_own rows.old no) }

    ensures rows { rows.new ≡ with_row rows.old no body.value.row }
    ensures seats { SeatSet seats.old.items seats.new.items no
        (Some (with_own_row body.value (row_of_link rows.old no))) }
{
    rows.swap_row(no, &mut body.row);
    sit(seats, no as usize, body);
}
