//! Seats, each of which has an actor or is empty.
ghost use Rattle.std.specs.Prelude.{◌≡◌, ◌<◌, length, Some, None};
ghost use Rattle.away_rows.specs.declared.body.Body.{Body};
ghost use Rattle.away_rows.specs.Bodies.{body_at, SeatSet};

use crate::body::Body;

/// Takes the actor out of its seat.
pub fn rise<S: Drop>(seats: &mut Vec<Option<Box<Body<S>>>>, no: usize) -> Box<Body<S>>
    requires here { (b : Body S) × (body_at seats.old.items no ≡ Some b) }
    ensures body { body_at seats.old.items no ≡ Some result.value }
    ensures seats { SeatSet seats.old.items seats.new.items no None }
{
    let Some(body) = seats[no].take() else {
        unreachable!()
    };
    body
}

/// Puts an actor into its seat.
pub fn sit<S: Drop>(seats: &mut Vec<Option<Box<Body<S>>>>, no: usize, body: Box<Body<S>>)
    requires here { no < length seats.old.items }
    ensures seats { SeatSet seats.old.items seats.new.items no (Some body.value) }
{
    seats[no] = Some(body);
}
