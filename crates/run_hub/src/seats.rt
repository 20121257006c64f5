//! Actors leave their seats for good when a hub ends. A list with room takes them then.
ghost use Rattle.std.specs.Prelude.{◌≡◌, ◌<◌, ◌≤◌, [], ◌∷◌, ◌++◌, length, vec_capacity};
ghost use Rattle.run_hub.specs.Seats.{actors_in};

use away_rows::Body;

/// The actor of a seat goes home, where there is one.
fn leave_seat<S: Drop>(seat: Option<Box<Body<S>>>, home: &mut Vec<S>)
    requires room { length home.old.items < vec_capacity home.old }
    ensures all { home.new.items ≡ home.old.items ++ actors_in (seat ∷ []) }
    ensures room { vec_capacity home.old ≤ vec_capacity home.new }
{
    let Some(body) = seat else {
        return;
    };
    let Body {
        actor,
        row: _,
        recs: _,
    } = Box::into_inner(body);
    let made = home.push(actor);
    prove!(made.is_ok());
}

/// The actors of these seats go home, in order. There is room, so that it takes no memory.
pub(crate) fn leave_seats<S: Drop>(seats: Vec<Option<Box<Body<S>>>>, mut home: Vec<S>) -> Vec<S>
    requires none { home.items ≡ [] }
    requires room { length seats.items ≤ vec_capacity home }
    ensures { result.items ≡ actors_in seats.items }
{
    for seat in seats {
        leave_seat(seat, &mut home);
    }
    home
}
