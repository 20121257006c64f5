//! Rows in hand: a part's ports stand in one of them while it steps. Parts with as many ports share one.
ghost use Rattle.std.specs.Prelude.{◌≡◌, ℕ, ◌+◌, ◌<◌, ◌≤◌, ◌^◌, [], length, vec_len, slice_index_or, IfOk, OnOk};
ghost use Rattle.tick_law.specs.Wires.{own_of};
ghost use Rattle.port_rows.specs.Opening.{AreHands};

use crate::opening::hollow_row;
use port_row::Ports;
use sim_base::OutOfMemory;
use std::alloc::Global;
use tick_law::Wiring;

/// The most ports that an actor of this side has.
fn most_ports(wiring: &Wiring) -> usize
    requires few { length wiring.now.own < 2 ^ 32 }
    requires short { (j : ℕ) → length (own_of wiring.now j) < 2 ^ 32 }
    ensures most { (j : ℕ) → j < length wiring.now.own → length (own_of wiring.now j) ≤ result }
    ensures short { result < 2 ^ 32 }
{
    let mut most = 0;
    for j in 0..wiring.count() {
        most = most.max(wiring.own(j as u32).len());
    }
    most
}

/// So many rows of no ports.
fn empty_rows(alloc: Global, count: usize) -> Result<Vec<Ports>, OutOfMemory>
    ensures { IfOk result (λ rows. length rows.items ≡ count) }
{
    let mut rows = Vec::with_capacity(alloc, count)?;
    for _ in 0..count {
        let row = hollow_row(alloc, 0)?;
        rows.push(row)?;
    }
    Ok(rows)
}

/// The row at a number gets so many ports, where it has another number of them.
fn fill_hand(alloc: Global, hands: &mut [Ports], count: usize) -> Result<(), OutOfMemory>
    requires within { count < length hands.old }
    requires short { count < 2 ^ 32 }
    ensures long { length hands.new ≡ length hands.old }
    ensures here { OnOk result
        (length (slice_index_or hands.new count (record { ports = []; seen = [] })).ports ≡ count) }
    ensures others { (k : ℕ)
        → length (slice_index_or hands.old k (record { ports = []; seen = [] })).ports ≡ k
        → length (slice_index_or hands.new k (record { ports = []; seen = [] })).ports ≡ k }
{
    if hands[count].len() != count {
        hands[count] = hollow_row(alloc, count)?;
    }
    Ok(())
}

/// A row for the ports of each actor of a side: at each number of ports that one of them has, a row of so many that nobody uses.
pub fn open_hands(alloc: Global, wiring: &Wiring) -> Result<Vec<Ports>, OutOfMemory>
    requires few { length wiring.now.own < 2 ^ 32 }
    requires short { (j : ℕ) → length (own_of wiring.now j) < 2 ^ 32 }
    ensures { IfOk result (λ hands. AreHands hands.items wiring.now (length wiring.now.own)) }
{
    let most = most_ports(wiring);
    let mut hands = empty_rows(alloc, most + 1)?;
    for j in 0..wiring.count() {
        fill_hand(alloc, &mut hands, wiring.own(j as u32).len())?;
    }
    Ok(hands)
}
