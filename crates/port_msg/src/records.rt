ghost use Rattle.std.specs.Prelude.{◌≡◌, ◌<◌, [], ◌∷◌, ◌++◌, length, IfOk};
ghost use Rattle.port_msg.specs.RecView.{rec_view, appended};

use crate::message::Msg;
use sim_base::{ActorNo, OutOfMemory, Time};
use std::alloc::Global;
use std::marker::Model;

/// Why a core halted.
#[derive(Clone, Copy, Debug, PartialEq, Eq)]
pub enum Cause {
    /// The program ended with this code.
    Exit(u32),
    Illegal,
    BadCall,
    Break,
    MisalignedJump,
    MisalignedLoad,
    MisalignedStore,
    UnmappedFetch,
    UnmappedLoad,
    UnmappedStore,
}

/// What an actor did in a step.
#[derive(Clone, Copy, Debug, PartialEq, Eq)]
pub enum What {
    /// A part sent this message.
    Send(Msg),
    /// A part took this message.
    Take(Msg),
    /// A link moved this message.
    Move(Msg),
    /// A core wrote this byte.
    Out(u8),
    /// A core halted.
    Halt(Cause),
}

/// What an actor did, and when.
#[derive(Clone, Copy, Debug, PartialEq, Eq)]
pub struct Record {
    pub at: Time,
    pub actor: ActorNo,
    pub what: What,
}

/// Records in order, with room for so many, and the time and actor of those that follow.
#[derive(Drop)]
pub struct RecList {
    items: Vec<Record>,
    room: u32,
    at: Time,
    actor: ActorNo,
}

impl Model for RecList {
    ghost use Rattle.std.specs.Prelude.{◌≤◌, vec_len, vec_capacity};
    ghost use Rattle.port_msg.specs.RecView.{RecView};

    ghost Value = { RecView };

    ghost view = { λ r. record { items = r.items.items; room = r.room; at = r.at.0; actor = r.actor.0 } };

    ghost invariant = { λ r. (vec_len r.items ≤ r.room) × (r.room ≤ vec_capacity r.items) };
}

impl RecList {
    /// An empty list with room for so many records. Its time and actor are 0.
    pub fn open(alloc: Global, room: u32) -> Result<RecList, OutOfMemory>
        ensures { IfOk result (λ recs. recs ≡ rec_view [] room 0 0) }
    {
        let items = Vec::with_capacity(alloc, room as usize)?;
        Ok(RecList {
            items,
            room,
            at: Time(0),
            actor: ActorNo(0),
        })
    }

    /// Sets the time and the actor of the records that follow.
    pub fn begin(&mut self, at: Time, actor: ActorNo)
        ensures { self.new ≡ record self.old { at = at.0; actor = actor.0 } }
    {
        self.at = at;
        self.actor = actor;
    }

    /// Appends a record.
    pub fn push(&mut self, what: What)
        requires { length self.old.items < self.old.room }
        ensures { self.new ≡ appended self.old what }
    {
        // There is room, so that a list that grows needs no code here.
        if self.items.len() == self.items.capacity() {
            unreachable!();
        }
        let made = self.items.push(Record {
            at: self.at,
            actor: self.actor,
            what,
        });
        prove!(made.is_ok());
    }

    /// Empties the list.
    pub fn clear(&mut self)
        ensures { self.new ≡ record self.old { items = [] } }
    {
        self.items.clear();
    }

    pub fn items(&self) -> &[Record]
        ensures { result.now ≡ self.now.items }
    {
        &self.items
    }
}
