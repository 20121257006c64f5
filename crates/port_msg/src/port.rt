ghost use Rattle.std.specs.Prelude.{◌≡◌, ◌-◌, ◌<◌, ◌≤◌, ◌↔◌, [], length, drop, slice_get, option_copied, IfOk, IfErr, OnOk, OnErr, IsOk};
ghost use Rattle.port_msg.specs.PortView.{port_view, with_sent, with_delivered, IsWithin};

use crate::message::Msg;
use circular_buffer::HeapCircularBuffer;
use sim_base::OutOfMemory;
use std::alloc::Global;
use std::marker::Model;

/// The greatest capacity of a port's lists, in messages.
pub const MOST_MESSAGES: u32 = 64;

/// The list has no room. The message is handed back.
#[derive(Drop)]
pub struct Full {
    pub msg: Msg,
}

/// Where a part meets a link: a list of incoming and a list of outgoing messages, both of one capacity.
///
/// The part takes from the incoming list and sends to the outgoing one; the link takes from the outgoing list and
/// delivers to the incoming one.
#[derive(Drop)]
pub struct Port {
    incoming: HeapCircularBuffer<Msg>,
    outgoing: HeapCircularBuffer<Msg>,
}

impl Model for Port {
    ghost use Rattle.std.specs.Prelude.{◌≡◌, ◌≤◌, length};
    ghost use Rattle.port_msg.specs.PortView.{PortView};

    ghost Value = { PortView };

    ghost view = { λ p. record { incoming = p.incoming.items; outgoing = p.outgoing.items; cap = p.incoming.capacity } };

    ghost invariant = { λ p. (p.outgoing.capacity ≡ p.incoming.capacity) × (length p.incoming.items ≤ p.incoming.capacity) × (length p.outgoing.items ≤ p.incoming.capacity) × (p.incoming.capacity ≤ 64) };
}

impl Port {
    /// A port whose two lists are empty and hold `cap` messages each, 1 to 64.
    pub fn open(alloc: Global, cap: u32) -> Result<Port, OutOfMemory>
        requires some { 1 ≤ cap }
        requires few { cap ≤ MOST_MESSAGES }
        ensures { IfOk result (λ port. port ≡ port_view [] [] cap) }
    {
        let incoming = HeapCircularBuffer::with_capacity(alloc, cap as usize)?;
        let outgoing = HeapCircularBuffer::with_capacity(alloc, cap as usize)?;
        Ok(Port { incoming, outgoing })
    }

    /// The first incoming message, or None where there is none.
    pub fn in_head(&self) -> Option<Msg>
        ensures { result ≡ slice_get self.now.incoming 0 }
    {
        self.incoming.front().copied()
    }

    /// Removes the first incoming message, or answers None where there is none.
    pub fn in_take(&mut self) -> Option<Msg>
        ensures head { result ≡ slice_get self.old.incoming 0 }
        ensures rest { self.new ≡ record self.old { incoming = drop 1 self.old.incoming } }
    {
        self.incoming.pop_front()
    }

    /// How many messages the incoming list has room for.
    pub fn in_room(&self) -> u32
        ensures room { result ≡ self.now.cap - length self.now.incoming }
        ensures within { IsWithin (length self.now.incoming) self.now.cap }
    {
        (self.incoming.capacity() - self.incoming.len()) as u32
    }

    /// The first outgoing message, or None where there is none.
    pub fn out_head(&self) -> Option<Msg>
        ensures { result ≡ slice_get self.now.outgoing 0 }
    {
        self.outgoing.front().copied()
    }

    /// The first outgoing message, which stays where it is, or None where there is none.
    pub fn out_front(&self) -> Option<&Msg>
        ensures { option_copied result ≡ slice_get self.now.outgoing 0 }
    {
        self.outgoing.front()
    }

    /// Removes the first outgoing message, or answers None where there is none.
    pub fn out_take(&mut self) -> Option<Msg>
        ensures head { result ≡ slice_get self.old.outgoing 0 }
        ensures rest { self.new ≡ record self.old { outgoing = drop 1 self.old.outgoing } }
    {
        self.outgoing.pop_front()
    }

    /// How many messages the outgoing list has room for.
    pub fn out_room(&self) -> u32
        ensures room { result ≡ self.now.cap - length self.now.outgoing }
        ensures within { IsWithin (length self.now.outgoing) self.now.cap }
    {
        (self.outgoing.capacity() - self.outgoing.len()) as u32
    }

    /// Appends a message to the outgoing list. It is handed back, with nothing changed, exactly where that is full.
    pub fn send(&mut self, msg: Msg) -> Result<(), Full>
        ensures room { IsOk result ↔ (length self.old.outgoing < self.old.cap) }
        ensures sent { OnOk result (self.new ≡ with_sent self.old msg) }

        ensures handed_back { IfErr result (λ full. full.msg ≡ msg) }
        ensures unchanged { OnErr result (self.new ≡ self.old) }
    {
        match self.outgoing.try_push_back(msg) {
            Ok(()) => Ok(()),
            Err(msg) => Err(Full { msg }),
        }
    }

    /// Appends a message to the incoming list. It is handed back, with nothing changed, exactly where that is full.
    pub fn deliver(&mut self, msg: Msg) -> Result<(), Full>
        ensures room { IsOk result ↔ (length self.old.incoming < self.old.cap) }
        ensures delivered { OnOk result (self.new ≡ with_delivered self.old msg) }

        ensures handed_back { IfErr result (λ full. full.msg ≡ msg) }
        ensures unchanged { OnErr result (self.new ≡ self.old) }
    {
        match self.incoming.try_push_back(msg) {
            Ok(()) => Ok(()),
            Err(msg) => Err(Full { msg }),
        }
    }
}
