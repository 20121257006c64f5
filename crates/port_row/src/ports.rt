ghost use Rattle.std.specs.Prelude.{◌≡◌, ◌-◌, ◌^◌, ◌<◌, ◌↔◌, length, map, option_copied, slice_get, vec_len, IfErr, IfNone, IfOk, IfSome, IsOk, IsTrue, OnErr, OnOk, Some};
ghost use Rattle.port_row.specs.Row.{port_at, face_of, face_at, has_out, in_taken, out_taken, sent, delivered, NoOut, IsNextOut, NoChange, IsNextTouched, Settling, with_port, incoming_room, outgoing_room, TakesIncoming, TakesOutgoing, IncomingIsWithin, OutgoingIsWithin, settled, settled_at, with_sent, with_delivered, forwarded};

use crate::face::{Face, face_of};
use bit_set::BitSet;
use port_msg::{Full, Msg, Port};
use sim_base::OutOfMemory;
use std::alloc::Global;
use std::marker::Model;

/// The ports of an actor in order, and what each of them showed when it was last settled.
///
/// A place is touched where its port was changed since. All memory is taken in `open`.
#[derive(Drop)]
pub struct Ports {
    ports: Vec<Port>,
    seen: Vec<Face>,
    outs: BitSet,
    touched: BitSet,
}

impl Model for Ports {
    ghost use Rattle.port_row.specs.Row.{PortsView, IsRow};

    ghost Value = { PortsView };

    ghost view = { λ r. record { ports = r.ports.items; seen = r.seen.items } };

    ghost invariant = { λ r. IsRow r.ports.items r.seen.items r.outs r.touched };
}

/// Notes what the touched ports show.
fn settle_touched(ports: &[Port], seen: &mut [Face], touched: &BitSet)
    requires long { length touched.now ≡ length ports.now }
    requires settling { Settling ports.now seen.old touched.now 0 }
    ensures { seen.new ≡ map face_of ports.now }
{
    let mut from = 0;
    while let Some(k) = touched.next(from) {
        seen[k] = face_of(&ports[k]);
        from = k + 1;
    }
}

/// What each port shows.
fn faces_of(alloc: Global, ports: &[Port]) -> Result<Vec<Face>, OutOfMemory>
    ensures { IfOk result (λ faces. faces.items ≡ map face_of ports.now) }
{
    let mut faces = Vec::with_capacity(alloc, ports.len())?;
    for port in ports {
        faces.push(face_of(port))?;
    }
    Ok(faces)
}

/// The places whose outgoing list is not empty.
fn outs_of(alloc: Global, ports: &[Port]) -> Result<BitSet, OutOfMemory>
    requires { length ports.now < 2 ^ 32 }
    ensures { IfOk result (λ outs. outs ≡ map has_out ports.now) }
{
    let mut outs = BitSet::open(alloc, ports.len() as u32)?;
    for (k, port) in ports.iter().enumerate() {
        outs.put(k, port.out_head().is_some());
    }
    Ok(outs)
}

impl Ports {
    /// These ports in order, all settled.
    pub fn open(alloc: Global, ports: Vec<Port>) -> Result<Ports, OutOfMemory>
        requires { vec_len ports < 2 ^ 32 }
        ensures { IfOk result (λ row. row ≡ settled ports.items) }
    {
        let seen = faces_of(alloc, &ports)?;
        let outs = outs_of(alloc, &ports)?;
        let touched = BitSet::open(alloc, ports.len() as u32)?;
        Ok(Ports {
            ports,
            seen,
            outs,
            touched,
        })
    }

    /// How many ports there are.
    pub fn len(&self) -> usize
        ensures long { result ≡ length self.now.ports }
        ensures few { result < 2 ^ 32 }
    {
        self.ports.len()
    }

    /// A port.
    pub fn port(&self, k: usize) -> &Port
        requires { k < length self.now.ports }
        ensures { result.now ≡ port_at self.now.ports k }
    {
        &self.ports[k]
    }

    /// The first incoming message of a port, or None where there is none.
    pub fn in_head(&self, k: usize) -> Option<Msg>
        requires { k < length self.now.ports }
        ensures { result ≡ slice_get (port_at self.now.ports k).incoming 0 }
    {
        self.ports[k].in_head()
    }

    /// Removes the first incoming message of a port, or answers None where there is none.
    pub fn in_take(&mut self, k: usize) -> Option<Msg>
        requires { k < length self.old.ports }
        ensures head { result ≡ slice_get (port_at self.old.ports k).incoming 0 }
        ensures rest { self.new ≡ record self.old { ports = in_taken self.old.ports k } }
    {
        let head = self.ports[k].in_take();
        self.touched.insert(k);
        head
    }

    /// How many messages the incoming list of a port has room for.
    pub fn in_room(&self, k: usize) -> u32
        requires { k < length self.now.ports }
        ensures room { result ≡ incoming_room (port_at self.now.ports k) }
        ensures within { IncomingIsWithin (port_at self.now.ports k) }
    {
        self.ports[k].in_room()
    }

    /// The first outgoing message of a port, or None where there is none.
    pub fn out_head(&self, k: usize) -> Option<Msg>
        requires { k < length self.now.ports }
        ensures { result ≡ slice_get (port_at self.now.ports k).outgoing 0 }
    {
        self.ports[k].out_head()
    }

    /// The first outgoing message of a port, which stays where it is, or None where there is none.
    pub fn out_front(&self, k: usize) -> Option<&Msg>
        requires { k < length self.now.ports }
        ensures { option_copied result ≡ slice_get (port_at self.now.ports k).outgoing 0 }
    {
        self.ports[k].out_front()
    }

    /// Removes the first outgoing message of a port, or answers None where there is none.
    pub fn out_take(&mut self, k: usize) -> Option<Msg>
        requires { k < length self.old.ports }
        ensures head { result ≡ slice_get (port_at self.old.ports k).outgoing 0 }
        ensures rest { self.new ≡ record self.old { ports = out_taken self.old.ports k } }
    {
        let head = self.ports[k].out_take();
        let more = self.ports[k].out_head().is_some();
        self.outs.put(k, more);
        self.touched.insert(k);
        head
    }

    /// How many messages the outgoing list of a port has room for.
    pub fn out_room(&self, k: usize) -> u32
        requires { k < length self.now.ports }
        ensures room { result ≡ outgoing_room (port_at self.now.ports k) }
        ensures within { OutgoingIsWithin (port_at self.now.ports k) }
    {
        self.ports[k].out_room()
    }

    /// Appends a message to the outgoing list of a port. It is handed back, with nothing changed, exactly where that is full.
    pub fn send(&mut self, k: usize, msg: Msg) -> Result<(), Full>
        requires { k < length self.old.ports }
        ensures room { IsOk result ↔ TakesOutgoing (port_at self.old.ports k) }
        ensures sent { OnOk result (self.new ≡ with_sent self.old k msg) }

        ensures handed_back { IfErr result (λ full. full.msg ≡ msg) }
        ensures unchanged { OnErr result (self.new ≡ self.old) }
    {
        self.ports[k].send(msg)?;
        self.outs.insert(k);
        self.touched.insert(k);
        Ok(())
    }

    /// Appends a message to the incoming list of a port. It is handed back, with nothing changed, exactly where that is full.
    pub fn deliver(&mut self, k: usize, msg: Msg) -> Result<(), Full>
        requires { k < length self.old.ports }
        ensures room { IsOk result ↔ TakesIncoming (port_at self.old.ports k) }
        ensures delivered { OnOk result (self.new ≡ with_delivered self.old k msg) }

        ensures handed_back { IfErr result (λ full. full.msg ≡ msg) }
        ensures unchanged { OnErr result (self.new ≡ self.old) }
    {
        self.ports[k].deliver(msg)?;
        self.touched.insert(k);
        Ok(())
    }

    /// Moves the first outgoing message of a port to the end of the incoming list of a port that has room, which can be the same.
    /// The answer is the message.
    pub fn forward(&mut self, from: usize, to: usize) -> Msg
        requires from { from < length self.old.ports }
        requires to { to < length self.old.ports }
        requires some { IsTrue (has_out (port_at self.old.ports from)) }
        requires room { TakesIncoming (port_at self.old.ports to) }
        ensures head { slice_get (port_at self.old.ports from).outgoing 0 ≡ Some result }
        ensures moved { self.new ≡ forwarded self.old from to result }
    {
        let Some(msg) = self.ports[from].out_head() else {
            unreachable!()
        };
        let Ok(()) = self.deliver(to, msg) else {
            unreachable!()
        };
        let _ = self.out_take(from);
        msg
    }

    /// The least place, from `from` on, whose outgoing list is not empty.
    pub fn next_out(&self, from: usize) -> Option<usize>
        ensures none { IfNone result (NoOut self.now.ports from (length self.now.ports)) }
        ensures least { IfSome result (λ k. IsNextOut self.now.ports from k) }
    {
        self.outs.next(from)
    }

    /// What a port shows.
    pub fn face(&self, k: usize) -> Face
        requires { k < length self.now.ports }
        ensures { result ≡ face_of (port_at self.now.ports k) }
    {
        face_of(&self.ports[k])
    }

    /// What a port showed when it was last settled.
    pub fn seen(&self, k: usize) -> Face
        requires { k < length self.now.ports }
        ensures { result ≡ face_at self.now.seen k }
    {
        self.seen[k]
    }

    /// The least place, from `from` on, that was touched. Those that are passed over show what was seen of them.
    pub fn next_touched(&self, from: usize) -> Option<usize>
        ensures none { IfNone result (NoChange self.now from (length self.now.ports)) }
        ensures least { IfSome result (λ k. IsNextTouched self.now from k) }
    {
        self.touched.next(from)
    }

    /// Notes what a port shows as what was seen of it.
    pub fn settle_at(&mut self, k: usize)
        requires { k < length self.old.ports }
        ensures { self.new ≡ settled_at self.old k }
    {
        self.seen[k] = face_of(&self.ports[k]);
        self.touched.remove(k);
    }

    /// Notes what each port shows as what was seen of it. It looks at the touched places alone.
    pub fn settle(&mut self)
        ensures { self.new ≡ record self.old { seen = map face_of self.old.ports } }
    {
        settle_touched(&self.ports, &mut self.seen, &self.touched);
        self.touched.clear();
    }

    /// Exchanges a port for one of another row.
    pub fn exchange(&mut self, k: usize, other: &mut Ports, j: usize)
        requires here { k < length self.old.ports }
        requires there { j < length other.old.ports }
        ensures here { self.new ≡ with_port self.old k (port_at other.old.ports j) }
        ensures there { other.new ≡ with_port other.old j (port_at self.old.ports k) }
    {
        std::mem::swap(&mut self.ports[k], &mut other.ports[j]);
        self.outs.put(k, self.ports[k].out_head().is_some());
        self.touched.insert(k);
        other.outs.put(j, other.ports[j].out_head().is_some());
        other.touched.insert(j);
    }
}
