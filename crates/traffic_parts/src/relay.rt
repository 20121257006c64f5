ghost use Rattle.std.specs.Prelude.{◌≡◌, ◌<◌, ◌≤◌, ◌-◌, length, is_none};
ghost use Rattle.std.specs.Option.{ForSome};
ghost use Rattle.tick_law.specs.OnePort.{lone, ports_after, recs_after};
ghost use Rattle.traffic_parts.specs.Relay.{RelayState, IsRelay, token, send_held, take_token, relay, opening};

use port_msg::{DATA_BYTES, Msg, MsgId, MsgKind, RecList, What};
use port_row::Ports;
use sim_base::{ActorNo, LONGEST_PERIOD, OutOfMemory, PartNo, PortNo, Steps};
use std::alloc::Global;
use std::marker::Model;
use std::sync::ledger::Ledger;
use tick_law::Actor;

/// The most hops that a relay starts with.
pub const MOST_HOPS: u32 = 1_000_000;

/// What a relay is opened with: its number, its period in picoseconds, its port `io`, the port that it sends to, and the
/// hops of the token that it starts with, 1 to 1,000,000, or none.
#[derive(Clone, Copy, Debug, PartialEq, Eq)]
pub struct RelayText {
    pub actor: ActorNo,
    pub period: u64,
    pub io: PortNo,
    pub to: PortNo,
    pub start: Option<u32>,
}

/// A part that passes tokens on: it holds at most one, and sends it with one hop less.
#[derive(Drop)]
pub struct Relay {
    part: PartNo,
    io: PortNo,
    to: PortNo,
    period: u64,
    holds: Option<u32>,
    sent: u64,
    ended: u64,
}

impl Model for Relay {
    ghost use Rattle.traffic_parts.specs.Relay.{RelayState, IsRelay};

    ghost Value = { RelayState };

    ghost view = { λ r. record { part = r.part; io = r.io; to = r.to; period = r.period; holds = r.holds; sent = r.sent; ended = r.ended } };

    ghost invariant = { λ r. IsRelay (record { part = r.part; io = r.io; to = r.to; period = r.period; holds = r.holds; sent = r.sent; ended = r.ended }) };
}

impl Relay {
    /// A relay that holds the token that it starts with, if any, and has sent and ended none.
    pub fn open(_alloc: Global, text: &RelayText) -> Result<Relay, OutOfMemory>
        requires some { 1 ≤ text.now.period }
        requires short { text.now.period ≤ LONGEST_PERIOD }
        requires hops { ForSome text.now.start (λ h. (1 ≤ h) × (h ≤ MOST_HOPS)) }

        ensures { result ≡ Ok (opening text.now) }
    {
        Ok(Relay {
            part: PartNo(text.actor.0),
            io: text.io,
            to: text.to,
            period: text.period,
            holds: text.start,
            sent: 0,
            ended: 0,
        })
    }

    /// The hops of the token that it holds, or None where it holds none.
    pub fn holds(&self) -> Option<u32>
        ensures { result ≡ self.now.holds }
    {
        self.holds
    }

    /// How many tokens it has sent. The count stays at its greatest number.
    pub fn sent(&self) -> u64
        ensures { result ≡ self.now.sent }
    {
        self.sent
    }

    /// How many tokens have ended at it. The count stays at its greatest number.
    pub fn ended(&self) -> u64
        ensures { result ≡ self.now.ended }
    {
        self.ended
    }

    #[tactic(auto, unfolding(crate::specs::Relay::token))]
    fn token(&self, hops: u32) -> Msg
        requires { 0 < hops }
        ensures { result ≡ token self.now hops }
    {
        Msg {
            id: MsgId {
                part: self.part,
                seq: self.sent,
            },
            src: self.io,
            dst: self.to,
            kind: MsgKind::Token,
            addr: hops - 1,
            len: 0,
            bytes: [0; DATA_BYTES],
        }
    }

    /// Where it holds a token and has room, it sends it with one hop less and holds none.
    fn send_held(&mut self, ports: &mut Ports, recs: &mut RecList) -> bool
        requires port { 0 < length ports.old.ports }
        requires room { length recs.old.items < recs.old.room }

        ensures state { self.new ≡ (send_held self.old (lone ports.old)).state }
        ensures port { ports.new ≡ ports_after ports.old (send_held self.old (lone ports.old)) }
        ensures records { recs.new ≡ recs_after recs.old (send_held self.old (lone ports.old)) }
        ensures flag { result ≡ (send_held self.old (lone ports.old)).flag }
    {
        let Some(hops) = self.holds else {
            return false;
        };
        let msg = self.token(hops);
        if ports.send(0, msg).is_err() {
            return false;
        }
        recs.push(What::Send(msg));
        self.holds = None;
        self.sent = self.sent.saturating_add(1);
        true
    }

    /// Where it holds none and a token is at the head, it takes it: one of no hops has ended, another is held.
    fn take_token(&mut self, ports: &mut Ports, recs: &mut RecList) -> bool
        requires port { 0 < length ports.old.ports }
        requires room { length recs.old.items < recs.old.room }

        ensures state { self.new ≡ (take_token self.old (lone ports.old)).state }
        ensures port { ports.new ≡ ports_after ports.old (take_token self.old (lone ports.old)) }
        ensures records { recs.new ≡ recs_after recs.old (take_token self.old (lone ports.old)) }
        ensures flag { result ≡ (take_token self.old (lone ports.old)).flag }
    {
        if self.holds.is_some() {
            return false;
        }
        let Some(msg) = ports.in_head(0) else {
            return false;
        };
        let MsgKind::Token = msg.kind else {
            return false;
        };
        let _ = ports.in_take(0);
        recs.push(What::Take(msg));
        if msg.addr == 0 {
            self.ended = self.ended.saturating_add(1);
        } else {
            self.holds = Some(msg.addr);
        }
        true
    }
}

impl Actor for Relay {
    ghost use Rattle.traffic_parts.specs.RelayLaws.{relay_framed, relay_stays, relay_quiet};

    ghost machine = { relay };

    ghost valid = { IsRelay };

    fn tick<L: Ledger>(
        &mut self,
        ports: &mut Ports,
        _cycle: u64,
        recs: &mut RecList,
        steps: &mut Steps<L>,
    ) -> bool {
        steps.charge();
        let sent = self.send_held(ports, recs);
        let took = self.take_token(ports, recs);
        sent || took
    }

    fn due(&self, _cycle: u64) -> Option<u64> {
        None
    }

    fn period(&self) -> u64 {
        self.period
    }

    fn done(&self) -> bool {
        self.holds.is_none()
    }

    fn known(&self) {
        let _period = &self.period;
    }

    ghost framed = { relay_framed };

    ghost stays = { relay_stays };

    ghost quiet = { relay_quiet };

    ghost due_later = { λ s n t v e. Prim.cc };

    ghost due_steady = { λ s n k v l h. Prim.cc };

    ghost period_within = { λ s v. (v.0, v.1) };
}
