ghost use Rattle.std.specs.Prelude.{◌≡◌, ◌<◌, length, IfSome};
ghost use Rattle.std.specs.List.{position};
ghost use Rattle.task_stats.specs.Tasks.{no_tasks, begins_task, ends_task, has_id, sent_at, ended_with, taken_at, after_what};

use arrayvec::ArrayVec;
use port_msg::{Msg, MsgId, MsgKind, What};
use sim_base::{PartNo, Time};
use std::marker::Model;

/// The most open tasks of a part.
const MOST_OPEN: usize = 64;

/// A request that waits for its answer, and the time at which it was sent.
#[derive(Clone, Copy)]
pub struct OpenTask {
    pub id: MsgId,
    pub at: Time,
}

impl Default for OpenTask {
    fn default() -> OpenTask {
        OpenTask {
            id: MsgId {
                part: PartNo(0),
                seq: 0,
            },
            at: Time(0),
        }
    }
}

/// The requests of a part.
#[derive(Drop)]
pub struct Tasks {
    waiting: ArrayVec<OpenTask, MOST_OPEN>,
    pub(crate) begun: u64,
    pub(crate) ended: u64,
    pub(crate) sum: u128,
    pub(crate) greatest: u64,
}

impl Model for Tasks {
    ghost use Rattle.task_stats.specs.Tasks.{TasksView};

    ghost Value = { TasksView };

    ghost view = { λ r. record { waiting = r.waiting.items; begun = r.begun; ended = r.ended; sum = r.sum; greatest = r.greatest } };
}

/// Whether the sending of a message of this kind begins a task.
fn begins_task(kind: MsgKind) -> bool
    ensures { result ≡ begins_task kind }
{
    match kind {
        MsgKind::Read | MsgKind::Write | MsgKind::Flush => true,
        MsgKind::ReadRsp | MsgKind::WriteRsp | MsgKind::FlushRsp => false,
        MsgKind::Token => false,
    }
}

/// Whether the taking of a message of this kind ends one.
fn ends_task(kind: MsgKind) -> bool
    ensures { result ≡ ends_task kind }
{
    match kind {
        MsgKind::ReadRsp | MsgKind::WriteRsp | MsgKind::FlushRsp => true,
        MsgKind::Read | MsgKind::Write | MsgKind::Flush | MsgKind::Token => false,
    }
}

fn has_id(id: MsgId, task: &OpenTask) -> bool
    ensures { result ≡ has_id id task.now }
{
    task.id.part.0 == id.part.0 && task.id.seq == id.seq
}

/// The place of the earliest open task of this id.
fn place_of(waiting: &[OpenTask], id: MsgId) -> Option<usize>
    ensures place { result ≡ position (has_id id) waiting.now }
    ensures within { IfSome result (λ k. k < length waiting.now) }
{
    waiting.iter().position(|task| has_id(id, task))
}

impl Tasks {
    /// No request was sent.
    pub(crate) fn new() -> Tasks
        ensures { result ≡ no_tasks }
    {
        Tasks {
            waiting: ArrayVec::new(),
            begun: 0,
            ended: 0,
            sum: 0,
            greatest: 0,
        }
    }

    /// A request begins a task where fewer than 64 are open.
    fn send(&mut self, at: Time, msg: &Msg)
        ensures { self.new ≡ sent_at at.0 msg.now self.old }
    {
        if !begins_task(msg.kind) {
            return;
        }
        let task = OpenTask { id: msg.id, at };
        if self.waiting.try_push(task).is_ok() {
            self.begun = self.begun.saturating_add(1);
        }
    }

    /// The open task of a place ends after so many picoseconds.
    fn end(&mut self, place: usize, latency: u64)
        requires { place < length self.old.waiting }
        ensures { self.new ≡ ended_with place latency self.old }
    {
        let _task = self.waiting.remove(place);
        self.ended = self.ended.saturating_add(1);
        self.sum = self.sum.saturating_add(latency as u128);
        self.greatest = self.greatest.max(latency);
    }

    /// An answer ends the earliest open task of its id.
    fn take(&mut self, at: Time, msg: &Msg)
        ensures { self.new ≡ taken_at at.0 msg.now self.old }
    {
        if !ends_task(msg.kind) {
            return;
        }
        let Some(place) = place_of(self.waiting.as_slice(), msg.id) else {
            return;
        };
        let sent = self.waiting.as_slice()[place].at;
        self.end(place, at.0.saturating_sub(sent.0));
    }

    /// What the part did at a time.
    pub(crate) fn note(&mut self, at: Time, what: &What)
        ensures { self.new ≡ after_what at.0 what.now self.old }
    {
        match what {
            What::Send(msg) => self.send(at, msg),
            What::Take(msg) => self.take(at, msg),
            What::Move(_) | What::Out(_) | What::Halt(_) => {}
        }
    }
}
