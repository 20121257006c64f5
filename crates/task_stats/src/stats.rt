ghost use Rattle.std.specs.Prelude.{◌≡◌, ◌<◌, length, replicate, IfOk};
ghost use Rattle.task_stats.specs.Tasks.{no_tasks, tasks_at, count_of, after_record, after_records};

use crate::tasks::Tasks;
use port_msg::{RecList, Record};
use sim_base::{OutOfMemory, PartNo};
use std::alloc::Global;
use std::marker::Model;

/// What is told of the requests of a part: how many began, how many of them ended, and of those that ended the sum and the
/// greatest of the times from request to answer, in picoseconds. A count or sum stays at the greatest number of its type.
#[derive(Clone, Copy, Debug, PartialEq, Eq)]
pub struct TaskCount {
    pub begun: u64,
    pub ended: u64,
    pub sum: u128,
    pub greatest: u64,
}

/// The requests of each part. A request (a read, a write or a flush) begins a task where fewer than 64 of the part's are open;
/// the answer of its id, when the part takes it, ends the earliest.
#[derive(Drop)]
pub struct Stats {
    parts: Vec<Tasks>,
}

impl Model for Stats {
    ghost use Rattle.std.specs.Prelude.{List};
    ghost use Rattle.task_stats.specs.Tasks.{TasksView};

    ghost Value = { List TasksView };

    ghost view = { λ s. s.parts.items };
}

impl Stats {
    /// So many parts, which have sent nothing. All memory is taken here.
    pub fn open(alloc: Global, parts: u32) -> Result<Stats, OutOfMemory>
        ensures { IfOk result (λ stats. stats ≡ replicate parts no_tasks) }
    {
        let mut list = Vec::with_capacity(alloc, parts as usize)?;
        for _ in 0..parts {
            list.push(Tasks::new())?;
        }
        Ok(Stats { parts: list })
    }

    fn note(&mut self, noted: &Record)
        ensures { self.new ≡ after_record self.old noted.now }
    {
        let no = noted.actor.0 as usize;
        if no < self.parts.len() {
            self.parts[no].note(noted.at, &noted.what);
        }
    }

    fn add_all(&mut self, records: &[Record])
        ensures { self.new ≡ after_records self.old records.now }
    {
        for record in records {
            self.note(record);
        }
    }

    /// Counts what these records tell, in order. Records of actors that are no parts are passed over.
    pub fn add(&mut self, recs: &RecList)
        ensures counted { self.new ≡ after_records self.old recs.now.items }
        ensures parts { length self.new ≡ length self.old }
    {
        self.add_all(recs.items());
    }

    /// What is told of a part.
    pub fn of(&self, part: PartNo) -> TaskCount
        requires { part.0 < length self.now }
        ensures { result ≡ count_of (tasks_at self.now part.0) }
    {
        let tasks = &self.parts[part.0 as usize];
        TaskCount {
            begun: tasks.begun,
            ended: tasks.ended,
            sum: tasks.sum,
            greatest: tasks.greatest,
        }
    }
}
