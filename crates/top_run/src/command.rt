use plan_show::Question;
use sim_base::Time;
use std::alloc::{AllocError, Global};
use std::marker::Model;

/// What `ring N UNTIL` asks for: a ring of 1 to 256 relays, run up to a time of at most 500,000,000,000 ps.
#[derive(Clone, Copy, Debug, PartialEq, Eq)]
pub struct Ring {
    pub relays: u32,
    pub until: Time,
}

/// What a run shows beyond its report.
#[derive(Clone, Copy, Debug, PartialEq, Eq)]
pub enum Detail {
    /// A line for each message that is sent, moved or taken and for each halt, beside those of bytes that cores write.
    Trace,
    /// A line for each part that sends requests: how many it sent, how many were answered, and how long that took.
    Stats,
    /// The registers of the cores and the bytes of the memories at its end.
    Dump,
}

/// The options of a run.
#[derive(Clone, Copy, Debug, PartialEq, Eq)]
pub struct Options {
    /// The greatest time that runs in place of the file's, at most 500,000,000,000 ps.
    pub until: Option<Time>,
    /// Whether every record has its line.
    pub trace: bool,
    /// Whether the report tells of requests.
    pub stats: bool,
    /// Whether the report has the registers of the cores and the bytes of the memories.
    pub dump: bool,
}

impl Options {
    ghost use Rattle.std.specs.Prelude.{◌≡◌};
    ghost use Rattle.top_run.specs.Words.{no_options, with_time, has_detail, with_detail};

    /// No option.
    pub const NONE: Options = Options {
        until: None,
        trace: false,
        stats: false,
        dump: false,
    };

    /// These options with this greatest time.
    pub fn with_time(self, until: Time) -> Self
        ensures { result ≡ with_time self until.0 }
    {
        Options {
            until: Some(until),
            ..self
        }
    }

    /// Whether they ask for this.
    pub fn has(self, detail: Detail) -> bool
        ensures { result ≡ has_detail self detail }
    {
        match detail {
            Detail::Trace => self.trace,
            Detail::Stats => self.stats,
            Detail::Dump => self.dump,
        }
    }

    /// These options and this beside them.
    pub fn with(self, detail: Detail) -> Self
        ensures { result ≡ with_detail self detail }
    {
        match detail {
            Detail::Trace => Options {
                trace: true,
                ..self
            },
            Detail::Stats => Options {
                stats: true,
                ..self
            },
            Detail::Dump => Options { dump: true, ..self },
        }
    }
}

/// The name of a file, as its word stands.
#[derive(Drop)]
pub struct FileName {
    text: String,
}

impl Model for FileName {
    ghost use Rattle.std.specs.Prelude.{ℕ, List, string_bytes};

    ghost Value = { List ℕ };

    ghost view = { λ n. string_bytes n.text };
}

impl FileName {
    ghost use Rattle.std.specs.Prelude.{◌≡◌, IfOk};

    pub fn of(alloc: Global, word: &str) -> Result<Self, AllocError>
        ensures { IfOk result (λ name. name ≡ word.now) }
    {
        let text = format!(in alloc; "{word}")?;
        Ok(FileName { text })
    }

    pub fn as_str(&self) -> &str
        ensures { result.now ≡ self.now }
    {
        self.text.as_str()
    }
}

/// What the program is asked for.
#[derive(Drop)]
pub enum Command {
    /// The report of a ring.
    Ring(Ring),
    /// Whether a file describes a machine.
    Check(FileName),
    /// The report of a file's machine.
    Run(FileName, Options),
    /// The same by the loop that ticks everything.
    Slow(FileName, Options),
    /// The answer to a question about a file's machine at the boundary behind a time, which is at most 500,000,000,000 ps.
    Show(FileName, Time, Question),
    /// The summary of a storm of 1 to 252 agents.
    Storm(u32),
}
