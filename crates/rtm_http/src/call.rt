use crate::method::Method;
use sim_base::{Name, Time};

/// What a request asks for. A segment of its path that has not the shape of a name is None: nothing has such a name.
#[derive(Clone, Copy, PartialEq, Eq)]
pub enum Call {
    /// The boundary of the run.
    Now,
    /// All parts.
    Parts,
    /// One part with its fields.
    Part(Option<Name>),
    /// One field of one part.
    Field(Option<Name>, Option<Name>),
    /// How full the lists of the ports are.
    Buffers,
    /// How far agents and cores are.
    Progress,
    /// Who is not done, and which lists are full.
    Stuck,
    /// The first boundary above this time, in picoseconds.
    Wait(Time),
    /// That no further time begins.
    Pause,
    /// That further times begin again.
    Continue,
    /// A tick of one part.
    Tick(Option<Name>),
    /// That the sessions end with the run.
    Leave,
}

/// Where a method and a path lead.
#[derive(Clone, Copy, PartialEq, Eq)]
pub enum Routed {
    Call(Call),
    /// There is no such path.
    NoRoute,
    /// The path is there, and takes this method alone.
    WrongMethod { allow: Method },
    /// The time of the path is no number from 0 to 500000000000.
    BadNumber,
}
