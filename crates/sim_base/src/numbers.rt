/// The number of a part of a machine, counted from 0 in the order of its file.
#[derive(Clone, Copy, Debug, PartialEq, Eq, PartialOrd, Ord)]
pub struct PartNo(pub u32);

/// The number of a link of a machine, counted from 0 in the order of its file.
#[derive(Clone, Copy, Debug, PartialEq, Eq, PartialOrd, Ord)]
pub struct LinkNo(pub u32);

/// The number of a port of a machine, counted from 0: part by part, each part's in the order of its kind.
#[derive(Clone, Copy, Debug, PartialEq, Eq, PartialOrd, Ord)]
pub struct PortNo(pub u32);

/// The number of an actor: with P parts, the numbers below P are the parts and P + j is link j.
#[derive(Clone, Copy, Debug, PartialEq, Eq, PartialOrd, Ord)]
pub struct ActorNo(pub u32);
