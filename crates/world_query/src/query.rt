use sim_base::PartNo;

/// The number of a field among those that are shown of a part, counted from 0 in their order.
#[derive(Clone, Copy, Debug, PartialEq, Eq, PartialOrd, Ord)]
pub struct FieldNo(pub u32);

/// What can be asked about a world.
#[derive(Clone, Copy, Debug, PartialEq, Eq)]
pub enum Query {
    /// The boundary alone.
    Now,
    /// The kind and the name of each part.
    Parts,
    /// All fields of a part, and whether it is done.
    Part(PartNo),
    /// One field of a part.
    Field(PartNo, FieldNo),
    /// How many messages stand in the lists of each port.
    Buffers,
    /// How far each agent and each core has come.
    Progress,
    /// The parts that are not done, and the ports with a full list.
    Stuck,
}
