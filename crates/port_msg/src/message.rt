use sim_base::{PartNo, PortNo};

/// The most data bytes of a message.
pub const DATA_BYTES: usize = 64;

/// What a message asks for or answers.
#[derive(Clone, Copy, Debug, PartialEq, Eq)]
pub enum MsgKind {
    Read,
    Write,
    ReadRsp,
    WriteRsp,
    Flush,
    FlushRsp,
    Token,
}

/// Who made a request or token, and its number among those that this part made, counted from 0.
/// An answer has the id of its request.
#[derive(Clone, Copy, Debug, PartialEq, Eq)]
pub struct MsgId {
    pub part: PartNo,
    pub seq: u64,
}

/// A message from a port to a port of the same link.
///
/// In a message that a part makes, the bytes past `len` are 0, and all are 0 where the kind is neither a write
/// nor the answer to a read. The `len` of a read is the number of bytes asked for, at most 64 as for any message.
#[derive(Clone, Copy, Debug, PartialEq, Eq)]
pub struct Msg {
    pub id: MsgId,
    pub src: PortNo,
    pub dst: PortNo,
    pub kind: MsgKind,
    pub addr: u32,
    pub len: u8,
    pub bytes: [u8; DATA_BYTES],
}
