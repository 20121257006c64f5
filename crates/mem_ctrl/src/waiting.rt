use port_msg::Msg;

/// A request that a memory has taken, and the cycle from which on it is served.
#[derive(Clone, Copy, Debug, PartialEq, Eq)]
pub struct Waiting {
    pub request: Msg,
    pub deadline: u64,
}
