/// The two passes of one time: parts tick in the primary one, then links in the secondary one.
#[derive(Clone, Copy, Debug, PartialEq, Eq)]
pub enum Phase {
    Primary,
    Secondary,
}
