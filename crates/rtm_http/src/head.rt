use crate::span::Span;

/// A whole head of a request, and what is read from it.
#[derive(Clone, Copy, Debug, PartialEq, Eq)]
pub struct Head {
    /// How many bytes the head has; the body begins behind them.
    pub len: u32,
    pub method: Span,
    /// The target up to the first `?`.
    pub path: Span,
    /// Whether the connection is closed after the response.
    pub close: bool,
    /// How many bytes the body has.
    pub body: u64,
}

/// What bytes that were read so far are.
#[derive(Clone, Copy, Debug, PartialEq, Eq)]
pub enum HeadRead {
    /// They begin with a head that keeps the rules.
    Whole(Head),
    /// They hold no whole head, and more bytes may make one of them.
    More,
    /// No bytes can follow that make a head of them, or they begin with a head that breaks a rule on header lines.
    Bad,
    /// They hold no head among the first 16,384 bytes, or have more than 64 header lines.
    TooLarge,
}
