/// What a cache does next.
#[derive(Clone, Copy, Debug, PartialEq, Eq)]
pub enum CachePhase {
    /// One of one miss waits for a request.
    Idle,
    /// It asks for its victim to be written down.
    Evict,
    /// It waits for the answer.
    WaitEvict,
    /// It asks for the line.
    Fill,
    /// It waits for the line.
    WaitFill,
    /// It answers.
    Reply,
    /// It asks for a dirty line to be written down.
    Flush,
    /// It waits for the answer.
    WaitFlush,
    /// It asks a cache below to write its lines down.
    Down,
    /// It waits for the answer.
    WaitDown,
    /// One of several misses takes requests.
    Run,
}
