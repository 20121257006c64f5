/// What a core does next.
#[derive(Clone, Copy, Debug, PartialEq, Eq)]
pub enum CorePhase {
    /// It asks for an instruction.
    Fetch,
    /// It waits for one.
    WaitInst,
    /// It asks for a load or a store.
    Mem,
    /// It waits for the answer.
    WaitData,
    /// It asks a cache to write its lines down.
    Flush,
    /// It waits for the answer.
    WaitFlush,
    /// It has ended.
    Halted,
}
