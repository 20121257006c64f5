/// Where a range starts: its base, and its number among the ranges as they were given.
#[derive(Clone, Copy)]
pub(crate) struct Start {
    pub base: u32,
    pub no: usize,
}
