/// A loadable segment: `file_size` bytes of the file from the byte place `from` on stand at the addresses from `vaddr`
/// on, and zeros behind them, `mem_size` bytes in all. Its program header stands at the byte place `header` of the file.
#[derive(Clone, Copy, Debug, PartialEq, Eq)]
pub struct Segment {
    pub vaddr: u32,
    pub mem_size: u32,
    pub from: u32,
    pub file_size: u32,
    pub header: u32,
}
