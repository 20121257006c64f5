ghost use Rattle.std.specs.Prelude.{◌≤◌, length};
ghost use Rattle.std.specs.List.{All};
ghost use Rattle.elf_load.specs.Image.{IsSound};

use crate::Segments;
use sim_base::Body;

/// A program: the address at which it begins, its file, and the segments that are loaded from the file, in the order of
/// their headers. A later segment wins where two overlap.
#[derive(Drop)]
pub struct Image {
    /// The address at which it begins. No rule is asked of it: it may be odd, or outside every segment.
    pub entry: u32,
    /// The bytes of the file, at most 8388608.
    pub file: Body,
    /// One for each load, in the order of the headers.
    pub segments: Segments,
    ghost short: { length file ≤ 8388608 },
    ghost sound: { All (IsSound (length file)) segments },
}
