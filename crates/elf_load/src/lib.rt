//! ELF32 programs for RISC-V: a file's loadable segments, or the first rule of the format that it breaks.
#![tactic(auto)]

mod check;
mod elf_header;
mod fault;
mod fields;
mod image;
mod loader;
mod program_header;
mod rule;
mod segment;
mod segments;
mod table;

pub use check::LONGEST_FILE;
pub use fault::ElfFault;
pub use image::Image;
pub use loader::load;
pub use rule::ElfRule;
pub use segment::Segment;
pub use segments::Segments;
