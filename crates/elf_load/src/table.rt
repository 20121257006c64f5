ghost use Rattle.std.specs.Prelude.{◌≡◌, ◌+◌, ◌*◌, ◌<◌, ◌≤◌, ◌^◌, length, IfOk, OnOk};
ghost use Rattle.std.specs.List.{All, flat_map};
ghost use Rattle.std.specs.Result.{result_err};
ghost use Rattle.elf_load.specs.Fields.{headers_from};
ghost use Rattle.elf_load.specs.Image.{IsSound, loads};
ghost use Rattle.elf_load.specs.Rules.{first_of, segment_rules, told};

use crate::program_header::ProgramHeader;
use crate::{ElfFault, Segments};
use sim_base::OutOfMemory;
use std::alloc::Global;

/// Whether the file keeps the rules of each of its `count` program headers from the byte place `from` on.
pub(crate) fn check_table(file: &[u8], from: u32, count: u16) -> Result<(), ElfFault>
    requires inside { 0 < count → from + 32 * count ≤ length file.now }
    requires short { length file.now < 2 ^ 32 }
    ensures fault { result_err result ≡ told (first_of (flat_map (segment_rules (length file.now)) (headers_from file.now from count))) }
    ensures sound { OnOk result (All (IsSound (length file.now)) (loads (headers_from file.now from count))) }
{
    for index in 0..count as u32 {
        ProgramHeader::read(file, from + 32 * index).check(file.len())?;
    }
    Ok(())
}

/// The segments of the `count` program headers from the byte place `from` on.
pub(crate) fn read_table(
    alloc: Global,
    file: &[u8],
    from: u32,
    count: u16,
) -> Result<Segments, OutOfMemory>
    requires inside { 0 < count → from + 32 * count ≤ length file.now }
    requires short { length file.now < 2 ^ 32 }
    ensures { IfOk result (λ segments. segments ≡ loads (headers_from file.now from count)) }
{
    let mut segments = Vec::new(alloc);
    for index in 0..count as u32 {
        let header = ProgramHeader::read(file, from + 32 * index);
        if header.is_load() {
            segments.push(header.segment())?;
        }
    }
    Ok(Segments::of(segments))
}
