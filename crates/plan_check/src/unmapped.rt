//! The rule on programs: each byte of their segments has a port.
ghost use Rattle.std.specs.Prelude.{◌≡◌, ◌≤◌, length, All};
ghost use Rattle.elf_load.specs.Image.{IsSound};
ghost use Rattle.plan_check.specs.Programs as spec;

use elf_load::{Image, Segment};
use plan_rules::{Numbered, is_uncovered};
use sim_config::{PartKeys, ProgramText, RangeText};

/// The first segment with a byte that has no port: its program, and the byte place of its address in the program's file.
#[derive(Clone, Copy, Debug, PartialEq, Eq)]
pub(crate) struct Unmapped {
    pub program: u32,
    pub at: u32,
}

/// The ranges of the data map of a program's core, none where it has no core.
pub(crate) fn data_ranges<'a>(plan: &Numbered<'a>, program: &ProgramText) -> &'a [RangeText]
    ensures { result.now ≡ spec.data_ranges plan.now program.now }
{
    match plan.keys_of(plan.part_no(&program.core)) {
        Some(PartKeys::Core { data_map, .. }) => plan.ranges_by(data_map),
        _ => &[],
    }
}

/// The byte place of the address of the first segment that has a byte in none of these ranges.
fn unmapped_in(ranges: &[RangeText], segments: &[Segment], file: &[u8]) -> Option<u32>
    requires short { length file.now ≤ 8388608 }
    requires sound { All (IsSound (length file.now)) segments.now }

    ensures { result ≡ spec.unmapped_in ranges.now segments.now }
{
    let _length = file.len();
    for segment in segments {
        if is_uncovered(ranges, segment.vaddr, u64::from(segment.mem_size)) {
            return Some(segment.header + 8);
        }
    }
    None
}

/// The first segment of all programs with a byte that has no port.
pub(crate) fn first_unmapped(plan: &Numbered, images: &[Image]) -> Option<Unmapped>
    requires { length images.now ≡ length plan.now.programs }
    ensures { result ≡ spec.first_unmapped plan.now images.now }
{
    let text = plan.text();
    let programs = text.programs.items();
    for no in 0..programs.len() as u32 {
        let image = &images[no as usize];
        let ranges = data_ranges(plan, &programs[no as usize]);
        if let Some(at) = unmapped_in(ranges, image.segments.items(), image.file.items()) {
            return Some(Unmapped { program: no, at });
        }
    }
    None
}
