ghost use Rattle.std.specs.Prelude.{◌≡◌, ◌+◌, ◌<◌, ◌≤◌, ◌^◌, length};
ghost use Rattle.std.specs.Result.{result_err};
ghost use Rattle.elf_load.specs.Fields.{program_header};
ghost use Rattle.elf_load.specs.Image.{is_load, segment_of};
ghost use Rattle.elf_load.specs.Rules.{first_of, segment_rules, told};

use crate::check::check;
use crate::fields::word_at;
use crate::{ElfFault, ElfRule, Segment};

/// The bytes of an entry of the program header table.
pub(crate) const PROGRAM_HEADER_SIZE: usize = 32;

const PT_LOAD: u32 = 1;

const ADDRESSES: u64 = 1 << 32;

/// The program header at the byte place `at`: the fields that a loader reads.
#[derive(Clone, Copy)]
pub(crate) struct ProgramHeader {
    pub at: u32,
    pub p_type: u32,
    pub p_offset: u32,
    pub p_vaddr: u32,
    pub p_filesz: u32,
    pub p_memsz: u32,
}

impl ProgramHeader {
    pub(crate) fn read(file: &[u8], at: u32) -> Self
        requires { at + 32 ≤ length file.now }
        ensures { result ≡ program_header file.now at }
    {
        let place = at as usize;
        ProgramHeader {
            at,
            p_type: word_at(file, place),
            p_offset: word_at(file, place + 4),
            p_vaddr: word_at(file, place + 8),
            p_filesz: word_at(file, place + 16),
            p_memsz: word_at(file, place + 20),
        }
    }

    /// Whether a segment is loaded for this header.
    pub(crate) fn is_load(&self) -> bool
        ensures { result ≡ is_load self.now }
    {
        self.p_type == PT_LOAD && self.p_memsz > 0
    }

    pub(crate) fn segment(&self) -> Segment
        ensures { result ≡ segment_of self.now }
    {
        Segment {
            vaddr: self.p_vaddr,
            mem_size: self.p_memsz,
            from: self.p_offset,
            file_size: self.p_filesz,
            header: self.at,
        }
    }

    /// Whether a file of this length keeps the rules of this header.
    pub(crate) fn check(&self, file_length: usize) -> Result<(), ElfFault>
        requires { self.now.at + 32 < 2 ^ 32 }
        ensures { result_err result ≡ told (first_of (segment_rules file_length self.now)) }
    {
        if !self.is_load() {
            return Ok(());
        }
        let file_end = self.p_offset as usize + self.p_filesz as usize;
        let memory_end = self.p_vaddr as u64 + self.p_memsz as u64;
        check(
            ElfRule::SegmentOutside,
            self.p_filesz == 0 || file_end <= file_length,
            self.at + 4,
        )?;
        check(
            ElfRule::FileOverMemory,
            self.p_filesz <= self.p_memsz,
            self.at + 16,
        )?;
        check(ElfRule::AddressWraps, memory_end <= ADDRESSES, self.at + 8)
    }
}
