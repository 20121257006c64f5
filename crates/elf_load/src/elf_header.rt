ghost use Rattle.std.specs.Prelude.{◌≡◌, ◌+◌, ◌*◌, ◌<◌, ◌≤◌, OnOk, length};
ghost use Rattle.std.specs.Result.{result_err};
ghost use Rattle.elf_load.specs.Fields.{elf_header};
ghost use Rattle.elf_load.specs.Rules.{first_of, header_rules, told};

use crate::check::check;
use crate::fields::{half_at, word_at};
use crate::program_header::PROGRAM_HEADER_SIZE;
use crate::{ElfFault, ElfRule};

/// The bytes of the ELF header.
pub(crate) const ELF_HEADER_SIZE: usize = 52;

const EV_CURRENT: u32 = 1;

const ET_EXEC: u16 = 2;

const EM_RISCV: u16 = 243;

/// The fields of the ELF header that a loader reads.
#[derive(Clone, Copy)]
pub(crate) struct ElfHeader {
    pub e_type: u16,
    pub e_machine: u16,
    pub e_version: u32,
    pub e_entry: u32,
    pub e_phoff: u32,
    pub e_ehsize: u16,
    pub e_phentsize: u16,
    pub e_phnum: u16,
}

impl ElfHeader {
    /// The header at the file's front.
    pub(crate) fn read(file: &[u8]) -> Self
        requires { ELF_HEADER_SIZE ≤ length file.now }
        ensures { result ≡ elf_header file.now }
    {
        ElfHeader {
            e_type: half_at(file, 16),
            e_machine: half_at(file, 18),
            e_version: word_at(file, 20),
            e_entry: word_at(file, 24),
            e_phoff: word_at(file, 28),
            e_ehsize: half_at(file, 40),
            e_phentsize: half_at(file, 42),
            e_phnum: half_at(file, 44),
        }
    }

    /// Whether a file of this length with this header keeps the header's rules.
    pub(crate) fn check(&self, file_length: usize) -> Result<(), ElfFault>
        ensures fault { result_err result ≡ told (first_of (header_rules file_length self.now)) }
        ensures table { OnOk result (0 < self.now.e_phnum → self.now.e_phoff + 32 * self.now.e_phnum ≤ file_length) }
    {
        let no_table = self.e_phnum == 0;
        check(ElfRule::Version, self.e_version == EV_CURRENT, 20)?;
        check(ElfRule::FileType, self.e_type == ET_EXEC, 16)?;
        check(ElfRule::Machine, self.e_machine == EM_RISCV, 18)?;
        check(
            ElfRule::HeaderSize,
            self.e_ehsize as usize == ELF_HEADER_SIZE,
            40,
        )?;
        check(
            ElfRule::HeaderSize,
            no_table || self.e_phentsize as usize == PROGRAM_HEADER_SIZE,
            42,
        )?;
        check(
            ElfRule::TableOutside,
            no_table || self.table_end() <= file_length,
            28,
        )
    }

    /// The place behind the program header table.
    fn table_end(&self) -> usize
        ensures { result ≡ self.now.e_phoff + 32 * self.now.e_phnum }
    {
        self.e_phoff as usize + PROGRAM_HEADER_SIZE * self.e_phnum as usize
    }
}
