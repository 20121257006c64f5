ghost use Rattle.std.specs.Prelude.{◌≡◌, ◌≤◌, OnOk, length};
ghost use Rattle.std.specs.Result.{result_err};
ghost use Rattle.elf_load.specs.Rules.{first_of, ident_rules, kept, size_rules, told};

use crate::elf_header::ELF_HEADER_SIZE;
use crate::{ElfFault, ElfRule};

/// The most bytes of a file.
pub const LONGEST_FILE: usize = 8_388_608;

const MAGIC: [u8; 4] = [0x7F, b'E', b'L', b'F'];

const ELFCLASS32: u8 = 1;

const ELFDATA2LSB: u8 = 1;

const EV_CURRENT: u8 = 1;

/// The fault of a rule at this byte place, unless the rule is kept.
pub(crate) fn check(rule: ElfRule, is_kept: bool, at: u32) -> Result<(), ElfFault>
    ensures { result_err result ≡ told (kept rule is_kept at) }
{
    if is_kept {
        Ok(())
    } else {
        Err(ElfFault::Broken { rule, at })
    }
}

/// Whether the file is short enough, and has an ELF header.
pub(crate) fn check_size(file: &[u8]) -> Result<(), ElfFault>
    ensures fault { result_err result ≡ told (first_of (size_rules file.now)) }
    ensures short { OnOk result (length file.now ≤ LONGEST_FILE) }
    ensures room { OnOk result (ELF_HEADER_SIZE ≤ length file.now) }
{
    check(
        ElfRule::TooLong,
        file.len() <= LONGEST_FILE,
        LONGEST_FILE as u32,
    )?;
    check(
        ElfRule::Short,
        ELF_HEADER_SIZE <= file.len(),
        file.len() as u32,
    )
}

/// Whether the file's first bytes say that this is an ELF32 file, the lowest byte of each number first.
pub(crate) fn check_ident(file: &[u8]) -> Result<(), ElfFault>
    requires { ELF_HEADER_SIZE ≤ length file.now }
    ensures { result_err result ≡ told (first_of (ident_rules file.now)) }
{
    check(ElfRule::Magic, file.starts_with(&MAGIC), 0)?;
    check(ElfRule::Class, file[4] == ELFCLASS32, 4)?;
    check(ElfRule::DataOrder, file[5] == ELFDATA2LSB, 5)?;
    check(ElfRule::Version, file[6] == EV_CURRENT, 6)
}
