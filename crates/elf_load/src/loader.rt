ghost use Rattle.std.specs.Prelude.{◌≡◌, ◌+◌, ◌*◌, ◌<◌, ◌≤◌, ◌++◌, ◌↔◌, ℕ, Some, None, IfOk, OnOk, IsErrOf, length};
ghost use Rattle.std.specs.List.{All};
ghost use Rattle.std.specs.Result.{result_err};
ghost use Rattle.elf_load.specs.declared.rule.ElfRule.{ElfRule};
ghost use Rattle.elf_load.specs.Fields.{elf_header};
ghost use Rattle.elf_load.specs.Image.{IsSound, segments_of};
ghost use Rattle.elf_load.specs.Rules.{first_broken, first_of, header_rules, ident_rules, size_rules, told};

use crate::check::{LONGEST_FILE, check_ident, check_size};
use crate::elf_header::ElfHeader;
use crate::table::{check_table, read_table};
use crate::{ElfFault, Image};
use sim_base::Body;
use std::alloc::Global;

/// The file's ELF header, or the first of the rules on the file's size and its ELF header that the file breaks.
fn read_header(file: &[u8]) -> Result<ElfHeader, ElfFault>
    ensures fault { result_err result ≡ told (first_of (size_rules file.now ++ ident_rules file.now ++ header_rules (length file.now) (elf_header file.now))) }
    ensures header { IfOk result (λ header. header ≡ elf_header file.now) }
    ensures short { OnOk result (length file.now ≤ LONGEST_FILE) }
    ensures table { IfOk result (λ header. 0 < header.e_phnum → header.e_phoff + 32 * header.e_phnum ≤ length file.now) }
{
    check_size(file)?;
    check_ident(file)?;
    let header = ElfHeader::read(file);
    header.check(file.len())?;
    Ok(header)
}

/// The file's ELF header, or the first of all rules that the file breaks.
#[tactic(auto, unfolding(crate::specs::Rules::first_broken))]
fn check_file(file: &[u8]) -> Result<ElfHeader, ElfFault>
    ensures fault { result_err result ≡ told (first_broken file.now) }
    ensures header { IfOk result (λ header. header ≡ elf_header file.now) }
    ensures short { OnOk result (length file.now ≤ LONGEST_FILE) }
    ensures table { IfOk result (λ header. 0 < header.e_phnum → header.e_phoff + 32 * header.e_phnum ≤ length file.now) }
    ensures sound { OnOk result (All (IsSound (length file.now)) (segments_of file.now)) }
{
    let header = read_header(file)?;
    check_table(file, header.e_phoff, header.e_phnum)?;
    Ok(header)
}

/// The program in an ELF32 file for RISC-V, or the first rule of the format that the file breaks. The file's bytes are
/// kept and not copied, and memory for the segments is asked for only once no rule is broken.
pub fn load(alloc: Global, file: Vec<u8>) -> Result<Image, ElfFault>
    ensures entry { IfOk result (λ image. image.entry ≡ (elf_header file.items).e_entry) }
    ensures file { IfOk result (λ image. image.file ≡ file.items) }
    ensures segments { IfOk result (λ image. image.segments ≡ segments_of file.items) }

    // A file is loaded only if it breaks no rule, and refused for its first broken rule exactly where it breaks one.
    ensures accepted { OnOk result (first_broken file.items ≡ None) }
    ensures memory { IsErrOf result ElfFault.OutOfMemory → first_broken file.items ≡ None }
    ensures broken { (rule : ElfRule) (at : ℕ) → IsErrOf result (ElfFault.Broken rule at) ↔ (first_broken file.items ≡ Some (rule, at)) }
{
    let header = check_file(&file)?;
    let segments = read_table(alloc, &file, header.e_phoff, header.e_phnum)?;
    Ok(Image {
        entry: header.e_entry,
        file: Body::of(file),
        segments,
    })
}
