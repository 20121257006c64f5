//! The programs that a configuration names.
ghost use Rattle.std.specs.Prelude.{◌≡◌, ◌≤◌, ℕ, List, Ok, Err, IfOk, IfErr};
ghost use Rattle.sim_io.specs.Sink.{Rose};
ghost use Rattle.top_run.specs.Job.{AreOwn, IsProgramIn, IsImageOf, IsFirstBroken, BreaksFormat, IsProgramName, AreRead, IsFaultOfProgram};

use crate::command::FileName;
use crate::program_breach::{ProgramBreach, ProgramRule};
use crate::refusal::Refusal;
use elf_load::{ElfFault, ElfRule, Image, LONGEST_FILE, load};
use sim_config::ProgramText;
use sim_io::{FileFault, Files};
use std::alloc::Global;

/// The program of this number in a file of these bytes, or the first rule of the format that it breaks.
fn load_program(alloc: Global, number: usize, bytes: Vec<u8>) -> Result<Image, Refusal>
    ensures image { IfOk result (IsImageOf bytes.items) }
    ensures fault { IfErr result (IsFaultOfProgram (λ name. ⊥)
        (λ breach. (breach.program ≡ number)
        × IsFirstBroken bytes.items breach)) }
{
    match load(alloc, bytes) {
        Ok(image) => Ok(image),
        Err(ElfFault::Broken { rule, at }) => Err(Refusal::Program(ProgramBreach {
            program: number,
            rule: ProgramRule::Format(rule),
            at,
        })),
        Err(ElfFault::OutOfMemory) => Err(Refusal::OutOfMemory),
    }
}

/// The program of this number in the file of a name, or the first rule of the format that it breaks.
fn read_program<F: Files>(
    alloc: Global,
    files: &mut F,
    number: usize,
    name: &str,
) -> Result<Image, Refusal>
    ensures image { IfOk result (IsProgramIn (AreOwn (F.contents files.old)) name.now) }
    ensures fault { IfErr result (IsFaultOfProgram
        (λ file. (file ≡ name.now)
        × Rose (F.faults files.old file) (F.faults files.new file))
        (λ breach. (breach.program ≡ number)
        × BreaksFormat (AreOwn (F.contents files.old)) name.now breach)) }

    ensures contents { (other : List ℕ) → F.contents files.new other ≡ F.contents files.old other }
    ensures never_falls { (other : List ℕ) → F.faults files.old other ≤ F.faults files.new other }
{
    match files.read_file(alloc, name, LONGEST_FILE) {
        Ok(bytes) => load_program(alloc, number, bytes),
        Err(FileFault::Failed) => Err(Refusal::Read(FileName::of(alloc, name)?)),
        Err(FileFault::TooLong) => Err(Refusal::Program(ProgramBreach {
            program: number,
            rule: ProgramRule::Format(ElfRule::TooLong),
            at: LONGEST_FILE as u32,
        })),
        Err(FileFault::OutOfMemory) => Err(Refusal::OutOfMemory),
    }
}

/// The name of a program's file.
fn file_name(program: &ProgramText) -> &str
    ensures { result.now ≡ program.now.file }
{
    match std::str::from_utf8(program.file.items()) {
        Ok(name) => name,
        Err(_) => unreachable!(),
    }
}

/// The programs that a configuration names, in their order, up to the first that breaks a rule of the format.
pub(crate) fn read_programs<F: Files>(
    alloc: Global,
    files: &mut F,
    programs: &[ProgramText],
) -> Result<Vec<Image>, Refusal>
    ensures images { IfOk result (λ images. AreRead
        (AreOwn (F.contents files.old)) programs.now (Ok images.items)) }
    ensures fault { IfErr result (IsFaultOfProgram
        (λ file. IsProgramName (AreOwn (F.contents files.old)) programs.now file
        × Rose (F.faults files.old file) (F.faults files.new file))
        (λ breach. AreRead (AreOwn (F.contents files.old)) programs.now (Err breach))) }

    ensures contents { (other : List ℕ) → F.contents files.new other ≡ F.contents files.old other }
    ensures never_falls { (other : List ℕ) → F.faults files.old other ≤ F.faults files.new other }
{
    let mut images = Vec::new(alloc);
    for program in programs {
        let image = read_program(alloc, files, images.len(), file_name(program))?;
        images.push(image)?;
    }
    Ok(images)
}
