ghost use Rattle.std.specs.Prelude.{◌≡◌, ◌<◌, length, IfOk, string_bytes};
ghost use Rattle.top_run.specs.Refusals.{usage_line, name_place, config_line, byte_words, place_words, program_line, plan_line, read_line, write_at_line};

use crate::command::FileName;
use crate::program_breach::ProgramBreach;
use itoa::Buffer;
use plan_rules::Breach;
use plan_show::Unknown;
use sim_base::{OutOfMemory, Time};
use sim_config::ConfigFault;
use std::alloc::{AllocError, AllocFailed, Global};
use trace_out::{Line, add};

/// Why a run of the program ends without a verdict.
#[derive(Drop)]
pub enum Refusal {
    /// The words are not accepted, from this one on.
    Usage(usize),
    /// The reading of this file failed.
    Read(FileName),
    /// The file breaks a rule of configurations.
    Config(ConfigFault),
    /// A program's file breaks a rule of the format, or a segment of it has no port.
    Program(ProgramBreach),
    /// The file breaks a rule of plans.
    Plan(Breach),
    /// A name of the question is that of no part, or of no field of the part, of the file's machine.
    Name(Unknown),
    /// A write of the report failed.
    Write,
    /// A write of a line at the end of a time failed; the boundary behind that time.
    WriteAt(Time),
    OutOfMemory,
}

impl From<OutOfMemory> for Refusal {
    ghost use Rattle.std.specs.Prelude.{◌≡◌};
    ghost use Rattle.top_run.specs.declared.refusal.Refusal.TheVariants.{OutOfMemory};

    ghost from_gives = { λ _ refusal. refusal ≡ OutOfMemory };

    fn from(_fault: OutOfMemory) -> Self {
        Refusal::OutOfMemory
    }
}

impl From<AllocError> for Refusal {
    ghost use Rattle.std.specs.Prelude.{◌≡◌};
    ghost use Rattle.top_run.specs.declared.refusal.Refusal.TheVariants.{OutOfMemory};

    ghost from_gives = { λ _ refusal. refusal ≡ OutOfMemory };

    fn from(_fault: AllocError) -> Self {
        Refusal::OutOfMemory
    }
}

impl<T: Drop> From<AllocFailed<T>> for Refusal {
    ghost use Rattle.std.specs.Prelude.{◌≡◌};
    ghost use Rattle.top_run.specs.declared.refusal.Refusal.TheVariants.{OutOfMemory};

    ghost from_gives = { λ _ refusal. refusal ≡ OutOfMemory };

    fn from(_failed: AllocFailed<T>) -> Self {
        Refusal::OutOfMemory
    }
}

/// The line of words that are refused.
pub fn usage_line(alloc: Global, word: usize) -> Result<String, AllocError>
    ensures text { IfOk result (λ line. string_bytes line ≡ usage_line word) }
    ensures some { IfOk result (λ line. 0 < length (string_bytes line)) }
{
    format!(in alloc; "akita: usage: word {word}\n")
}

/// Which word of `show FILE --at T part NAME` and `show FILE --at T field NAME FIELD` a name is, counted from 1.
pub fn name_place(unknown: Unknown) -> usize
    ensures { result ≡ name_place unknown }
{
    match unknown {
        Unknown::Part => 6,
        Unknown::Field => 7,
    }
}

/// The line of a file whose reading failed.
pub fn read_line(alloc: Global, file: &FileName) -> Result<String, AllocError>
    ensures text { IfOk result (λ line. string_bytes line ≡ read_line file.now) }
    ensures some { IfOk result (λ line. 0 < length (string_bytes line)) }
{
    let name = file.as_str();
    format!(in alloc; "akita: read: {name}\n")
}

/// The line of a file that breaks a rule of configurations.
pub fn config_line(alloc: Global, fault: ConfigFault) -> Result<String, AllocError>
    ensures text { IfOk result (λ line. string_bytes line ≡ config_line fault) }
    ensures some { IfOk result (λ line. 0 < length (string_bytes line)) }
{
    format!(in alloc; "akita: config: {fault}\n")
}

/// The byte place at which a program breaks a rule, and the end of the line.
fn byte_text(alloc: Global, at: u32) -> Result<String, AllocError>
    ensures { IfOk result (λ text. string_bytes text ≡ byte_words at) }
{
    format!(in alloc; " at {at}\n")
}

/// Where a program breaks a rule, and the end of the line.
fn place_text(alloc: Global, program: usize, at: u32) -> Result<String, AllocError>
    ensures { IfOk result (λ text. string_bytes text ≡ place_words program at) }
{
    let byte = byte_text(alloc, at)?;
    format!(in alloc; "{program}{byte}")
}

/// The line of a program that breaks a rule.
pub fn program_line(alloc: Global, breach: ProgramBreach) -> Result<String, AllocError>
    ensures text { IfOk result (λ line. string_bytes line ≡ program_line breach) }
    ensures some { IfOk result (λ line. 0 < length (string_bytes line)) }
{
    let rule = breach.rule;
    let place = place_text(alloc, breach.program, breach.at)?;
    format!(in alloc; "akita: program: {rule} {place}")
}

/// The line of a file that breaks a rule of plans.
pub fn plan_line(alloc: Global, breach: Breach) -> Result<String, AllocError>
    ensures text { IfOk result (λ line. string_bytes line ≡ plan_line breach) }
    ensures some { IfOk result (λ line. 0 < length (string_bytes line)) }
{
    let rule = breach.rule;
    let table = breach.table;
    format!(in alloc; "akita: plan: {rule} {table}\n")
}

/// The line that tells of a line of the run that was not written. It takes no memory.
pub fn write_at_line(upto: Time) -> Line
    ensures { result.items ≡ write_at_line upto.0 }
{
    let mut digits = Buffer::new();
    let mut line = Line::new();
    add(&mut line, b"akita: write at ");
    add(&mut line, digits.format(upto.0).as_bytes());
    add(&mut line, b"\n");
    line
}
