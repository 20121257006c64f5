ghost use Rattle.std.specs.Prelude.{◌≡◌, ◌≢◌, ℕ, ◌<◌, ◌⊎◌, List, [], length, string_bytes, is_some, true, Option, Ok, Err, IfOk, IfErr, IfSome};
ghost use Rattle.sim_io.specs.Sink.{Rose, Got};
ghost use Rattle.top_run.specs.Words.{spelled, Accepts, IsAccepted, RefusedAt};
ghost use Rattle.top_run.specs.declared.command.Command.{Command};
ghost use Rattle.top_run.specs.declared.job.Job.{Job};
ghost use Rattle.top_run.specs.Job.{Rule, Means, IsTold};
ghost use Rattle.top_run.specs.Refusals.{usage_line, read_line, config_line, program_line, plan_line, write_line, write_at_line, memory_line, Told};
ghost use Rattle.top_run.specs.Top.{job_status, all_lines, job_written, HasRun, FailedAt, FailedBehind, ReadFailed, SomeReadFailed, rule_line, rule_status};
ghost use Rattle.top_run.specs.Top.{IsVerdict, IsStatus, IsBroken, IsRefusal, IsUnknownAt, IsRefusedWord, SomeJob, SomeFile, IsCause, IsUnwritten, IsUnreported};

use crate::carry::carry_out;
use crate::job::read_job;
use crate::refusal::{
    Refusal, config_line, name_place, plan_line, program_line, read_line, usage_line, write_at_line,
};
use crate::status::Status;
use crate::words::read_words;
use sim_base::{Steps, Time};
use sim_io::{Files, Sink};
use std::alloc::{AllocError, Global};
use std::sync::ledger::Ledger;

/// Writes a line of a refusal. A failure is told to nobody.
fn tell<E: Sink>(err: &mut E, line: &[u8])
    requires some { 0 < length line.now }
    ensures { Told line.now
        (E.told err.old) (E.told err.new) (E.faults err.old) (E.faults err.new) }
{
    let _ = err.write(line);
}

/// Tells of a refusal by its line, and answers its status; where no memory was found for the line, that is told instead.
fn tell_made<E: Sink>(err: &mut E, line: Result<String, AllocError>, status: Status) -> Status
    requires some { IfOk line (λ text. 0 < length (string_bytes text)) }
    requires other { status.0 ≢ 8 }

    ensures either { (result.0 ≡ status.0) ⊎ (result.0 ≡ 8) }
    ensures line { result.0 ≡ status.0 → (bytes : List ℕ)
        → IfOk line (λ text. string_bytes text ≡ bytes)
        → Told bytes (E.told err.old) (E.told err.new) (E.faults err.old) (E.faults err.new) }
    ensures memory { result.0 ≡ 8
        → Told memory_line (E.told err.old) (E.told err.new) (E.faults err.old) (E.faults err.new) }
{
    match line {
        Ok(text) => {
            tell(err, text.as_bytes());
            status
        }
        Err(_) => {
            tell(err, b"akita: memory\n");
            Status(8)
        }
    }
}

/// Writes the line that tells of a line of the run that was not written.
fn tell_write_at<E: Sink>(err: &mut E, upto: Time)
    ensures { Told (write_at_line upto.0)
        (E.told err.old) (E.told err.new) (E.faults err.old) (E.faults err.new) }
{
    tell(err, write_at_line(upto).as_slice());
}

fn run_words<F: Files, K: Sink, L: Ledger>(
    alloc: Global,
    words: &[String],
    files: &mut F,
    out: &mut K,
    steps: &mut Steps<L>,
) -> Result<Status, Refusal>
    ensures ran { IfOk result (λ s. HasRun (F.contents files.old) (spelled words.now) s.0
        (K.told out.old) (K.told out.new) steps.old steps.new) }

    ensures fault { IfErr result (IsCause
        (F.contents files.old) (F.faults files.old) (F.faults files.new) (spelled words.now)
        (K.faults out.old) (K.faults out.new) (K.told out.old) (K.told out.new)) }
    ensures unwritten { IfErr result (IsUnwritten (out.new ≡ out.old)) }
    ensures unread { (IsAccepted (spelled words.now) → ⊥) → files.new ≡ files.old }
    ensures unreported { IfErr result (IsUnreported ((out.new ≡ out.old)
        ⊎ SomeJob (F.contents files.old) (spelled words.now) (λ command job.
        Got (K.told out.old) (K.told out.new) (all_lines job)))) }

    ensures contents { (name : List ℕ) → F.contents files.new name ≡ F.contents files.old name }
{
    let command = read_words(alloc, words)?;
    let job = read_job(alloc, &command, files)?;
    carry_out(alloc, job, out, steps)
}

/// Runs the program on its words, and answers the status that it ends with. It waits for nobody.
///
/// The words are looked at first, then the file that they name is read and its rules of configurations are tried, then the
/// programs that it names are read one after the other, then its rules of plans are tried, then the names of a question are looked
/// up. The lines of the run and then its report, or the answer to the question, go to `out`. Every refusal is one line on `err`:
/// `akita: usage: word K` names the first word that no accepted list of words has there, or the name of a part or a field that the
/// machine does not have, `akita: read: FILE` a file whose reading failed, `akita: config: RULE TABLE KEY` and `akita: plan: RULE TABLE` the first
/// rule that a file breaks, `akita: program: RULE P at BYTE` the first rule that program P breaks and the byte place in its file,
/// `akita: write at D` a failed write of a line with the boundary D behind its time, `akita: write` a failed write of the report,
/// `akita: memory` want of memory. A failure of `err` changes no status.
pub fn plain<F: Files, K: Sink, E: Sink, L: Ledger>(
    alloc: Global,
    words: &[String],
    files: &mut F,
    out: &mut K,
    err: &mut E,
    steps: &mut Steps<L>,
) -> Option<Status>
    ensures some { is_some result ≡ true }
    ensures statuses { IfSome result (λ s. IsStatus s.0) }

    ensures ran { IfSome result (λ s. IsVerdict s.0
        → HasRun (F.contents files.old) (spelled words.now) s.0
        (K.told out.old) (K.told out.new) steps.old steps.new) }
    ensures silent { IfSome result (λ s. IsVerdict s.0 → err.new ≡ err.old) }
    ensures complete { (command : Command) (job : Job) → Accepts (spelled words.now) command
        → IsTold (F.contents files.old) command (Ok job)
        → (Rose (K.faults out.old) (K.faults out.new) → ⊥)
        → (SomeReadFailed (F.contents files.old) (F.faults files.old) (F.faults files.new) command → ⊥)
        → IfSome result (λ s. (s.0 ≡ 8) ⊎ ((s.0 ≡ job_status job)
        × Got (K.told out.old) (K.told out.new) (job_written job))) }

    ensures usage { IfSome result (λ s. s.0 ≡ 2
        → (k : ℕ) × IsRefusedWord (F.contents files.old) (spelled words.now) k
        × Told (usage_line k)
        (E.told err.old) (E.told err.new) (E.faults err.old) (E.faults err.new)) }
    ensures refused { (IsAccepted (spelled words.now) → ⊥)
        → IfSome result (λ s. (s.0 ≡ 2) ⊎ (s.0 ≡ 8)) }
    ensures accepted { IsAccepted (spelled words.now) → IfSome result (λ s. s.0 ≡ 2
        → (k : ℕ) × IsUnknownAt (F.contents files.old) (spelled words.now) k) }

    ensures read { IfSome result (λ s. s.0 ≡ 5
        → (name : List ℕ) × SomeFile (spelled words.now) (λ command.
        ReadFailed (F.contents files.old) (F.faults files.old) (F.faults files.new) command name
        × Told (read_line name)
        (E.told err.old) (E.told err.new) (E.faults err.old) (E.faults err.new))) }

    ensures rule { IfSome result (λ s. IsBroken s.0
        → (rule : Rule) × (s.0 ≡ rule_status rule) × SomeFile (spelled words.now) (λ command.
        Means (F.contents files.old) command (Err rule))
        × Told (rule_line rule)
        (E.told err.old) (E.told err.new) (E.faults err.old) (E.faults err.new)) }
    ensures broken { (command : Command) (rule : Rule) → Accepts (spelled words.now) command
        → IsTold (F.contents files.old) command (Err rule)
        → (SomeReadFailed (F.contents files.old) (F.faults files.old) (F.faults files.new) command → ⊥)
        → IfSome result (λ s. (s.0 ≡ rule_status rule) ⊎ (s.0 ≡ 8)) }
    ensures unwritten { IfSome result (λ s. IsRefusal s.0 → out.new ≡ out.old) }

    ensures write { IfSome result (λ s. s.0 ≡ 6 → Rose (K.faults out.old) (K.faults out.new)
        × ((SomeJob (F.contents files.old) (spelled words.now) (λ command job.
        FailedBehind job (K.told out.old) (K.told out.new))
        × Told write_line (E.told err.old) (E.told err.new) (E.faults err.old) (E.faults err.new))
        ⊎ ((d : ℕ) × SomeJob (F.contents files.old) (spelled words.now) (λ command job.
        FailedAt job (K.told out.old) (K.told out.new) d)
        × Told (write_at_line d)
        (E.told err.old) (E.told err.new) (E.faults err.old) (E.faults err.new)))) }
    ensures memory { IfSome result (λ s. s.0 ≡ 8 → Told memory_line
        (E.told err.old) (E.told err.new) (E.faults err.old) (E.faults err.new)) }
    ensures unreported { IfSome result (λ s. s.0 ≡ 8 → (out.new ≡ out.old)
        ⊎ SomeJob (F.contents files.old) (spelled words.now) (λ command job.
        Got (K.told out.old) (K.told out.new) (all_lines job))) }

    ensures unread { (IsAccepted (spelled words.now) → ⊥) → files.new ≡ files.old }
    ensures contents { (name : List ℕ) → F.contents files.new name ≡ F.contents files.old name }
{
    let status = match run_words(alloc, words, files, out, steps) {
        Ok(status) => status,
        Err(Refusal::Usage(word)) => tell_made(err, usage_line(alloc, word), Status(2)),
        Err(Refusal::Read(file)) => tell_made(err, read_line(alloc, &file), Status(5)),
        Err(Refusal::Config(fault)) => tell_made(err, config_line(alloc, fault), Status(3)),
        Err(Refusal::Program(breach)) => tell_made(err, program_line(alloc, breach), Status(4)),
        Err(Refusal::Plan(breach)) => tell_made(err, plan_line(alloc, breach), Status(3)),
        Err(Refusal::Name(unknown)) => {
            tell_made(err, usage_line(alloc, name_place(unknown)), Status(2))
        }
        Err(Refusal::WriteAt(upto)) => {
            tell_write_at(err, upto);
            Status(6)
        }
        Err(Refusal::Write) => {
            tell(err, b"akita: write\n");
            Status(6)
        }
        Err(Refusal::OutOfMemory) => {
            tell(err, b"akita: memory\n");
            Status(8)
        }
    };
    Some(status)
}
