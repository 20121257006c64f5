ghost use Rattle.std.specs.Prelude.{◌≡◌, IfOk, string_bytes};
ghost use Rattle.serde_json.specs.View.{view};
ghost use Rattle.trace_out.specs.Lines.{cause_text};
ghost use Rattle.part_view.specs.Fields.{core_phase_word, shown_data};
ghost use Rattle.part_view.specs.CachePhases.{cache_phase_word};

use cache_comp::CachePhase;
use port_msg::Cause;
use rv_core::CorePhase;
use serde_json::Value;
use sim_base::OutOfMemory;
use std::alloc::Global;

/// What a field of a part shows.
#[derive(Clone, Copy, Debug, Default, PartialEq, Eq)]
pub enum Shown {
    #[default]
    Nothing,
    Number(u64),
    /// Why a core halted.
    Cause(Cause),
    /// What a core does next.
    CorePhase(CorePhase),
    /// What a cache does next.
    CachePhase(CachePhase),
}

fn core_phase_word(phase: CorePhase) -> &'static str
    ensures { result.now ≡ core_phase_word phase }
{
    match phase {
        CorePhase::Fetch => "fetch",
        CorePhase::WaitInst => "wait-inst",
        CorePhase::Mem => "mem",
        CorePhase::WaitData => "wait-data",
        CorePhase::Flush => "flush",
        CorePhase::WaitFlush => "wait-flush",
        CorePhase::Halted => "halted",
    }
}

fn cache_phase_word(phase: CachePhase) -> &'static str
    ensures { result.now ≡ cache_phase_word phase }
{
    match phase {
        CachePhase::Idle => "idle",
        CachePhase::Evict => "evict",
        CachePhase::WaitEvict => "wait-evict",
        CachePhase::Fill => "fill",
        CachePhase::WaitFill => "wait-fill",
        CachePhase::Reply => "reply",
        CachePhase::Flush => "flush",
        CachePhase::WaitFlush => "wait-flush",
        CachePhase::Down => "down",
        CachePhase::WaitDown => "wait-down",
        CachePhase::Run => "run",
    }
}

fn cause_text(alloc: Global, cause: Cause) -> Result<String, OutOfMemory>
    ensures { IfOk result (λ text. string_bytes text ≡ cause_text cause) }
{
    let word = match cause {
        Cause::Exit(code) => return Ok(format!(in alloc; "exit {code}")?),
        Cause::Illegal => "illegal",
        Cause::BadCall => "bad-call",
        Cause::Break => "break",
        Cause::MisalignedJump => "misaligned-jump",
        Cause::MisalignedLoad => "misaligned-load",
        Cause::MisalignedStore => "misaligned-store",
        Cause::UnmappedFetch => "unmapped-fetch",
        Cause::UnmappedLoad => "unmapped-load",
        Cause::UnmappedStore => "unmapped-store",
    };
    Ok(String::from_str(alloc, word)?)
}

impl Shown {
    /// Its JSON: `null`, a number, or a text.
    pub fn to_value(self, alloc: Global) -> Result<Value, OutOfMemory>
        ensures { IfOk result (λ v. view v ≡ shown_data self) }
    {
        match self {
            Shown::Nothing => Ok(Value::Null),
            Shown::Number(n) => Ok(Value::from(n)),
            Shown::Cause(cause) => Ok(Value::String(cause_text(alloc, cause)?)),
            Shown::CorePhase(phase) => Ok(Value::try_from_str(alloc, core_phase_word(phase))?),
            Shown::CachePhase(phase) => Ok(Value::try_from_str(alloc, cache_phase_word(phase))?),
        }
    }
}
