ghost use Rattle.std.specs.Prelude.{◌≡◌, ◌<◌, ◌≤◌, All, AllPairs, IfOk};
ghost use Rattle.addr_map.specs.Range.{IsRange, Apart};
ghost use Rattle.rv_isa.specs.Regs.{register};
ghost use Rattle.rv_core.specs.Core.{IsCore, opening, phase_of, cause_of, core};

use crate::phase::CorePhase;
use crate::stage::Stage;
use addr_map::{AddrMap, Ranges};
use port_msg::{Cause, RecList};
use port_row::Ports;
use rv_isa::Regs;
use sim_base::{ActorNo, OutOfMemory, PartNo, PortList, PortNo, Steps};
use std::alloc::Global;
use std::marker::Model;
use std::sync::ledger::Ledger;
use tick_law::Actor;

mod instruction;
mod phases;
mod requests;

/// What a core is opened with.
#[derive(Drop)]
pub struct CoreText {
    /// Its own number.
    pub actor: ActorNo,
    /// In picoseconds, 1 to 1,000,000,000.
    pub period: u64,
    /// The port that it asks for instructions by.
    pub inst_port: PortNo,
    /// The port that it asks for data by.
    pub data_port: PortNo,
    /// Where it finds instructions.
    pub inst_map: Ranges,
    /// Where it finds data.
    pub data_map: Ranges,
    /// The ports of the caches among the targets of the data map, which a FENCE flushes in order.
    pub caches: PortList,
    /// The address of its first instruction.
    pub pc: u32,
}

/// A part that runs a program of RV32I, one instruction after the other.
#[derive(Drop)]
pub struct Core {
    part: PartNo,
    inst_port: PortNo,
    data_port: PortNo,
    period: u64,
    inst_map: AddrMap,
    data_map: AddrMap,
    caches: Vec<PortNo>,
    regs: Regs,
    pc: u32,
    retired: u64,
    requests: u64,
    stage: Stage,
}

impl Model for Core {
    ghost use Rattle.rv_core.specs.Core.{CoreState, IsCore};

    ghost Value = { CoreState };

    ghost view = { λ c. record { part = c.part; inst_port = c.inst_port; data_port = c.data_port; period = c.period; inst_map = c.inst_map; data_map = c.data_map; caches = c.caches.items; regs = c.regs; pc = c.pc; retired = c.retired; requests = c.requests; stage = c.stage } };

    ghost invariant = { λ c. IsCore (record { part = c.part; inst_port = c.inst_port; data_port = c.data_port; period = c.period; inst_map = c.inst_map; data_map = c.data_map; caches = c.caches.items; regs = c.regs; pc = c.pc; retired = c.retired; requests = c.requests; stage = c.stage }) };
}

impl Core {
    /// A core before its first instruction, whose registers are 0.
    pub fn open(alloc: Global, text: &CoreText) -> Result<Core, OutOfMemory>
        requires some { 1 ≤ text.now.period }
        requires short { text.now.period ≤ 1000000000 }
        requires inst_shape { All IsRange text.now.inst_map }
        requires inst_apart { AllPairs Apart text.now.inst_map }
        requires data_shape { All IsRange text.now.data_map }
        requires data_apart { AllPairs Apart text.now.data_map }

        ensures { IfOk result (λ core. core ≡ opening text.now) }
    {
        let inst_map = AddrMap::open(alloc, text.inst_map.items())?;
        let data_map = AddrMap::open(alloc, text.data_map.items())?;
        let caches = Vec::from_slice(alloc, text.caches.items())?;
        Ok(Core {
            part: PartNo(text.actor.0),
            inst_port: text.inst_port,
            data_port: text.data_port,
            period: text.period,
            inst_map,
            data_map,
            caches,
            regs: Regs::zero(),
            pc: text.pc,
            retired: 0,
            requests: 0,
            stage: Stage::Fetch,
        })
    }

    /// Why it halted, or None while it runs.
    pub fn cause(&self) -> Option<Cause>
        ensures { result ≡ cause_of self.now.stage }
    {
        self.stage.cause()
    }

    /// The address of the instruction that it is at.
    pub fn pc(&self) -> u32
        ensures { result ≡ self.now.pc }
    {
        self.pc
    }

    /// What it does next.
    pub fn phase(&self) -> CorePhase
        ensures { result ≡ phase_of self.now.stage }
    {
        self.stage.phase()
    }

    /// How many instructions it has retired. The count stays at its greatest number.
    pub fn retired(&self) -> u64
        ensures { result ≡ self.now.retired }
    {
        self.retired
    }

    /// What a register holds. Register 0 reads 0.
    pub fn reg(&self, r: u8) -> u32
        requires { r < 32 }
        ensures { result ≡ register self.now.regs r }
    {
        self.regs.get(r)
    }

    /// Where it finds instructions.
    pub fn inst_map(&self) -> &AddrMap
        ensures { result.now ≡ self.now.inst_map }
    {
        &self.inst_map
    }

    /// Where it finds data.
    pub fn data_map(&self) -> &AddrMap
        ensures { result.now ≡ self.now.data_map }
    {
        &self.data_map
    }
}

impl Actor for Core {
    ghost use Rattle.rv_core.specs.CoreLaws.{core_framed, core_stays, core_quiet};

    ghost machine = { core };

    ghost valid = { IsCore };

    fn tick<L: Ledger>(
        &mut self,
        ports: &mut Ports,
        _cycle: u64,
        recs: &mut RecList,
        steps: &mut Steps<L>,
    ) -> bool {
        steps.charge();
        match self.stage {
            Stage::Fetch => self.fetch(ports, recs),
            Stage::WaitInst => self.take_inst(ports, recs),
            Stage::Mem { to, access } => self.send_access(ports, to, access, recs),
            Stage::WaitData { access } => self.take_answer(ports, access, recs),
            Stage::Flush { cache } => self.send_flush(ports, cache, recs),
            Stage::WaitFlush { cache } => self.take_flushed(ports, cache, recs),
            Stage::Halted { .. } => false,
        }
    }

    fn due(&self, _cycle: u64) -> Option<u64> {
        None
    }

    fn period(&self) -> u64 {
        self.period
    }

    fn done(&self) -> bool {
        self.stage.is_halted()
    }

    fn known(&self) {
        let _period = &self.period;
    }

    ghost framed = { core_framed };

    ghost stays = { core_stays };

    ghost quiet = { core_quiet };

    ghost due_later = { λ s n t v e. Prim.cc };

    ghost due_steady = { λ s n k v l h. Prim.cc };

    ghost period_within = { λ s v. (v.period_some, v.period_short) };
}
