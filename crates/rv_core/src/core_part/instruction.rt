ghost use Rattle.std.specs.Prelude.{◌≡◌, ◌+◌, ◌<◌, length};
ghost use Rattle.port_msg.specs.RecView.{appended_all};
ghost use Rattle.rv_isa.specs.Effect.{NamesRegister, HasWidth};
ghost use Rattle.rv_core.specs.Core.{IsAccess, retire_to, retire, halt, begin_access, flush_from, exit, put_byte, call, obey, run, end_access};

use super::Core;
use crate::access::{Access, Deed};
use crate::stage::Stage;
use port_msg::{Cause, RecList, What};
use rv_isa::{Effect, loaded, word_effect};

/// The environment call, in x17, that writes the low byte of x10.
const PUT_BYTE: u32 = 1;

/// The environment call, in x17, that ends the program with the code in x10.
const EXIT: u32 = 93;

/// What instructions make a core do.
impl Core {
    /// An instruction retires: it counts, and the one at this address is fetched.
    pub(crate) fn retire_to(&mut self, next: u32)
        ensures { self.new ≡ retire_to self.old next }
    {
        self.pc = next;
        self.retired = self.retired.saturating_add(1);
        self.stage = Stage::Fetch;
    }

    /// An instruction retires, and the one at the next word is fetched.
    pub(crate) fn retire(&mut self)
        ensures { self.new ≡ retire self.old }
    {
        self.retire_to(self.pc.wrapping_add(4));
    }

    /// A halt is recorded; pc stays at the instruction, and no register is written.
    pub(crate) fn halt(&mut self, cause: Cause, recs: &mut RecList)
        requires room { length recs.old.items < recs.old.room }

        ensures state { self.new ≡ (halt cause self.old).state }
        ensures records { recs.new ≡ appended_all recs.old (halt cause self.old).records }
    {
        self.stage = Stage::Halted { cause };
        recs.push(What::Halt(cause));
    }

    /// A load or a store halts where its address is no multiple of its bytes, and where no port has it; else it is to
    /// be sent there.
    pub(crate) fn begin_access(&mut self, access: Access, recs: &mut RecList)
        requires room { length recs.old.items < recs.old.room }
        requires access { IsAccess access }

        ensures state { self.new ≡ (begin_access access self.old).state }
        ensures records { recs.new ≡ appended_all recs.old (begin_access access self.old).records }
    {
        if access.addr % u32::from(access.bytes) != 0 {
            self.halt(access.deed.misaligned(), recs);
            return;
        }
        let Some(to) = self.data_map.find(access.addr) else {
            self.halt(access.deed.unmapped(), recs);
            return;
        };
        self.stage = Stage::Mem { to, access };
    }

    /// The caches from a place on are to be flushed; where there is none, the FENCE retires.
    pub(crate) fn flush_from(&mut self, cache: usize)
        ensures { self.new ≡ flush_from cache self.old }
    {
        if cache < self.caches.len() {
            self.stage = Stage::Flush { cache };
        } else {
            self.retire();
        }
    }

    /// The caches behind this one are to be flushed.
    pub(crate) fn flush_after(&mut self, cache: usize)
        requires within { cache < length self.old.caches }
        ensures { self.new ≡ flush_from (cache + 1) self.old }
    {
        let caches = self.caches.len();
        prove!(cache < caches);
        self.flush_from(cache + 1);
    }

    /// The program ends with the code in x10: the call retires and halts.
    pub(crate) fn exit(&mut self, recs: &mut RecList)
        requires room { length recs.old.items < recs.old.room }

        ensures state { self.new ≡ (exit self.old).state }
        ensures records { recs.new ≡ appended_all recs.old (exit self.old).records }
    {
        let code = self.regs.get(10);
        self.retired = self.retired.saturating_add(1);
        self.halt(Cause::Exit(code), recs);
    }

    /// The low byte of x10 is written.
    pub(crate) fn put_byte(&mut self, recs: &mut RecList)
        requires room { length recs.old.items < recs.old.room }

        ensures state { self.new ≡ (put_byte self.old).state }
        ensures records { recs.new ≡ appended_all recs.old (put_byte self.old).records }
    {
        recs.push(What::Out((self.regs.get(10) % 256) as u8));
        self.retire();
    }

    /// An environment call by x17: 93 ends the program, 1 writes a byte, and every other halts.
    pub(crate) fn call(&mut self, recs: &mut RecList)
        requires room { length recs.old.items < recs.old.room }

        ensures state { self.new ≡ (call self.old).state }
        ensures records { recs.new ≡ appended_all recs.old (call self.old).records }
    {
        match self.regs.get(17) {
            EXIT => self.exit(recs),
            PUT_BYTE => self.put_byte(recs),
            _ => self.halt(Cause::BadCall, recs),
        }
    }

    /// What the effect of an instruction makes the core do.
    pub(crate) fn obey(&mut self, effect: Effect, recs: &mut RecList)
        requires room { length recs.old.items < recs.old.room }
        requires register { NamesRegister effect }
        requires width { HasWidth effect }

        ensures state { self.new ≡ (obey effect self.old).state }
        ensures records { recs.new ≡ appended_all recs.old (obey effect self.old).records }
    {
        match effect {
            Effect::Go { rd, value, next } => {
                self.regs.set(rd, value);
                self.retire_to(next);
            }
            Effect::Load {
                rd,
                bytes,
                signed,
                addr,
            } => {
                let deed = Deed::Load { rd, signed };
                self.begin_access(Access { addr, bytes, deed }, recs);
            }
            Effect::Store { bytes, addr, value } => {
                let deed = Deed::Store { value };
                self.begin_access(Access { addr, bytes, deed }, recs);
            }
            Effect::Fence => self.flush_from(0),
            Effect::Call => self.call(recs),
            Effect::Break => self.halt(Cause::Break, recs),
            Effect::BadTarget => self.halt(Cause::MisalignedJump, recs),
        }
    }

    /// A word is an instruction whose effect is obeyed, or else it halts.
    pub(crate) fn run(&mut self, word: u32, recs: &mut RecList)
        requires room { length recs.old.items < recs.old.room }

        ensures state { self.new ≡ (run word self.old).state }
        ensures records { recs.new ≡ appended_all recs.old (run word self.old).records }
    {
        match word_effect(&self.regs, self.pc, word) {
            Some(effect) => self.obey(effect, recs),
            None => self.halt(Cause::Illegal, recs),
        }
    }

    /// A load writes its register, and a load or a store retires.
    pub(crate) fn end_access(&mut self, access: Access, word: u32)
        requires access { IsAccess access }
        ensures { self.new ≡ end_access access.bytes access.deed word self.old }
    {
        if let Deed::Load { rd, signed } = access.deed {
            self.regs.set(rd, loaded(access.bytes, signed, word));
        }
        self.retire();
    }
}
