ghost use Rattle.std.specs.Prelude.{◌≡◌, ◌+◌, ◌<◌, ◌≤◌, length, slice_set};
ghost use Rattle.std.specs.Int.{w32, from_le_bytes};
ghost use Rattle.port_msg.specs.RecView.{appended_all};
ghost use Rattle.tick_law.specs.Pass.{port_at};
ghost use Rattle.rv_core.specs.Core.{IsAccess, IsStage, is_read_answer, is_flush_answer, inst_of, data_of, with_port, send, fetch, take_inst, send_access, take_answer, send_flush, take_flushed};

use super::Core;
use crate::access::Access;
use crate::stage::Stage;
use port_msg::{Cause, Msg, MsgKind, RecList, What};
use port_row::Ports;
use sim_base::PortNo;

/// The place of the port `inst` among a core's ports.
const INST: usize = 0;

/// The place of the port `data`.
const DATA: usize = 1;

/// The number that the first 4 bytes of a message are, the lowest first.
fn word_of(msg: &Msg) -> u32
    ensures { result ≡ from_le_bytes w32 msg.now.bytes }
{
    let [first, second, third, fourth, ..] = msg.bytes;
    u32::from_le_bytes([first, second, third, fourth])
}

/// Whether a message is the answer to a read of so many bytes.
fn is_read_answer(bytes: u8, kind: MsgKind, len: u8) -> bool
    ensures { result ≡ is_read_answer bytes kind len }
{
    match kind {
        MsgKind::ReadRsp => len == bytes,
        _ => false,
    }
}

/// Whether a message is the answer to a flush.
fn is_flush_answer(kind: MsgKind, len: u8) -> bool
    ensures { result ≡ is_flush_answer kind len }
{
    match kind {
        MsgKind::FlushRsp => len == 0,
        _ => false,
    }
}

/// The phases of a core: one of them acts in a step.
impl Core {
    /// With room at an own port, a request is sent, whose answer is waited for in this phase.
    pub(crate) fn send(
        &mut self,
        ports: &mut Ports,
        place: usize,
        msg: Msg,
        stage: Stage,
        recs: &mut RecList,
    ) -> bool
        requires port { place < length ports.old.ports }
        requires room { length recs.old.items < recs.old.room }
        requires stage { IsStage self.old.caches stage }

        ensures state { self.new ≡ (send msg stage self.old (port_at ports.old.ports place)).state }
        ensures port { ports.new ≡ with_port ports.old place (send msg stage self.old (port_at ports.old.ports place)).port }
        ensures records { recs.new ≡ appended_all recs.old (send msg stage self.old (port_at ports.old.ports place)).records }
        ensures flag { result ≡ (send msg stage self.old (port_at ports.old.ports place)).flag }
    {
        if ports.send(place, msg).is_err() {
            return false;
        }
        recs.push(What::Send(msg));
        self.requests = self.requests.saturating_add(1);
        self.stage = stage;
        true
    }

    /// Where pc is no multiple of 4 it halts, and where no port has its address; else with room it sends a read of
    /// 4 bytes there.
    pub(crate) fn fetch(&mut self, ports: &mut Ports, recs: &mut RecList) -> bool
        requires port { 0 < length ports.old.ports }
        requires room { length recs.old.items < recs.old.room }

        ensures state { self.new ≡ (fetch self.old (inst_of ports.old)).state }
        ensures port { ports.new ≡ with_port ports.old 0 (fetch self.old (inst_of ports.old)).port }
        ensures records { recs.new ≡ appended_all recs.old (fetch self.old (inst_of ports.old)).records }
        ensures flag { result ≡ (fetch self.old (inst_of ports.old)).flag }
    {
        if self.pc % 4 != 0 {
            self.halt(Cause::MisalignedJump, recs);
            return true;
        }
        let Some(to) = self.inst_map.find(self.pc) else {
            self.halt(Cause::UnmappedFetch, recs);
            return true;
        };
        let request = self.read_request(self.inst_port, to, self.pc, 4);
        self.send(ports, INST, request, Stage::WaitInst, recs)
    }

    /// With the answer to its fetch at the head, it takes it and runs the word.
    pub(crate) fn take_inst(&mut self, ports: &mut Ports, recs: &mut RecList) -> bool
        requires port { 0 < length ports.old.ports }
        requires room { length recs.old.items + 2 ≤ recs.old.room }

        ensures state { self.new ≡ (take_inst self.old (inst_of ports.old)).state }
        ensures port { ports.new ≡ with_port ports.old 0 (take_inst self.old (inst_of ports.old)).port }
        ensures records { recs.new ≡ appended_all recs.old (take_inst self.old (inst_of ports.old)).records }
        ensures flag { result ≡ (take_inst self.old (inst_of ports.old)).flag }
    {
        let Some(msg) = ports.in_head(INST) else {
            return false;
        };
        if !is_read_answer(4, msg.kind, msg.len) {
            return false;
        }
        let _ = ports.in_take(INST);
        recs.push(What::Take(msg));
        self.run(word_of(&msg), recs);
        true
    }

    /// With room, it sends the request of a load or a store.
    pub(crate) fn send_access(
        &mut self,
        ports: &mut Ports,
        to: PortNo,
        access: Access,
        recs: &mut RecList,
    ) -> bool
        requires port { 1 < length ports.old.ports }
        requires room { length recs.old.items < recs.old.room }
        requires access { IsAccess access }

        ensures state { self.new ≡ (send_access to access self.old (data_of ports.old)).state }
        ensures port { ports.new ≡ with_port ports.old 1 (send_access to access self.old (data_of ports.old)).port }
        ensures records { recs.new ≡ appended_all recs.old (send_access to access self.old (data_of ports.old)).records }
        ensures flag { result ≡ (send_access to access self.old (data_of ports.old)).flag }
    {
        let request = self.access_request(to, access);
        self.send(ports, DATA, request, Stage::WaitData { access }, recs)
    }

    /// With the answer to a load or a store at the head, it takes it and ends the access.
    pub(crate) fn take_answer(
        &mut self,
        ports: &mut Ports,
        access: Access,
        recs: &mut RecList,
    ) -> bool
        requires port { 1 < length ports.old.ports }
        requires room { length recs.old.items < recs.old.room }
        requires access { IsAccess access }

        ensures state { self.new ≡ (take_answer access self.old (data_of ports.old)).state }
        ensures port { ports.new ≡ with_port ports.old 1 (take_answer access self.old (data_of ports.old)).port }
        ensures records { recs.new ≡ appended_all recs.old (take_answer access self.old (data_of ports.old)).records }
        ensures flag { result ≡ (take_answer access self.old (data_of ports.old)).flag }
    {
        let Some(msg) = ports.in_head(DATA) else {
            return false;
        };
        if !access.deed.is_answer(access.bytes, msg.kind, msg.len) {
            return false;
        }
        let _ = ports.in_take(DATA);
        recs.push(What::Take(msg));
        self.end_access(access, word_of(&msg));
        true
    }

    /// With room, it sends a flush to the cache at a place of its list.
    pub(crate) fn send_flush(&mut self, ports: &mut Ports, cache: usize, recs: &mut RecList) -> bool
        requires port { 1 < length ports.old.ports }
        requires room { length recs.old.items < recs.old.room }
        requires within { cache < length self.old.caches }

        ensures state { self.new ≡ (send_flush cache self.old (data_of ports.old)).state }
        ensures port { ports.new ≡ with_port ports.old 1 (send_flush cache self.old (data_of ports.old)).port }
        ensures records { recs.new ≡ appended_all recs.old (send_flush cache self.old (data_of ports.old)).records }
        ensures flag { result ≡ (send_flush cache self.old (data_of ports.old)).flag }
    {
        let request = self.flush_request(self.caches[cache]);
        self.send(ports, DATA, request, Stage::WaitFlush { cache }, recs)
    }

    /// With the answer to its flush at the head, it takes it and goes on to the next cache.
    pub(crate) fn take_flushed(
        &mut self,
        ports: &mut Ports,
        cache: usize,
        recs: &mut RecList,
    ) -> bool
        requires port { 1 < length ports.old.ports }
        requires room { length recs.old.items < recs.old.room }
        requires within { cache < length self.old.caches }

        ensures state { self.new ≡ (take_flushed cache self.old (data_of ports.old)).state }
        ensures port { ports.new ≡ with_port ports.old 1 (take_flushed cache self.old (data_of ports.old)).port }
        ensures records { recs.new ≡ appended_all recs.old (take_flushed cache self.old (data_of ports.old)).records }
        ensures flag { result ≡ (take_flushed cache self.old (data_of ports.old)).flag }
    {
        let Some(msg) = ports.in_head(DATA) else {
            return false;
        };
        if !is_flush_answer(msg.kind, msg.len) {
            return false;
        }
        let _ = ports.in_take(DATA);
        recs.push(What::Take(msg));
        self.flush_after(cache);
        true
    }
}
