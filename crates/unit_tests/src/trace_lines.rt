ghost use Rattle.std.specs.Prelude.{true};
ghost use Rattle.std.specs.Prelude.{◌≡◌, ◌+◌, ◌<◌, ◌↔◌, length, IfOk, IsTrue, All};
ghost use Rattle.trace_out.specs.Names.{actors_of};

use port_msg::{Cause, Msg, MsgId, MsgKind, RecList, What};
use sim_base::{ActorNo, Name, OutOfMemory, PartNo, PortNo, Time};
use sim_io::{MemSink, SinkFault};
use std::alloc::Global;
use std::test::Fail;
use trace_out::{Names, PortName, write_records};

/// A machine of a part `c` with a port `mem`, and a link `net`.
fn names(alloc: Global, c: Name, net: Name, mem: Name) -> Result<Names, OutOfMemory>
    ensures { IfOk result (λ names. actors_of names ≡ 2) }
{
    let port = PortName {
        part: PartNo(0),
        word: mem,
    };
    Names::open(alloc, &[c], &[net], &[port])
}

fn have_names(recs: &RecList, actors: u32) -> bool
    ensures { IsTrue result ↔ All (λ r. r.actor.0 < actors) recs.now.items }
{
    recs.items().iter().all(|r| r.actor.0 < actors)
}

fn sink(alloc: Global, fails: &[u64]) -> Result<MemSink, OutOfMemory> {
    Ok(MemSink::of(Vec::new(alloc), Vec::from_slice(alloc, fails)?))
}

#[test]
fn only_bytes_of_cores_have_lines(rt: HostRuntime) -> Result<(), Fail> {
    let alloc = rt.alloc();
    let c = Name::read(b"c").ok_or("a name")?;
    let net = Name::read(b"net").ok_or("a name")?;
    let mem = Name::read(b"mem").ok_or("a name")?;
    let names = names(alloc, c, net, mem)?;
    let mut recs = RecList::open(alloc, 4)?;
    recs.begin(Time(11000), ActorNo(0));
    recs.push(What::Out(0x41));
    recs.push(What::Halt(Cause::Exit(0)));
    recs.push(What::Out(0xe9));
    recs.begin(Time(u64::MAX), ActorNo(0));
    recs.push(What::Out(10));
    assert!(rt; have_names(&recs, 2));
    let mut all = sink(alloc, &[])?;
    assert_eq!(rt; write_records(&recs, &names, false, &mut all), Ok(()));
    assert_eq!(rt;
        all.bytes(),
        b"11000 out c 41\n11000 out c e9\n18446744073709551615 out c 0a\n".as_slice()
    );
    let mut some = sink(alloc, &[2])?;
    assert_eq!(rt;
        write_records(&recs, &names, false, &mut some),
        Err(SinkFault)
    );
    assert_eq!(rt; some.bytes(), b"11000 out c 41\n".as_slice());
    Ok(())
}

/// A message of part 0 with this number, between two ports.
fn message(kind: MsgKind, src: u32, dst: u32, addr: u32, len: u8) -> Msg {
    Msg {
        id: MsgId {
            part: PartNo(0),
            seq: 0,
        },
        src: PortNo(src),
        dst: PortNo(dst),
        kind,
        addr,
        len,
        bytes: [0; 64],
    }
}

/// A machine of parts `a` and `m`, with the ports `a.io` and `m.top`, and a link `l`.
fn pair(alloc: Global, a: Name, m: Name, l: Name, io: Name, top: Name) -> Result<Names, OutOfMemory>
    ensures { IfOk result (λ names. actors_of names ≡ 3) }
{
    let io = PortName {
        part: PartNo(0),
        word: io,
    };
    let top = PortName {
        part: PartNo(1),
        word: top,
    };
    Names::open(alloc, &[a, m], &[l], &[io, top])
}

/// Notes what an actor did at a time.
fn note(recs: &mut RecList, at: u64, actor: u32, what: What)
    requires { length recs.old.items < recs.old.room }
    ensures one { length recs.new.items ≡ length recs.old.items + 1 }
    ensures room { recs.new.room ≡ recs.old.room }
{
    recs.begin(Time(at), ActorNo(actor));
    recs.push(what);
}

#[test]
fn a_write_and_its_answer_have_their_lines(rt: HostRuntime) -> Result<(), Fail> {
    let alloc = rt.alloc();
    let a = Name::read(b"a").ok_or("a name")?;
    let m = Name::read(b"m").ok_or("a name")?;
    let l = Name::read(b"l").ok_or("a name")?;
    let io = Name::read(b"io").ok_or("a name")?;
    let top = Name::read(b"top").ok_or("a name")?;
    let names = pair(alloc, a, m, l, io, top)?;
    let mut write = message(MsgKind::Write, 0, 1, 0x24, 4);
    write.bytes[0] = 0x6c;
    write.bytes[1] = 0x59;
    write.bytes[2] = 0x88;
    write.bytes[3] = 0x3c;
    let answer = message(MsgKind::WriteRsp, 1, 0, 0x24, 0);
    let mut strange = message(MsgKind::ReadRsp, 2, 1, 0xfedcba98, 0);
    strange.id = MsgId {
        part: PartNo(2),
        seq: 17,
    };
    let mut recs = RecList::open(alloc, 9)?;
    note(&mut recs, 0, 0, What::Send(write));
    note(&mut recs, 0, 2, What::Move(write));
    note(&mut recs, 1000, 1, What::Take(write));
    note(&mut recs, 2000, 1, What::Send(answer));
    note(&mut recs, 2000, 2, What::Move(answer));
    note(&mut recs, 3000, 0, What::Take(answer));
    note(&mut recs, 4000, 0, What::Halt(Cause::Exit(4294967295)));
    note(&mut recs, 4000, 1, What::Halt(Cause::MisalignedStore));
    note(&mut recs, 4000, 2, What::Move(strange));
    assert!(rt; have_names(&recs, 3));
    let mut out = sink(alloc, &[])?;
    assert_eq!(rt; write_records(&recs, &names, true, &mut out), Ok(()));
    let lines = b"0 send a write a.0 a.io m.top 00000024 4 6c59883c
0 move l write a.0 a.io m.top 00000024 4 6c59883c
1000 take m write a.0 a.io m.top 00000024 4 6c59883c
2000 send m writersp a.0 m.top a.io 00000024 0 -
2000 move l writersp a.0 m.top a.io 00000024 0 -
3000 take a writersp a.0 m.top a.io 00000024 0 -
4000 halt a exit 4294967295
4000 halt m misaligned-store
4000 move l readrsp ?.17 ? m.top fedcba98 0 \n";
    assert_eq!(rt; out.bytes(), lines.as_slice());
    Ok(())
}
