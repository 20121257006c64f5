ghost use Rattle.std.specs.Prelude.{◌≡◌, ◌+◌, ◌<◌, length};

use port_msg::{Msg, MsgId, MsgKind, RecList, What};
use sim_base::{ActorNo, OutOfMemory, PartNo, PortNo, Time};
use task_stats::{Stats, TaskCount};

/// A message of part 0 with this number.
fn message(kind: MsgKind, seq: u64) -> Msg {
    Msg {
        id: MsgId {
            part: PartNo(0),
            seq,
        },
        src: PortNo(0),
        dst: PortNo(1),
        kind,
        addr: 0,
        len: 4,
        bytes: [0; 64],
    }
}

/// Notes what an actor did at a time.
fn note(recs: &mut RecList, at: u64, actor: u32, what: What)
    requires { length recs.old.items < recs.old.room }
    ensures one { length recs.new.items ≡ length recs.old.items + 1 }
    ensures room { recs.new.room ≡ recs.old.room }
{
    recs.begin(Time(at), ActorNo(actor));
    recs.push(what);
}

fn count(begun: u64, ended: u64, sum: u128, greatest: u64) -> TaskCount {
    TaskCount {
        begun,
        ended,
        sum,
        greatest,
    }
}

/// A part sends two requests of one number, a token and a flush; the memory answers the first two. An answer that nobody waits
/// for ends nothing, nor does an answer that another part takes.
#[test]
fn the_earliest_request_of_a_number_is_answered_first(rt: HostRuntime) -> Result<(), OutOfMemory> {
    let alloc = rt.alloc();
    let mut stats = Stats::open(alloc, 2)?;
    let mut recs = RecList::open(alloc, 12)?;
    note(&mut recs, 1000, 0, What::Send(message(MsgKind::Read, 7)));
    note(&mut recs, 1000, 2, What::Move(message(MsgKind::Read, 7)));
    note(&mut recs, 2000, 1, What::Take(message(MsgKind::Read, 7)));
    note(&mut recs, 3000, 0, What::Send(message(MsgKind::Write, 7)));
    note(&mut recs, 3500, 0, What::Send(message(MsgKind::Token, 8)));
    note(&mut recs, 4000, 1, What::Send(message(MsgKind::ReadRsp, 7)));
    note(&mut recs, 6000, 0, What::Take(message(MsgKind::ReadRsp, 7)));
    note(&mut recs, 6500, 0, What::Send(message(MsgKind::Flush, 9)));
    note(
        &mut recs,
        7000,
        0,
        What::Take(message(MsgKind::WriteRsp, 7)),
    );
    note(
        &mut recs,
        8000,
        0,
        What::Take(message(MsgKind::WriteRsp, 7)),
    );
    note(
        &mut recs,
        9000,
        1,
        What::Take(message(MsgKind::FlushRsp, 9)),
    );
    stats.add(&recs);
    assert_eq!(rt; stats.of(PartNo(0)), count(3, 2, 9000, 5000));
    assert_eq!(rt; stats.of(PartNo(1)), count(0, 0, 0, 0));
    recs.clear();
    recs.begin(Time(20000), ActorNo(0));
    recs.push(What::Take(message(MsgKind::FlushRsp, 9)));
    stats.add(&recs);
    assert_eq!(rt; stats.of(PartNo(0)), count(3, 3, 22500, 13500));
    Ok(())
}
