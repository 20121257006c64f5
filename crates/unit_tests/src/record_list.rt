use port_msg::{Cause, RecList, Record, What};
use sim_base::{ActorNo, OutOfMemory, Time};

#[test]
fn records_have_the_time_and_actor_that_were_set_last(rt: HostRuntime) -> Result<(), OutOfMemory> {
    let mut recs = RecList::open(rt.alloc(), 2)?;
    recs.begin(Time(6), ActorNo(1));
    recs.push(What::Out(104));
    recs.begin(Time(9), ActorNo(2));
    recs.push(What::Halt(Cause::Exit(3)));
    let out = Record {
        at: Time(6),
        actor: ActorNo(1),
        what: What::Out(104),
    };
    let halt = Record {
        at: Time(9),
        actor: ActorNo(2),
        what: What::Halt(Cause::Exit(3)),
    };
    assert_eq!(rt; recs.items(), [out, halt].as_slice());
    recs.clear();
    assert!(rt; recs.items().is_empty());
    Ok(())
}
