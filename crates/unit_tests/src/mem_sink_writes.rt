use sim_io::{MemSink, Sink, SinkFault};
use std::test::Fail;

#[test]
fn a_listed_write_fails_and_appends_nothing(rt: HostRuntime) -> Result<(), Fail> {
    let held = b"ok:".to_vec(rt.alloc())?;
    let fails = [2u64, 4].to_vec(rt.alloc())?;
    let mut sink = MemSink::of(held, fails);
    assert_eq!(rt; sink.write(b"one "), Ok(()));
    assert_eq!(rt; sink.write(b"two "), Err(SinkFault));
    assert_eq!(rt; sink.write(b"three "), Ok(()));
    assert_eq!(rt; sink.write(b"four "), Err(SinkFault));
    assert_eq!(rt; sink.write(b"five"), Ok(()));
    assert_eq!(rt; sink.bytes(), b"ok:one three five".as_slice());
    Ok(())
}
