use sim_io::{Sink, SinkFault, Stream};
use std::io::{self, ErrorKind, Write};

/// A writer that is interrupted once, and then takes one byte a write, as many as it has room for.
#[derive(Drop)]
struct Slow {
    interrupts: bool,
    room: u8,
}

impl Write for Slow {
    fn write(&mut self, buf: &[u8]) -> io::Result<usize> {
        if self.interrupts {
            self.interrupts = false;
            return Err(io::Error::from(ErrorKind::Interrupted));
        }
        if self.room == 0 || buf.is_empty() {
            return Ok(0);
        }
        self.room -= 1;
        Ok(1)
    }

    fn flush(&mut self) -> io::Result<()> {
        Ok(())
    }
}

/// A writer that fails.
#[derive(Drop)]
struct Broken;

impl Write for Broken {
    fn write(&mut self, _buf: &[u8]) -> io::Result<usize> {
        Err(io::Error::from(ErrorKind::BrokenPipe))
    }

    fn flush(&mut self) -> io::Result<()> {
        Ok(())
    }
}

/// What a writer does at its first write.
#[derive(Clone, Copy, Drop)]
enum First {
    Fails(ErrorKind),
    TakesNothing,
}

/// A writer that does this at its first write, takes all that each later one gives it, and counts its writes.
#[derive(Drop)]
struct Once {
    first: Option<First>,
    writes: u8,
}

impl Write for Once {
    fn write(&mut self, buf: &[u8]) -> io::Result<usize> {
        self.writes = self.writes.saturating_add(1);
        match self.first.take() {
            Some(First::Fails(kind)) => Err(io::Error::from(kind)),
            Some(First::TakesNothing) => Ok(0),
            None => Ok(buf.len()),
        }
    }

    fn flush(&mut self) -> io::Result<()> {
        Ok(())
    }
}

#[test]
fn a_piece_is_written_in_short_writes(rt: HostRuntime) {
    let slow = Slow {
        interrupts: true,
        room: 5,
    };
    let mut stream = Stream::of(slow);
    assert_eq!(rt; stream.write(b"abc"), Ok(()));
    assert_eq!(rt; stream.writer.room, 2);
    assert_eq!(rt; stream.write(b"def"), Err(SinkFault));
    assert_eq!(rt; stream.writer.room, 0);
    assert_eq!(rt; stream.faults, 1);
}

#[test]
fn a_failed_write_is_a_fault(rt: HostRuntime) {
    let mut stream = Stream::of(Broken);
    assert_eq!(rt; stream.write(b"abc"), Err(SinkFault));
    assert_eq!(rt; stream.write(b"abc"), Err(SinkFault));
    assert_eq!(rt; stream.faults, 2);
}

#[test]
fn a_write_that_fails_once_is_not_tried_again(rt: HostRuntime) {
    let rows = [
        (First::TakesNothing, Err(SinkFault), 1, 1),
        (First::Fails(ErrorKind::WriteZero), Err(SinkFault), 1, 1),
        (First::Fails(ErrorKind::WouldBlock), Err(SinkFault), 1, 1),
        (First::Fails(ErrorKind::StorageFull), Err(SinkFault), 1, 1),
        (First::Fails(ErrorKind::Interrupted), Ok(()), 2, 0),
    ];
    for (first, answer, writes, faults) in rows {
        let mut stream = Stream::of(Once {
            first: Some(first),
            writes: 0,
        });
        assert_eq!(rt; stream.write(b"abc"), answer);
        assert_eq!(rt; stream.writer.writes, writes);
        assert_eq!(rt; stream.faults, faults);
    }
}

#[test]
fn standard_output_takes_a_line(rt: HostRuntime) {
    let mut out = Stream::of(rt.stdout());
    assert_eq!(rt; out.write(b"a line\n"), Ok(()));
    let mut err = Stream::of(rt.stderr());
    assert_eq!(rt; err.write(b"a line\n"), Ok(()));
}
