ghost use Rattle.std.specs.Prelude.{◌≡◌, ◌<◌, ◌≤◌, is_some, true, OnOk, OnErr, All};
ghost use Rattle.sim_io.specs.Sink.{Rose, Got, GotPrefix, one_more, more_if, more_by};
ghost use Rattle.trace_out.specs.Names.{actors_of};
ghost use Rattle.trace_out.specs.Lines.{is_out, line_of, has_line, text_of, lines_of, line_count};

use crate::names::Names;
use crate::record_line::line_of;
use port_msg::{RecList, Record, What};
use sim_io::{Sink, SinkFault};

/// Whether a record is of a byte that a core wrote.
fn is_out(what: &What) -> bool
    ensures { result ≡ is_out what.now }
{
    match what {
        What::Out(_) => true,
        What::Send(_) | What::Take(_) | What::Move(_) | What::Halt(_) => false,
    }
}

/// Writes the line of a record by one write. It is kept out of the caller's frame: the line stands in its own.
#[inline(never)]
fn write_line<K: Sink>(rec: &Record, names: &Names, sink: &mut K) -> Result<(), SinkFault>
    requires known { rec.now.actor.0 < actors_of names.now }

    ensures ok { OnOk result (Got (K.told sink.old) (K.told sink.new) (line_of names.now rec.now)) }
    ensures prefix { OnErr result
        (GotPrefix (K.told sink.old) (K.told sink.new) (line_of names.now rec.now)) }
    ensures fault { OnErr result (Rose (K.faults sink.old) (K.faults sink.new)) }
    ensures counted { K.writes sink.new ≡ one_more (K.writes sink.old) }
    ensures never_falls { K.faults sink.old ≤ K.faults sink.new }
    ensures telling { is_some (K.told sink.new) ≡ is_some (K.told sink.old) }
{
    sink.write(line_of(rec, names).as_slice())
}

/// Writes the line of a record, unless it has none.
fn write_record<K: Sink>(
    rec: &Record,
    names: &Names,
    all: bool,
    sink: &mut K,
) -> Result<(), SinkFault>
    requires known { rec.now.actor.0 < actors_of names.now }

    ensures ok { OnOk result
        (Got (K.told sink.old) (K.told sink.new) (text_of names.now all rec.now)) }
    ensures prefix { OnErr result
        (GotPrefix (K.told sink.old) (K.told sink.new) (text_of names.now all rec.now)) }
    ensures fault { OnErr result (Rose (K.faults sink.old) (K.faults sink.new)) }
    ensures line { OnErr result (has_line all rec.now ≡ true) }
    ensures counted { K.writes sink.new ≡ more_if (has_line all rec.now) (K.writes sink.old) }
    ensures never_falls { K.faults sink.old ≤ K.faults sink.new }
    ensures telling { is_some (K.told sink.new) ≡ is_some (K.told sink.old) }
{
    if !all && !is_out(&rec.what) {
        return Ok(());
    }
    write_line(rec, names, sink)
}

/// Writes the lines of these records in order, each by one write; without `all` only those of bytes that cores wrote.
/// A fault comes only where there is a line, and a prefix of the lines was written then. It takes no memory.
pub fn write_records<K: Sink>(
    recs: &RecList,
    names: &Names,
    all: bool,
    sink: &mut K,
) -> Result<(), SinkFault>
    requires known { All (λ r. r.actor.0 < actors_of names.now) recs.now.items }

    ensures ok { OnOk result
        (Got (K.told sink.old) (K.told sink.new) (lines_of names.now all recs.now.items)) }
    ensures prefix { OnErr result
        (GotPrefix (K.told sink.old) (K.told sink.new) (lines_of names.now all recs.now.items)) }
    ensures fault { OnErr result (Rose (K.faults sink.old) (K.faults sink.new)) }
    ensures some { OnErr result (0 < line_count all recs.now.items) }

    ensures one_each { OnOk result
        (K.writes sink.new ≡ more_by (K.writes sink.old) (line_count all recs.now.items)) }
    ensures never_falls { K.faults sink.old ≤ K.faults sink.new }
    ensures telling { is_some (K.told sink.new) ≡ is_some (K.told sink.old) }
{
    for record in recs.items() {
        write_record(record, names, all, sink)?;
    }
    Ok(())
}
