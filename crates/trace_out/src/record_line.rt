ghost use Rattle.std.specs.Prelude.{◌≡◌, ◌+◌, ◌≤◌, ◌<◌, ◌++◌, length};
ghost use Rattle.arrayvec.specs.ArrayVec.{array_vec_len};
ghost use Rattle.trace_out.specs.Names.{actors_of};
ghost use Rattle.trace_out.specs.Lines.{cause_text, line_of, what_text, what_word};

use crate::line::{LINE_ROOM, Line, add, add_hex, add_name, add_number};
use crate::message::add_message;
use crate::names::Names;
use port_msg::{Cause, Record, What};

/// Appends why a core halted.
pub fn add_cause(line: &mut Line, cause: Cause)
    requires room { array_vec_len line.old + 25 ≤ LINE_ROOM }

    ensures added { line.new.items ≡ line.old.items ++ cause_text cause }
    ensures long { array_vec_len line.new ≤ array_vec_len line.old + 25 }
{
    let word: &[u8] = match cause {
        Cause::Exit(code) => {
            add(line, b"exit ");
            add_number(line, code as u64);
            return;
        }
        Cause::Illegal => b"illegal",
        Cause::BadCall => b"bad-call",
        Cause::Break => b"break",
        Cause::MisalignedJump => b"misaligned-jump",
        Cause::MisalignedLoad => b"misaligned-load",
        Cause::MisalignedStore => b"misaligned-store",
        Cause::UnmappedFetch => b"unmapped-fetch",
        Cause::UnmappedLoad => b"unmapped-load",
        Cause::UnmappedStore => b"unmapped-store",
    };
    add(line, word);
}

/// The word of what was done.
fn word_of(what: &What) -> &'static [u8]
    ensures word { result.now ≡ what_word what.now }
    ensures long { length result.now ≤ 4 }
{
    match what {
        What::Send(_) => b"send",
        What::Take(_) => b"take",
        What::Move(_) => b"move",
        What::Out(_) => b"out",
        What::Halt(_) => b"halt",
    }
}

/// Appends what was done with: a message, a byte, or why a core halted.
fn add_what(line: &mut Line, names: &Names, what: &What)
    requires room { array_vec_len line.old + 353 ≤ LINE_ROOM }

    ensures added { line.new.items ≡ line.old.items ++ what_text names.now what.now }
    ensures long { array_vec_len line.new ≤ array_vec_len line.old + 353 }
{
    match what {
        What::Send(msg) | What::Take(msg) | What::Move(msg) => add_message(line, names, msg),
        What::Out(byte) => add_hex(line, &[*byte]),
        What::Halt(cause) => add_cause(line, *cause),
    }
}

/// The line of a record.
pub fn line_of(rec: &Record, names: &Names) -> Line
    requires known { rec.now.actor.0 < actors_of names.now }

    ensures { result.items ≡ line_of names.now rec.now }
{
    let mut line = Line::new();
    add_number(&mut line, rec.at.0);
    add(&mut line, b" ");
    add(&mut line, word_of(&rec.what));
    add(&mut line, b" ");
    add_name(&mut line, names.actor(rec.actor));
    add(&mut line, b" ");
    add_what(&mut line, names, &rec.what);
    add(&mut line, b"\n");
    line
}
