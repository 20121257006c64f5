ghost use Rattle.std.specs.Prelude.{◌≡◌, ◌+◌, ◌≤◌, ◌++◌, length};
ghost use Rattle.arrayvec.specs.ArrayVec.{array_vec_len};
ghost use Rattle.trace_out.specs.Lines.{data_text, has_data, id_text, kind_text, load_text, message_text, port_text, way_text};

use crate::line::{LINE_ROOM, Line, add, add_hex, add_name, add_number};
use crate::names::Names;
use port_msg::{Msg, MsgKind};
use sim_base::PortNo;

/// The word of a kind of message.
fn kind_word(kind: MsgKind) -> &'static [u8]
    ensures word { result.now ≡ kind_text kind }
    ensures long { length result.now ≤ 8 }
{
    match kind {
        MsgKind::Read => b"read",
        MsgKind::Write => b"write",
        MsgKind::ReadRsp => b"readrsp",
        MsgKind::WriteRsp => b"writersp",
        MsgKind::Flush => b"flush",
        MsgKind::FlushRsp => b"flushrsp",
        MsgKind::Token => b"token",
    }
}

/// Whether messages of this kind have data.
fn has_data(kind: MsgKind) -> bool
    ensures { result ≡ has_data kind }
{
    match kind {
        MsgKind::Write | MsgKind::ReadRsp => true,
        MsgKind::Read | MsgKind::WriteRsp => false,
        MsgKind::Flush | MsgKind::FlushRsp | MsgKind::Token => false,
    }
}

/// Appends `PART.PORT`, or `?` where the number names no port.
fn add_port(line: &mut Line, names: &Names, no: PortNo)
    requires room { array_vec_len line.old + 65 ≤ LINE_ROOM }

    ensures added { line.new.items ≡ line.old.items ++ port_text names.now no.0 }
    ensures long { array_vec_len line.new ≤ array_vec_len line.old + 65 }
{
    let Some(port) = names.port(no) else {
        add(line, b"?");
        return;
    };
    add_name(line, names.part(port.part));
    add(line, b".");
    add(line, port.word.text());
}

/// Appends `IDPART.SEQ`.
fn add_id(line: &mut Line, names: &Names, msg: &Msg)
    requires room { array_vec_len line.old + 53 ≤ LINE_ROOM }

    ensures added { line.new.items ≡ line.old.items ++ id_text names.now msg.now }
    ensures long { array_vec_len line.new ≤ array_vec_len line.old + 53 }
{
    add_name(line, names.part(msg.id.part));
    add(line, b".");
    add_number(line, msg.id.seq);
}

/// Appends `SRC DST`.
fn add_way(line: &mut Line, names: &Names, msg: &Msg)
    requires room { array_vec_len line.old + 131 ≤ LINE_ROOM }

    ensures added { line.new.items ≡ line.old.items ++ way_text names.now msg.now }
    ensures long { array_vec_len line.new ≤ array_vec_len line.old + 131 }
{
    add_port(line, names, msg.src);
    add(line, b" ");
    add_port(line, names, msg.dst);
}

/// Appends the data of a message, or `-` where its kind has none.
fn add_data(line: &mut Line, msg: &Msg)
    requires room { array_vec_len line.old + 128 ≤ LINE_ROOM }

    ensures added { line.new.items ≡ line.old.items ++ data_text msg.now }
    ensures long { array_vec_len line.new ≤ array_vec_len line.old + 128 }
{
    if has_data(msg.kind) {
        let len = (msg.len as usize).min(msg.bytes.len());
        add_hex(line, &msg.bytes[..len]);
    } else {
        add(line, b"-");
    }
}

/// Appends `ADDR LEN DATA`.
fn add_load(line: &mut Line, msg: &Msg)
    requires room { array_vec_len line.old + 158 ≤ LINE_ROOM }

    ensures added { line.new.items ≡ line.old.items ++ load_text msg.now }
    ensures long { array_vec_len line.new ≤ array_vec_len line.old + 158 }
{
    add_hex(line, &msg.addr.to_be_bytes());
    add(line, b" ");
    add_number(line, msg.len as u64);
    add(line, b" ");
    add_data(line, msg);
}

/// Appends `KIND IDPART.SEQ SRC DST ADDR LEN DATA`.
pub(crate) fn add_message(line: &mut Line, names: &Names, msg: &Msg)
    requires room { array_vec_len line.old + 353 ≤ LINE_ROOM }

    ensures added { line.new.items ≡ line.old.items ++ message_text names.now msg.now }
    ensures long { array_vec_len line.new ≤ array_vec_len line.old + 353 }
{
    add(line, kind_word(msg.kind));
    add(line, b" ");
    add_id(line, names, msg);
    add(line, b" ");
    add_way(line, names, msg);
    add(line, b" ");
    add_load(line, msg);
}
