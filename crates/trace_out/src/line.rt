ghost use Rattle.std.specs.Prelude.{◌≡◌, ℕ, ◌+◌, ◌*◌, ◌≤◌, ◌++◌, length, codes, decimal};
ghost use Rattle.hex.specs.Hex.{encode_lower};
ghost use Rattle.arrayvec.specs.ArrayVec.{array_vec_len};
ghost use Rattle.trace_out.specs.Lines.{name_text, spaced};

use arrayvec::ArrayVec;
use itoa::Buffer;
use sim_base::Name;

/// Room for every line of a trace: the longest has 413 bytes.
pub(crate) const LINE_ROOM: usize = 448;

/// The most data bytes of a message.
const DATA_BYTES: usize = 64;

/// A line as it is made. It takes no memory.
pub type Line = ArrayVec<u8, LINE_ROOM>;

/// Appends a piece, for which there is room.
pub fn add(line: &mut Line, piece: &[u8])
    requires room { array_vec_len line.old + length piece.now ≤ LINE_ROOM }

    ensures { line.new.items ≡ line.old.items ++ piece.now }
{
    let added = line.try_extend_from_slice(piece);
    prove!(added.is_ok());
}

/// Appends a number, in decimal digits.
pub(crate) fn add_number(line: &mut Line, number: u64)
    requires room { array_vec_len line.old + 20 ≤ LINE_ROOM }

    ensures added { line.new.items ≡ line.old.items ++ decimal number }
    ensures long { array_vec_len line.new ≤ array_vec_len line.old + 20 }
{
    let mut digits = Buffer::new();
    add(line, digits.format(number).as_bytes());
}

/// Appends bytes, each as two lower-case hexadecimal digits.
pub(crate) fn add_hex(line: &mut Line, bytes: &[u8])
    requires few { length bytes.now ≤ DATA_BYTES }
    requires room { array_vec_len line.old + 2 * length bytes.now ≤ LINE_ROOM }

    ensures added { line.new.items ≡ line.old.items ++ encode_lower bytes.now }
    ensures long { array_vec_len line.new ≡ array_vec_len line.old + 2 * length bytes.now }
{
    let mut digits = [0; 2 * DATA_BYTES];
    let digits = &mut digits[..2 * bytes.len()];
    let encoded = hex::encode_to_slice(bytes, digits);
    prove!(encoded.is_ok());
    add(line, digits);
}

/// Appends a name, or `?` where there is none.
pub(crate) fn add_name(line: &mut Line, name: Option<Name>)
    requires room { array_vec_len line.old + 32 ≤ LINE_ROOM }

    ensures added { line.new.items ≡ line.old.items ++ name_text name }
    ensures long { array_vec_len line.new ≤ array_vec_len line.old + 32 }
{
    match name {
        Some(name) => add(line, name.text()),
        None => add(line, b"?"),
    }
}
