ghost use Rattle.std.specs.Prelude.{◌≡◌, ◌+◌, ◌^◌, ◌≤◌, ◌++◌, ◌/◌, length, OnOk};
ghost use Rattle.state_view.specs.MemoryRows.{row_line, row_text, first_rows, before_rows, memory_rows};

use crate::text::Text;
use mem_ctrl::Memory;
use sim_base::{Name, OutOfMemory};
use tick_law::Actor;

/// How many bytes a row has. Its address is a multiple of it.
const ROW: usize = 16;

fn put_row(text: &mut Text, name: &Name, addr: u32, row: &[u8]) -> Result<(), OutOfMemory>
    requires { length row.now ≡ 16 }
    ensures { OnOk result (text.new ≡ text.old ++ row_line name.now addr row.now) }
{
    text.put(b"mem ")?;
    text.put(name.text())?;
    text.put(b" ")?;
    text.hex(&addr.to_be_bytes())?;
    text.put(b" ")?;
    text.hex(row)?;
    text.put(b"\n")
}

/// The line of a row, unless its bytes are all zero.
fn put_row_text(text: &mut Text, name: &Name, addr: u32, row: &[u8]) -> Result<(), OutOfMemory>
    requires { length row.now ≡ 16 }
    ensures { OnOk result (text.new ≡ text.old ++ row_text name.now addr row.now) }
{
    if row == [0; ROW].as_slice() {
        return Ok(());
    }
    put_row(text, name, addr, row)
}

/// The rows of these bytes, of which the first has this address.
fn put_rows(text: &mut Text, name: &Name, addr: u64, bytes: &[u8]) -> Result<(), OutOfMemory>
    requires { addr + length bytes.now ≤ 2 ^ 32 }
    ensures { OnOk result (text.new ≡ text.old ++ first_rows name.now addr bytes.now (length bytes.now / 16)) }
{
    let rows = bytes.len() / ROW;
    for no in 0..rows {
        let first = ROW * no;
        let row_addr = (addr + first as u64) as u32;
        put_row_text(text, name, row_addr, &bytes[first..first + ROW])?;
    }
    Ok(())
}

/// How many bytes stand before the first address that is a multiple of 16.
fn before_rows(base: u32) -> usize
    ensures { result ≡ before_rows base }
{
    (ROW - base as usize % ROW) % ROW
}

/// The rows of a memory, from its first address that is a multiple of 16.
pub fn put_memory_rows(text: &mut Text, name: &Name, memory: &Memory) -> Result<(), OutOfMemory>
    ensures { OnOk result (text.new ≡ text.old ++ memory_rows name.now memory.now.base memory.now.bytes) }
{
    memory.known();
    let bytes = memory.bytes();
    let before = before_rows(memory.base());
    if before > bytes.len() {
        return Ok(());
    }
    put_rows(
        text,
        name,
        u64::from(memory.base()) + before as u64,
        &bytes[before..],
    )
}
