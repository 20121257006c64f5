ghost use Rattle.std.specs.Prelude.{◌≡◌, ◌++◌, OnOk};
ghost use Rattle.state_view.specs.RegsLine.{register_words, regs_line};

use crate::text::Text;
use rv_core::Core;
use sim_base::{Name, OutOfMemory};

/// How many registers a core has.
const REGISTERS: u8 = 32;

/// The words of all registers.
fn put_words(text: &mut Text, core: &Core) -> Result<(), OutOfMemory>
    ensures { OnOk result (text.new ≡ text.old ++ register_words core.now.regs 32) }
{
    for no in 0..REGISTERS {
        text.put(b" ")?;
        text.hex(&core.reg(no).to_be_bytes())?;
    }
    Ok(())
}

/// The line of a core's registers.
pub fn put_regs(text: &mut Text, name: &Name, core: &Core) -> Result<(), OutOfMemory>
    ensures { OnOk result (text.new ≡ text.old ++ regs_line name.now core.now) }
{
    text.put(b"regs ")?;
    text.put(name.text())?;
    put_words(text, core)?;
    text.put(b"\n")
}
