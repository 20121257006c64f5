ghost use Rattle.std.specs.Prelude.{◌≡◌, ◌+◌, ◌*◌, ◌^◌, ◌<◌, ◌≤◌};
ghost use Rattle.traffic_parts.specs.Draw.{value_after, address_of, writes};

use sim_base::Mode;

/// The value that is drawn after another.
pub(crate) fn value_after(value: u32) -> u32
    ensures { result ≡ value_after value }
{
    ((u64::from(value) * 1_664_525 + 1_013_904_223) % (1 << 32)) as u32
}

/// The address that a value says: one of the words of a span, in bytes.
pub(crate) fn address_of(base: u32, span: u64, value: u32) -> u32
    requires some { 4 ≤ span }
    requires within { base + span ≤ 2 ^ 32 }

    ensures { result ≡ address_of base span value }
{
    base + 4 * (value / 256 % (span / 4) as u32)
}

/// Whether the request is a write: in mixed mode where the sixteenth of the value is odd.
pub(crate) fn writes(mode: Mode, value: u32) -> bool
    ensures { result ≡ writes mode value }
{
    match mode {
        Mode::Read => false,
        Mode::Write => true,
        Mode::Mixed => value / 16 % 2 == 1,
    }
}
