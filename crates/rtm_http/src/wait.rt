ghost use Rattle.std.specs.Prelude.{◌≡◌, ◌≤◌, ◌↔◌, ℕ, None, IfSome, IsTrue};
ghost use Rattle.std.specs.Fmt.{decimal};
ghost use Rattle.rtm_http.specs.Route.{IsTime, IsWait};

use crate::call::{Call, Routed};
use crate::number::short_number;
use itoa::Buffer;
use sim_base::Time;

/// The latest time that a request may wait for, in picoseconds.
const LATEST_WAIT: u64 = 500_000_000_000;

/// Whether the text is this number in decimal digits, without a leading zero.
fn is_decimal(text: &[u8], number: u64) -> bool
    ensures { IsTrue result ↔ (text.now ≡ decimal number) }
{
    Buffer::new().format(number).as_bytes() == text
}

/// The time that the text is: from 0 to 500000000000 picoseconds, in decimal digits without a sign or a leading zero.
fn read_time(text: &[u8]) -> Option<u64>
    ensures some { IfSome result (λ time. IsTime text.now time) }
    ensures none { result ≡ None → (time : ℕ) → ¬ (IsTime text.now time) }
{
    let time = short_number(text)?;
    if time <= LATEST_WAIT && is_decimal(text, time) {
        Some(time)
    } else {
        None
    }
}

/// What a request to wait for the time in this segment is answered.
pub(crate) fn wait_for(segment: &[u8]) -> Routed
    ensures { IsWait segment.now result }
{
    match read_time(segment) {
        Some(time) => Routed::Call(Call::Wait(Time(time))),
        None => Routed::BadNumber,
    }
}
