ghost use Rattle.std.specs.Prelude.{◌≡◌, ◌*◌, ◌≤◌, length, flat_map, IfOk};
ghost use Rattle.std.specs.Int.{w32, to_le_bytes};
ghost use Rattle.plan_check.specs.Programs.{word_bytes};

use sim_base::OutOfMemory;
use std::alloc::Global;

/// The words, the lowest byte of each first.
fn spelled_words(alloc: Global, words: &[u32]) -> Result<Vec<u8>, OutOfMemory>
    ensures bytes { IfOk result (λ v. v.items ≡ flat_map (to_le_bytes w32) words.now) }
    ensures count { IfOk result (λ v. length v.items ≡ 4 * length words.now) }
{
    let mut bytes = Vec::new(alloc);
    for word in words {
        bytes.extend_from_slice(&word.to_le_bytes())?;
    }
    Ok(bytes)
}

/// So many bytes: the words, and zeros behind them.
#[tactic(auto, unfolding(crate::specs::Programs::word_bytes))]
pub(crate) fn word_bytes(alloc: Global, size: u32, words: &[u32]) -> Result<Vec<u8>, OutOfMemory>
    requires { 4 * length words.now ≤ size }

    ensures bytes { IfOk result (λ v. v.items ≡ word_bytes size words.now) }
    ensures count { IfOk result (λ v. length v.items ≡ size) }
{
    let mut bytes = spelled_words(alloc, words)?;
    bytes.resize(size as usize, 0)?;
    Ok(bytes)
}
