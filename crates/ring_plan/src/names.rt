ghost use Rattle.std.specs.Prelude.{◌≡◌, [], ◌∷◌, IfOk, codes, map};
ghost use Rattle.ring_plan.specs.Ring.{relay_name, relay_fields, up_to};

use sim_base::{Name, OutOfMemory};
use std::alloc::Global;

/// A name that is known to be one, or want of memory, which does not come for another reason.
fn known_name(text: &[u8]) -> Result<Name, OutOfMemory>
    ensures { IfOk result (λ name. name ≡ text.now) }
{
    Name::read(text).ok_or(OutOfMemory)
}

fn relay_name(alloc: Global, no: u32) -> Result<Name, OutOfMemory>
    ensures { IfOk result (λ name. name ≡ relay_name no) }
{
    let text = format!(in alloc; "r{no}")?;
    known_name(text.as_bytes())
}

/// The names of so many relays.
pub fn relay_names(alloc: Global, count: u32) -> Result<Vec<Name>, OutOfMemory>
    ensures { IfOk result (λ v. v.items ≡ map relay_name (up_to count)) }
{
    let mut names = Vec::with_capacity(alloc, count as usize)?;
    for no in 0..count {
        names.push(relay_name(alloc, no)?)?;
    }
    Ok(names)
}

/// The name of the link.
pub fn link_names(alloc: Global) -> Result<Vec<Name>, OutOfMemory>
    ensures { IfOk result (λ v. v.items ≡ codes "net" ∷ []) }
{
    let mut names = Vec::with_capacity(alloc, 1)?;
    names.push(known_name(b"net")?)?;
    Ok(names)
}

fn field_names(alloc: Global) -> Result<Vec<Name>, OutOfMemory>
    ensures { IfOk result (λ v. v.items ≡ relay_fields) }
{
    let mut names = Vec::with_capacity(alloc, 3)?;
    names.push(known_name(b"ended")?)?;
    names.push(known_name(b"holds")?)?;
    names.push(known_name(b"sent")?)?;
    Ok(names)
}

/// The names of the fields of so many relays.
pub fn relay_fields(alloc: Global, count: u32) -> Result<Vec<Vec<Name>>, OutOfMemory>
    ensures { IfOk result (λ v. map (λ f. f.items) v.items ≡ map (λ i. relay_fields) (up_to count)) }
{
    let mut fields = Vec::with_capacity(alloc, count as usize)?;
    for _ in 0..count {
        fields.push(field_names(alloc)?)?;
    }
    Ok(fields)
}

/// The word of a relay's port.
pub fn port_word() -> Result<Name, OutOfMemory>
    ensures { IfOk result (λ name. name ≡ codes "io") }
{
    known_name(b"io")
}
