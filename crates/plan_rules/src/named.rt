//! Tables of a name.
ghost use Rattle.std.specs.Prelude.{◌≡◌, ◌<◌, ◌≤◌, length, take, bytes_eq, IfSome};
ghost use Rattle.plan_rules.specs.Text.{part_no, map_no, program_no};
ghost use Rattle.plan_rules.specs.Rules as rules;

use sim_base::Name;
use sim_config::{LinkText, MapText, PartText, PlanText, ProgramText};

/// The first so many parts, all where there are no more.
pub(crate) fn front(parts: &[PartText], count: usize) -> &[PartText]
    ensures front { result.now ≡ take count parts.now }
    ensures few { length result.now ≤ count }
{
    if count < parts.len() {
        &parts[..count]
    } else {
        parts
    }
}

/// Whether two names are the same.
pub(crate) fn is_same(a: &Name, b: &Name) -> bool
    ensures { result ≡ bytes_eq a.now b.now }
{
    a.text() == b.text()
}

/// Whether a text is the name.
pub(crate) fn is_same_text(text: &str, name: &Name) -> bool
    ensures { result ≡ bytes_eq text.now name.now }
{
    text.as_bytes() == name.text()
}

/// The number of the first part of a name.
pub(crate) fn part_no(text: &PlanText, name: &Name) -> Option<usize>
    ensures value { result ≡ part_no text.now name.now }
    ensures within { IfSome result (λ i. i < length text.now.parts) }
{
    text.parts
        .items()
        .iter()
        .position(|part| is_same(&part.name, name))
}

/// The number of the first map of a name.
pub(crate) fn map_no(text: &PlanText, name: &Name) -> Option<usize>
    ensures value { result ≡ map_no text.now name.now }
    ensures within { IfSome result (λ i. i < length text.now.maps) }
{
    text.maps
        .items()
        .iter()
        .position(|map| is_same(&map.name, name))
}

/// The number of the first program of a core of this name.
pub(crate) fn program_no(text: &PlanText, core: &Name) -> Option<usize>
    ensures value { result ≡ program_no text.now core.now }
    ensures within { IfSome result (λ p. p < length text.now.programs) }
{
    text.programs
        .items()
        .iter()
        .position(|program| is_same(&program.core, core))
}

pub(crate) fn has_part(parts: &[PartText], name: &Name) -> bool
    ensures { result ≡ rules.has_part parts.now name.now }
{
    parts.iter().any(|part| is_same(&part.name, name))
}

pub(crate) fn has_map(maps: &[MapText], name: &Name) -> bool
    ensures { result ≡ rules.has_map maps.now name.now }
{
    maps.iter().any(|map| is_same(&map.name, name))
}

pub(crate) fn has_link(links: &[LinkText], name: &Name) -> bool
    ensures { result ≡ rules.has_link links.now name.now }
{
    links.iter().any(|link| is_same(&link.name, name))
}

pub(crate) fn has_program(programs: &[ProgramText], core: &Name) -> bool
    ensures { result ≡ rules.has_program programs.now core.now }
{
    programs.iter().any(|program| is_same(&program.core, core))
}
