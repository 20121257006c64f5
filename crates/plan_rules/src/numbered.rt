ghost use Rattle.std.specs.Prelude.{◌≡◌, ◌<◌, ◌≤◌, map, length, position, Some, IfOk, IfSome, option_map, slice_get, slice_index_or, []};
ghost use Rattle.std.specs.List.{list_any};
ghost use Rattle.sim_config.specs.Tables.{AreKeys, LinkTable, RangeTable};
ghost use Rattle.plan_rules.specs.Numbers.{IsFew};
ghost use Rattle.plan_rules.specs.Text as spec;
ghost use Rattle.plan_rules.specs.Rules.{targets_at, ports_at, keys_of, link_of, is_port};

use crate::named::{map_no, part_no, program_no};
use crate::numbers::{all_targets, first_ports, link_ports};
use sim_base::{Name, OutOfMemory};
use sim_config::{PartKeys, PlanText, RangeText};
use std::alloc::Global;
use std::marker::Model;

/// A text beside the numbers that its names stand for: the parts that each range of each map leads to, the ports of each link,
/// and the first port of each part, with the number of all ports behind them. A name that is not there has no number.
#[derive(Drop)]
pub struct Numbered<'a> {
    text: &'a PlanText,
    targets: Vec<Vec<Vec<Option<usize>>>>,
    ports: Vec<Vec<Option<u32>>>,
    first_ports: Vec<u32>,
}

impl<'a> Model for Numbered<'a> {
    ghost use Rattle.std.specs.Prelude.{map};
    ghost use Rattle.sim_config.specs.Tables.{PlanTables};
    ghost use Rattle.plan_rules.specs.Numbers.{AreNumbers};

    ghost Value = { PlanTables };

    ghost view = { λ n. n.text.now };

    ghost invariant = { λ n. AreNumbers n.text.now (map (λ v. map (λ w. w.items) v.items) n.targets.items) (map (λ v. v.items) n.ports.items) n.first_ports.items };
}

/// Whether a port is in a list.
pub(crate) fn has_port(ports: &[Option<u32>], port: Option<u32>) -> bool
    ensures { result ≡ list_any (is_port port) ports.now }
{
    ports.iter().any(|other| is_port(port, *other))
}

fn is_port(a: Option<u32>, b: Option<u32>) -> bool
    ensures { result ≡ is_port a b }
{
    match (a, b) {
        (Some(a), Some(b)) => a == b,
        _ => false,
    }
}

fn is_among(port: u32, ports: &Vec<Option<u32>>) -> bool
    ensures { result ≡ list_any (is_port (Some port)) ports.now.items }
{
    has_port(ports, Some(port))
}

fn place_among(lists: &[Vec<Option<u32>>], port: u32) -> Option<usize>
    ensures value { result ≡ position (λ v. list_any (is_port (Some port)) v.items) lists.now }
    ensures within { IfSome result (λ l. l < length lists.now) }
{
    lists.iter().position(|ports| is_among(port, ports))
}

/// The first list that has a port.
fn first_with(lists: &[Vec<Option<u32>>], port: u32) -> Option<usize>
    ensures value { result ≡ position (list_any (is_port (Some port))) (map (λ v. v.items) lists.now) }
    ensures within { IfSome result (λ l. l < length lists.now) }
{
    place_among(lists, port)
}

impl<'a> Numbered<'a> {
    /// The numbers of a text that has no more tables than a plan.
    pub(crate) fn open(alloc: Global, text: &'a PlanText) -> Result<Numbered<'a>, OutOfMemory>
        requires { IsFew text.now }
        ensures { IfOk result (λ n. n ≡ text.now) }
    {
        let first_ports = first_ports(alloc, text)?;
        let ports = link_ports(alloc, text, &first_ports)?;
        let targets = all_targets(alloc, text)?;
        Ok(Numbered {
            text,
            targets,
            ports,
            first_ports,
        })
    }

    /// The text.
    pub fn text(&self) -> &'a PlanText
        ensures text { result.now ≡ self.now }
        ensures few { IsFew self.now }
    {
        self.text
    }

    /// The keys of a part, None where there is no such part.
    pub fn keys(&self, part: usize) -> Option<&'a PartKeys>
        ensures keys { option_map (λ k. k.now) result ≡ spec.keys_at self.now part }
        ensures known { IfSome result (λ k. AreKeys k.now) }
    {
        let text = self.text;
        let part = text.parts.items().get(part)?;
        Some(&part.kind)
    }

    /// The keys of the part that a name stands for.
    pub fn keys_of(&self, target: Option<usize>) -> Option<&'a PartKeys>
        ensures { option_map (λ k. k.now) result ≡ keys_of self.now target }
    {
        match target {
            Some(part) => self.keys(part),
            None => None,
        }
    }

    /// The number of the first part of a name.
    pub fn part_no(&self, name: &Name) -> Option<usize>
        ensures { result ≡ spec.part_no self.now name.now }
    {
        part_no(self.text, name)
    }

    /// The number of the first map of a name.
    pub fn map_no(&self, name: &Name) -> Option<usize>
        ensures { result ≡ spec.map_no self.now name.now }
    {
        map_no(self.text, name)
    }

    /// The ranges of a map, none where there is no such map.
    pub fn ranges(&self, map: usize) -> &'a [RangeText]
        ensures { result.now ≡ spec.ranges_at self.now map }
    {
        let text = self.text;
        match text.maps.items().get(map) {
            Some(map) => map.ranges.items(),
            None => &[],
        }
    }

    /// The ranges of the map of a name, none where there is no such map.
    pub fn ranges_by(&self, name: &Name) -> &'a [RangeText]
        ensures { result.now ≡ spec.ranges_by self.now name.now }
    {
        match map_no(self.text, name) {
            Some(map) => self.ranges(map),
            None => &[],
        }
    }

    /// The number of the first program of a core of this name.
    pub fn program_no(&self, core: &Name) -> Option<usize>
        ensures value { result ≡ spec.program_no self.now core.now }
        ensures within { IfSome result (λ p. p < length self.now.programs) }
    {
        program_no(self.text, core)
    }

    /// The parts that each range of a map leads to.
    pub fn map_targets(&self, no: usize) -> &[Vec<Option<usize>>]
        ensures { map (λ v. v.items) result.now ≡ slice_index_or (spec.all_targets self.now) no [] }
    {
        match self.targets.get(no) {
            Some(targets) => targets,
            None => &[],
        }
    }

    fn targets_by(&self, no: usize, range: usize) -> &[Option<usize>]
        ensures { result.now ≡ targets_at self.now no range }
    {
        match self.map_targets(no).get(range) {
            Some(targets) => targets,
            None => &[],
        }
    }

    /// The parts that a range of a map leads to.
    pub fn targets(&self, no: usize, range: usize) -> &[Option<usize>]
        ensures targets { result.now ≡ targets_at self.now no range }
        ensures of_range { (table : RangeTable) → slice_get (spec.ranges_at self.now no) range ≡ Some table
            → result.now ≡ spec.range_targets self.now table }
    {
        self.targets_by(no, range)
    }

    fn ports_by(&self, link: usize) -> &[Option<u32>]
        ensures { result.now ≡ ports_at self.now link }
    {
        match self.ports.get(link) {
            Some(ports) => ports,
            None => &[],
        }
    }

    /// The ports of a link.
    pub fn ports(&self, link: usize) -> &[Option<u32>]
        ensures ports { result.now ≡ ports_at self.now link }
        ensures of_link { (table : LinkTable) → slice_get self.now.links link ≡ Some table
            → result.now ≡ spec.port_numbers self.now table }
    {
        self.ports_by(link)
    }

    /// The ports of all links.
    pub fn link_ports(&self) -> &[Vec<Option<u32>>]
        ensures { map (λ v. v.items) result.now ≡ spec.link_ports self.now }
    {
        &self.ports
    }

    /// The number of a part's first port, and that of all ports where there is no such part.
    #[tactic(auto, unfolding(crate::specs::Text::first_port))]
    pub fn first_port(&self, part: usize) -> u32
        ensures value { result ≡ spec.first_port self.now part }
        ensures few { result ≤ 1024 }
    {
        let text = self.text;
        self.first_ports[part.min(text.parts.items().len())]
    }

    /// The first link that names a port.
    #[tactic(auto, unfolding(crate::specs::Rules::link_of))]
    pub fn link_of(&self, port: u32) -> Option<usize>
        ensures value { result ≡ link_of self.now port }
        ensures within { IfSome result (λ l. l < length self.now.links) }
    {
        first_with(&self.ports, port)
    }
}
