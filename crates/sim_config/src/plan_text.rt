use crate::link_text::LinkText;
use crate::list_of::ListOf;
use crate::map_text::MapText;
use crate::part_text::PartText;
use crate::program_text::ProgramText;
use sim_base::Time;
use std::marker::Model;

/// What a configuration writes: the machine, its programs, and how long it runs. Each list is in the order of the file.
#[derive(Clone, Debug, PartialEq, Eq, Drop)]
pub struct PlanText {
    /// The greatest time that runs, 0 to 500,000,000,000 ps.
    pub until: Time,
    pub maps: ListOf<MapText>,
    pub parts: ListOf<PartText>,
    pub links: ListOf<LinkText>,
    pub programs: ListOf<ProgramText>,
}

impl Model for PlanText {
    ghost use Rattle.sim_config.specs.Tables.{PlanTables, IsPlan};

    ghost Value = { PlanTables };

    ghost view = { λ p. record { until = p.until; maps = p.maps; parts = p.parts; links = p.links; programs = p.programs } };

    ghost inverse = { λ p. record { until = p.until; maps = p.maps; parts = p.parts; links = p.links; programs = p.programs } };

    ghost invariant = { λ p. IsPlan (record { until = p.until; maps = p.maps; parts = p.parts; links = p.links; programs = p.programs }) };
}
