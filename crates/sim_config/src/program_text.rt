use sim_base::{Body, Name};
use std::marker::Model;

/// The program of a core.
#[derive(Clone, Debug, PartialEq, Eq, Drop)]
pub struct ProgramText {
    /// The name of the core.
    pub core: Name,
    /// The name of the program's file as it stands: not empty, and UTF-8.
    pub file: Body,
}

impl Model for ProgramText {
    ghost use Rattle.sim_config.specs.Tables.{ProgramTable, IsProgram};

    ghost Value = { ProgramTable };

    ghost view = { λ p. record { core = p.core; file = p.file } };

    ghost inverse = { λ p. record { core = p.core; file = p.file } };

    ghost invariant = { λ p. IsProgram (record { core = p.core; file = p.file }) };
}
