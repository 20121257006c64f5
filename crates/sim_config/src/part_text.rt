use crate::list_of::ListOf;
use sim_base::{Mode, Name};
use std::marker::Model;

/// What a part has by its kind. Addresses and sizes are in bytes, and times in cycles of the part.
#[derive(Clone, Debug, PartialEq, Eq, Drop)]
pub enum PartKeys {
    /// A relay, which passes tokens on.
    Relay {
        /// The relay that it sends tokens to.
        to: Name,
        /// The hops of the token that it starts with, 1 to 1,000,000, or None where it starts with none.
        start: Option<u32>,
    },
    /// An agent, which makes requests of 4 bytes at addresses that it draws.
    Agent {
        /// The map that its requests go by.
        map: Name,
        /// The first address that it asks for: a multiple of 4.
        base: u32,
        /// How many bytes from there on it asks for: a multiple of 4 of at least 4. The last address is below 2^32.
        span: u64,
        /// How many requests it makes in all, 0 to 1,000,000.
        count: u32,
        /// The most of its requests that wait for an answer at a time, 1 to 64.
        window: u32,
        /// The least cycles from one request to the next, 1 to 1,000,000.
        gap: u32,
        /// The first cycle at which it may make a request, 0 to 1,000,000.
        start: u32,
        /// Whether its requests read, write, or do one or the other as the number that is drawn says.
        mode: Mode,
        /// The number that the first one is drawn after, each following one after the last. A number says which word a request is
        /// about, and is what a write stores there.
        draw: u32,
    },
    /// A memory, which answers reads and writes of its bytes.
    Memory {
        /// The address of its first byte: a multiple of 64.
        base: u32,
        /// A multiple of 64, 64 to 2^28. The last address is below 2^32.
        size: u32,
        /// The least cycles from taking a request to answering it, 1 to 1,000,000.
        latency: u32,
        /// The most requests that wait in it at a time, 1 to 64.
        depth: u32,
        /// What it starts with from `base` on, each in little-endian order; zeros follow. They fit into `size`.
        words: ListOf<u32>,
    },
    /// A cache, which keeps lines of what lies below it.
    Cache {
        /// The map that it reads and writes lines by.
        map: Name,
        /// The length of a line: 16, 32 or 64.
        line: u32,
        /// How many sets it has: a power of two, 1 to 1024.
        sets: u32,
        /// How many lines a set has, 1 to 16.
        ways: u32,
        /// How many misses can be under way at once, 1 to 8; 1 in version 1.
        misses: u32,
    },
    /// A core, which carries out a program.
    Core {
        /// The key `inst`: the map that instructions are fetched by.
        inst_map: Name,
        /// The key `data`: the map that loads and stores go by.
        data_map: Name,
        /// The address of the first instruction, where no program gives one.
        pc: u32,
    },
}

/// A part of the machine.
#[derive(Clone, Debug, PartialEq, Eq, Drop)]
pub struct PartText {
    pub name: Name,
    /// In picoseconds, 1 to 1,000,000,000.
    pub period: u64,
    /// How many messages each of the two lists of its ports has room for, 1 to 64.
    pub buffer: u32,
    /// Its kind, with what it has by that.
    pub kind: PartKeys,
}

impl Model for PartText {
    ghost use Rattle.sim_config.specs.Tables.{PartTable, IsPart};

    ghost Value = { PartTable };

    ghost view = { λ p. record { name = p.name; period = p.period; buffer = p.buffer; kind = p.kind } };

    ghost inverse = { λ p. record { name = p.name; period = p.period; buffer = p.buffer; kind = p.kind } };

    ghost invariant = { λ p. IsPart (record { name = p.name; period = p.period; buffer = p.buffer; kind = p.kind }) };
}
