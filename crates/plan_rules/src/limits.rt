/// The most maps of a plan.
pub const MOST_MAPS: u32 = 64;

/// The most parts of a plan.
pub const MOST_PARTS: u32 = 256;

/// The most links of a plan.
pub const MOST_LINKS: u32 = 64;

/// The most programs of a plan.
pub const MOST_PROGRAMS: u32 = 256;

/// The most ports of a plan.
pub const MOST_PORTS: u32 = 1024;

/// The most bytes of all memories of a plan.
pub const MOST_MEMORY: u64 = 268_435_456;
