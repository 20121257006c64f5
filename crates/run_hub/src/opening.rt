ghost use Rattle.std.specs.Prelude.{None, true};

use std::marker::Brand;

/// What a hub's trace was when the hub was opened, which exists in proofs alone: what its sink had told, how many faults the sink had
/// had, and whether all records have lines.
pub trait Opening {
    ghost use Rattle.std.specs.Prelude.{ℕ, List, Option, Bool};

    ghost told: { Option (List ℕ) };

    ghost faults: { ℕ };

    ghost all: { Bool };
}

impl Opening for Brand {
    ghost told = { None };

    ghost faults = { 0 };

    ghost all = { true };
}
