use part_kind::{LinkKind, Part};
use tick_law::Plan;

/// The machine that a file or a command describes.
#[derive(Drop)]
pub struct Machine {
    pub plan: Plan<Part, LinkKind>,
    /// How many programs its file names.
    pub programs: usize,
}
