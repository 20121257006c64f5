/// How far a run is: at a boundary, in the pass of its parts or of its links, or over.
#[derive(Clone, Copy, Debug, PartialEq, Eq, Drop)]
pub enum Stage {
    Boundary,
    Primary,
    Secondary,
    Over,
}
