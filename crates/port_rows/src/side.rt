/// One of the two sides of a world: its parts, or its links.
#[derive(Clone, Copy, Debug, PartialEq, Eq)]
pub enum SideOf {
    Parts,
    Links,
}
