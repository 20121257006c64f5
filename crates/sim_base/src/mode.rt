/// The requests that a traffic agent makes.
#[derive(Clone, Copy, Debug, PartialEq, Eq)]
pub enum Mode {
    /// Reads alone.
    Read,
    /// Writes alone.
    Write,
    /// Reads and writes, as the drawn value says.
    Mixed,
}
