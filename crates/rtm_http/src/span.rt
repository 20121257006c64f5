ghost use Rattle.std.specs.Prelude.{◌≡◌, ◌≤◌, length, slice_range};

/// A part of the bytes that were read: from the place `begin` up to the place `end`, both counted from 0.
#[derive(Clone, Copy, Debug, PartialEq, Eq)]
pub struct Span {
    pub begin: u32,
    pub end: u32,
}

impl Span {
    /// The bytes that the span covers.
    pub fn of<'b>(&self, bytes: &'b [u8]) -> &'b [u8]
        requires ordered { self.now.begin ≤ self.now.end }
        requires within { self.now.end ≤ length bytes.now }
        ensures { result.now ≡ slice_range bytes.now self.now.begin self.now.end }
    {
        &bytes[self.begin as usize..self.end as usize]
    }
}
