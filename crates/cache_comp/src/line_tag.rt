ghost use Rattle.std.specs.Prelude.{◌≡◌};
ghost use Rattle.cache_comp.specs.Lines.{unused, holds, is_dirty, is_free, is_vacant, is_least, lesser, invalid_tag, came_tag};

/// What a cache keeps of a line beside its bytes.
#[derive(Clone, Copy)]
pub struct LineTag {
    /// It holds a line of a memory.
    pub valid: bool,
    /// Its bytes were written since they came.
    pub dirty: bool,
    /// Its place is kept for a line that is on its way.
    pub reserved: bool,
    /// The address of the line.
    pub tag: u32,
    /// The later it was used, the greater.
    pub used: u64,
}

impl LineTag {
    /// A line before its first use.
    pub fn unused() -> LineTag
        ensures { result ≡ unused }
    {
        LineTag {
            valid: false,
            dirty: false,
            reserved: false,
            tag: 0,
            used: 0,
        }
    }

    /// Whether it holds the line of this address.
    pub fn holds(&self, line: u32) -> bool
        ensures { result ≡ holds line self.now }
    {
        self.valid && self.tag == line
    }

    /// Whether its bytes are to be written down before another line takes its place.
    pub fn is_dirty(&self) -> bool
        ensures { result ≡ is_dirty self.now }
    {
        self.valid && self.dirty
    }

    /// Whether its place is not kept for a line that is on its way.
    pub fn is_free(&self) -> bool
        ensures { result ≡ is_free self.now }
    {
        !self.reserved
    }

    /// Whether its place is free and holds no line.
    pub fn is_vacant(&self) -> bool
        ensures { result ≡ is_vacant self.now }
    {
        self.is_free() && !self.valid
    }

    /// Whether its place is free and its use number is this one.
    pub fn is_least(&self, least: u64) -> bool
        ensures { result ≡ is_least least self.now }
    {
        self.is_free() && self.used == least
    }

    /// The lesser of a use number and its own, where its place is free.
    pub fn lesser(&self, least: u64) -> u64
        ensures { result ≡ lesser least self.now }
    {
        if self.is_free() {
            least.min(self.used)
        } else {
            least
        }
    }

    /// The same without a line: it is clean, and keeps the rest.
    pub fn invalid(self) -> LineTag
        ensures { result ≡ invalid_tag self }
    {
        LineTag {
            valid: false,
            dirty: false,
            ..self
        }
    }

    /// The tag of a line that came to its place: it is valid and clean, and the place is no longer reserved.
    pub fn came(self, line: u32) -> LineTag
        ensures { result ≡ came_tag self line }
    {
        LineTag {
            valid: true,
            dirty: false,
            reserved: false,
            tag: line,
            ..self
        }
    }
}
