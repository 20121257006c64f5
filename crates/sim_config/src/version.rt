ghost use Rattle.std.specs.Prelude.{◌≡◌};
ghost use Rattle.sim_config.specs.Keys.{version_of};

/// The version of a configuration, which says what keys there are.
#[derive(Clone, Copy)]
pub(crate) enum Version {
    /// A cache has one miss under way at a time.
    One,
    /// A cache has the key `misses`.
    Two,
}

impl Version {
    /// The version that a number of the key `version` stands for.
    pub(crate) fn of(number: u64) -> Self
        ensures { result ≡ version_of number }
    {
        if number == 1 {
            Version::One
        } else {
            Version::Two
        }
    }
}
