ghost use Rattle.model_rows.specs.MissRows.{OneAtATime, TwoAtOnce};

/// Two agents that read through a cache of one miss: how their run ends, and with what in the cache's lines.
pub fn one_at_a_time()
    ensures run { OneAtATime }
{}

/// The same agents with a cache of two misses: how their run ends, and with what in the cache's lines.
pub fn two_at_once()
    ensures run { TwoAtOnce }
{}
