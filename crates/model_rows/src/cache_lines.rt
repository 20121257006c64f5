ghost use Rattle.model_rows.specs.CacheRows.{PrintedCaches};

#[tactic(auto, using(crate::proofs::CacheRows::printed_caches))]
/// The lines of caches, to the byte.
pub fn printed_caches()
    ensures printed { PrintedCaches }
{}
