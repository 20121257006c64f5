use sim_io::Sink;
use task_stats::Stats;
use trace_out::Names;

/// Where the lines of a run go, the names that they have, whether all records have lines or those of bytes that cores wrote alone,
/// and what was counted of requests.
#[derive(Drop)]
pub struct Trace<K: Sink + Drop> {
    pub sink: K,
    pub names: Names,
    pub all: bool,
    pub stats: Stats,
}
