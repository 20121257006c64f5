//! Tests of what no clause says: worked rows, vectors from outside, and calls that need memory. They stand in a crate of their own
//! so that the gate proves no crate twice and builds one program of tests.
#![tactic(auto)]

#[cfg(test)]
mod addresses;
#[cfg(test)]
mod assembled_words;
#[cfg(test)]
mod cache_steps;
#[cfg(test)]
mod computed_words;
#[cfg(test)]
mod config_size;
#[cfg(test)]
mod core_programs;
#[cfg(test)]
mod counted_runs;
#[cfg(test)]
mod direct_steps;
#[cfg(test)]
mod elf_files;
#[cfg(test)]
mod heap_scan;
#[cfg(test)]
mod http_heads;
#[cfg(test)]
mod immediates;
#[cfg(test)]
mod kinds;
#[cfg(test)]
mod loads;
#[cfg(test)]
mod mem_file_reads;
#[cfg(test)]
mod mem_sink_writes;
#[cfg(test)]
mod open_tasks;
#[cfg(test)]
mod planned_ports;
#[cfg(test)]
mod port_order;
#[cfg(test)]
mod record_list;
#[cfg(test)]
mod relay_steps;
#[cfg(test)]
mod row_places;
#[cfg(test)]
mod storm;
#[cfg(test)]
mod stream_writes;
#[cfg(test)]
mod trace_lines;
#[cfg(test)]
mod world_ports;
