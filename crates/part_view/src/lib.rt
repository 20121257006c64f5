//! The bodies that answer queries about a world: compact JSON with its keys in byte order.
#![tactic(auto)]

mod bodies;
mod entries;
mod fields;
mod label;
mod lists;
mod part_viewer;
mod shown;
mod word;

pub use part_viewer::PartViewer;
