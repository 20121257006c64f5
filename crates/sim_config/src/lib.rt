//! Reading configurations: from the bytes of a file to the plan that it writes, or the first rule that it breaks.
//!
//! [`read_config`] is the one call. What it answers has each number within its range and each default filled in, in the order of
//! the file. Names are taken as they stand: whether there is a part, a map or a port of that name is not asked here.
//!
//! ```
//! let text = "version = 1\npart = [{name = 'r0', kind = 'relay', period = 1000, to = 'r0', start = 2}]";
//! match read_config(rt.alloc(), text.as_bytes()) {
//!     Ok(plan) => {
//!         for part in plan.parts.items() {
//!             // prints `r0 has a period of 1000 ps`
//!             println!(rt; "{:?} has a period of {} ps", part.name, part.period)?;
//!         }
//!     }
//!     // prints, of an empty file, `missing top version`
//!     Err(fault) => println!(rt; "{fault}")?,
//! }
//! ```
#![tactic(auto)]

mod element;
mod fault;
mod keys;
mod kinds;
mod link_reader;
mod link_text;
mod list;
mod list_of;
mod map_reader;
mod map_text;
mod part_reader;
mod part_text;
mod plan_text;
mod program_reader;
mod program_text;
mod reader;
mod section;
mod table_reader;
mod values;
mod version;
mod word;
mod words;

pub use fault::{ConfigFault, ConfigRule, Key, TableNo};
pub use link_text::{LinkKeys, LinkText, PortRef};
pub use list_of::ListOf;
pub use map_text::{MapText, RangeText};
pub use part_text::{PartKeys, PartText};
pub use plan_text::PlanText;
pub use program_text::ProgramText;
pub use reader::{LONGEST_CONFIG, read_config};
