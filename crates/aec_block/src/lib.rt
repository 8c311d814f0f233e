//! Blocks of mapped values: prediction and mapping, the choice of the shortest option, and one
//! coded data set, written and read.
#![tactic(auto)]

mod block;
mod cds;
mod choice;
pub mod copies;
pub mod laws;
mod mapping;
mod reading;
mod shortest;
mod skipping;
mod writing;

pub use block::{Block, MOST_VALUES};
pub use cds::{Cds, Found, RunLen};
pub use choice::any_block::choose;
pub use choice::{Choice, Coding};
pub use mapping::mapped_blocks::{map_first, map_list};
pub use mapping::unmapping::unmap_into;
pub use mapping::{map, unmap};
pub use reading::runs::read_run;
pub use reading::single_sets::{is_single_next, read_single, read_single_first};
pub use reading::{read_cds, read_into};
pub use shortest::write_shortest_of;
pub use skipping::{skip_cds, skip_single};
pub use writing::{write_block, write_run};
