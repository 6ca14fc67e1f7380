//! The work of one thread on a pass: it takes names from an index behind its lock, opens their files
//! and reads the parts that their rows rest on while the lock is free, and hands in the rows.
//! Beginning a pass, and deciding how it ended, stand in other crates.
#![tactic(auto)]

mod parts;
mod read;
mod tally;
mod turn;
mod worker;

pub use read::{NameRead, read_name};
pub use tally::WorkReport;
pub use worker::work;
