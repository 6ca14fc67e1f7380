//! Looking for the files of rows that are no longer listed, beside other threads: names are taken
//! from a shared index, looked for while its lock is free, and handed in. Which names these are,
//! and when a row goes, stand in the crates below.
#![tactic(auto)]

mod grooming;
mod looking;
mod report;

pub use grooming::groom;
pub use looking::{Looked, look};
pub use report::GroomReport;
