//! Threads over one lock: each takes a token and a place of its own, and all come back.
#![tactic(auto)]

mod crew;

pub use crew::{Slot, rooms, seats_in, seats_out};
