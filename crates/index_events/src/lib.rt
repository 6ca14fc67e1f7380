//! Lists of events of an index, with openings of its store again between them.
#![tactic(auto)]

mod events;
mod one_event;
mod reopening;
mod running;

pub use events::{Event, EventAnswer, EventsEnd};
pub use running::run_events;
