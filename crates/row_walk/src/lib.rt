//! A walk over the rows of an index in short holds: what is kept of the rows up to the place that was
//! reached, mended by the changes of the log.
#![tactic(auto)]

mod found;
mod holds;
mod kept;
mod looked;
mod place;
mod walk;
mod wants;

pub use found::Found;
pub use holds::walk_all;
pub use looked::{Look, Looked, MOST_CHANGES, MOST_ROWS};
pub use place::Place;
pub use walk::RowWalk;
pub use wants::Wants;
