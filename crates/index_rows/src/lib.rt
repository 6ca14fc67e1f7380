//! The rows of an index: one for each path, in path order, each true in its world, with the log of
//! the changes that made them. Which rows an index is to have is decided above.
#![tactic(auto)]

mod change;
mod fault;
mod merge;
mod prepared;
mod row_iter;
mod row_map;
mod rows;
mod shelf;
mod table;
mod tallies;
mod tally;

pub use change::Change;
pub use fault::RowsFault;
pub use prepared::Prepared;
pub use row_iter::RowIter;
pub use rows::{LOG_LIMIT, Rows};
