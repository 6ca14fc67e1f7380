//! A lock over one value that has a log, and the tokens by which threads take it. Every token sees
//! the log only grow: what one thread put into the value stands in each later view of any thread.
//! It knows nothing of what the value is.
#![tactic(auto)]

mod held;
mod lock;
mod logged;
mod plays;
mod seat;
mod view;

pub use held::Held;
pub use lock::TurnLock;
pub use logged::Logged;
pub use seat::{Seat, Split};
