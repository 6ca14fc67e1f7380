//! An index behind its lock, with a token of it: each call is one hold of the lock, and one event of
//! the index. What is done between two holds, and how the work on a pass ends, stand in the crates
//! above; the ways in which it ends stand here, since the log shows them.
#![tactic(auto)]

mod desk;
mod ground;
mod held;
mod looks;
mod work_end;

pub use desk::Desk;
pub use ground::Ground;
pub use looks::look_once;
pub use work_end::WorkEnd;
