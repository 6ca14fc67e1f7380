//! One pass over the folders of a scan: the walk, the reading of what is new, and the dropping of
//! what is gone. What an index does with a row or a name stands in the crates below.
#![tactic(auto)]

mod beside;
mod coordinate;
mod crew;
mod helper;
mod holds;
mod last_hold;
mod leading;
mod look_for;
mod owned;
mod parts;
mod pass_end;
mod read_new;
mod scope;
mod settling;
mod shared;
mod shared_pass;
mod summary;

pub use owned::scan_state;
pub use pass_end::PassEnd;
pub use settling::settle;
pub use shared_pass::run_pass;
pub use summary::Summary;
