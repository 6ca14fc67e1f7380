//! The local answer to a route: the files that may answer it are picked from the rows of a shared
//! index, opened in order outside the lock, and checked by the ranges of them on which the answer
//! rests; a source is loaded whole. Reading requests, asking other servers and writing replies stand
//! in other crates.
#![tactic(auto)]

mod attempt;
mod attempts;
mod candidate;
mod fitting;
mod given;
mod local;
mod look_up;

pub use candidate::Candidate;
pub use local::{Local, answer_local};
