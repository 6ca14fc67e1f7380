//! What no clause says: that memory suffices, and what an index answers, call by call.

mod events;
mod helpers;
mod marks;
mod opens;
mod orders;
mod told;
