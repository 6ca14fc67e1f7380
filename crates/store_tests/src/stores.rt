//! What no clause says: that memory suffices, and which rows come back.

mod file;
mod left;
mod refusals;
mod rows;
mod second;
