//! What no clause says: that memory suffices, that what threads count adds up, and the pages.

pub mod expected;
mod pages;
pub mod shares;
mod threads;
