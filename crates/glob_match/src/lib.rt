//! Glob patterns over characters: whether a whole text matches one. What the characters are read from, and
//! which patterns are taken, stand in the crates above.
#![tactic(auto)]

mod front;
mod last;
mod matching;

pub use matching::{ANY_CHARACTER, ANY_TEXT, is_glob_match};
