//! The tests of the crates that read what is asked of the pages of the index and write their texts. They use
//! what is public alone, and no code stands on them.
#![tactic(auto)]

#[cfg(test)]
mod globs;
#[cfg(test)]
mod queries;
#[cfg(test)]
mod texts;
