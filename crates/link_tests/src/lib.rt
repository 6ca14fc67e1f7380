//! The tests of the crates that ask other servers, of the words that name these, and of patterns of
//! paths: responses as they come, questions over a dial in memory, command lines, and what is selected.
//! They use what is public alone, and no code stands on them.
#![tactic(auto)]

#[cfg(test)]
mod addresses;
#[cfg(test)]
mod asked;
#[cfg(test)]
mod order;
#[cfg(test)]
mod patterns;
#[cfg(test)]
mod responses;
#[cfg(test)]
mod searches;
#[cfg(test)]
mod words;
