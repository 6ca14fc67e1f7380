//! The tests of the index and of what it stands on: values, the lock, the keeper, rows, their
//! codec, the queue of a pass, the index's state, and walks over it. Each module has the tests of
//! one crate, by its public items alone.
#![tactic(auto)]

#[cfg(test)]
mod codecs;
#[cfg(test)]
mod keepers;
#[cfg(test)]
mod locks;
#[cfg(test)]
mod look_ups;
#[cfg(test)]
mod queues;
#[cfg(test)]
mod states;
#[cfg(test)]
mod values;
#[cfg(test)]
mod walks;
