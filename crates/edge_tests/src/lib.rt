//! Tests of the real outside, over a disk, sockets and the system's time: no clause can speak of those.
#![tactic(auto)]

#[cfg(test)]
mod accepts;
#[cfg(test)]
mod ahead;
#[cfg(test)]
mod asking;
#[cfg(test)]
mod begun;
#[cfg(test)]
mod caches;
#[cfg(test)]
mod caches_refused;
#[cfg(test)]
mod caching;
#[cfg(test)]
mod changes;
#[cfg(test)]
mod clocks;
#[cfg(test)]
mod closed;
#[cfg(test)]
mod conns;
#[cfg(test)]
mod dials;
#[cfg(test)]
mod doors;
#[cfg(test)]
mod folders;
#[cfg(test)]
mod held;
#[cfg(test)]
mod late;
#[cfg(test)]
mod lobbies;
#[cfg(test)]
mod open_files;
#[cfg(test)]
mod paths;
#[cfg(test)]
mod refusals;
#[cfg(test)]
mod refusing;
#[cfg(test)]
mod sockets;
#[cfg(test)]
mod standing;
#[cfg(test)]
mod stays;
