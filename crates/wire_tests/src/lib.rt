//! The tests of the crates that serve: streams and heads, routes, local answers, connections, doors
//! and counters. They use what is public alone, and no code stands on them.
#![tactic(auto)]

#[cfg(test)]
mod answers;
#[cfg(test)]
mod connections;
#[cfg(test)]
mod counters;
#[cfg(test)]
mod doors;
#[cfg(test)]
mod files;
#[cfg(test)]
mod routes;
#[cfg(test)]
mod wire;
