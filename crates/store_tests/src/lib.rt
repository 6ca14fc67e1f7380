//! Tests.
#![tactic(auto)]

#[cfg(test)]
mod events;
#[cfg(test)]
mod rig;
#[cfg(test)]
mod scans;
#[cfg(test)]
mod stopping;
#[cfg(test)]
mod stops;
#[cfg(test)]
mod stores;
