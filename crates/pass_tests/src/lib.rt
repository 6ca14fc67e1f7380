//! The tests of a pass over an index, from the slots of its threads to the whole: what no clause of
//! `lock_crew`, `index_desk`, `scan_worker`, `groomer` and `pass_runner` says.
#![tactic(auto)]

#[cfg(test)]
mod crews;
#[cfg(test)]
mod desks;
#[cfg(test)]
mod grooming;
#[cfg(test)]
mod passes;
#[cfg(test)]
mod rig;
#[cfg(test)]
mod workers;
