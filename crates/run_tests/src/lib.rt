//! Tests of the runs of the commands.
#![tactic(auto)]

#[cfg(test)]
mod runs;
