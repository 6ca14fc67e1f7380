//! Tests of trees in memory, of walks over them, and of the told world of the sample files.
#![tactic(auto)]

#[cfg(test)]
mod fills;
#[cfg(test)]
mod selected;
#[cfg(test)]
mod trees;
#[cfg(test)]
mod walks;
#[cfg(test)]
mod worlds;
