//! Tests of the crates that read DWARF: forms, units, line tables, the source paths of a file's
//! debug sections, and canonical paths.
#![tactic(auto)]

#[cfg(test)]
mod canon;
#[cfg(test)]
mod forms;
#[cfg(test)]
mod line_tables;
#[cfg(test)]
mod sources;
#[cfg(test)]
mod units;
