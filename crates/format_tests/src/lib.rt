//! Tests of the crates that read ELF files: numbers and texts in bytes, pictures, identities and
//! sections, rows, certificates, and the sample and generated files.
#![tactic(auto)]

#[cfg(test)]
mod certificates;
#[cfg(test)]
mod checked_pictures;
#[cfg(test)]
mod cursors;
#[cfg(test)]
mod forging;
#[cfg(test)]
mod identities;
#[cfg(test)]
mod pictures;
#[cfg(test)]
mod reading_on;
#[cfg(test)]
mod readings;
#[cfg(test)]
mod row_views;
#[cfg(test)]
mod samples;
