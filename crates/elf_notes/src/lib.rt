//! The notes of a section and the first build-id among them. ELF gABI, "Note Section" of chapter 5.
//! Which sections hold notes is left to the caller.
#![tactic(auto)]

mod notes;

pub use notes::first_build_id;
