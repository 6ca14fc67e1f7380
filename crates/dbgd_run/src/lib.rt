//! The top call of `dbgd` and the command that serves, over objects of the outside that are handed in.
//! Real files and streams stand in the program's own crate, the other commands in one below.
#![tactic(auto)]

mod beside;
mod crew;
mod demands;
mod door_crew;
mod find;
mod first_pass;
mod line_fate;
mod outside;
mod passes_end;
mod refusal;
mod rounds;
mod selecting;
mod serve;
mod serve_end;
mod serve_said;
mod server;
mod serving;
mod settings;
mod shares;
mod site;
mod threads;
mod wants;
mod worker;

pub use dbgd_commands::{Handed, Kinds, Of, Outside, ScanEnd, Staged, Status, say_end};
pub use demands::needs;
pub use elf_reading::ElfTruth;
pub use http_wire::{MemSink, Sink, Stream, WriteAnswer, WriteFault, write_all};
pub use line_fate::LineFate;
pub use outside::{run, run_local};
pub use passes_end::PassesEnd;
pub use rounds::keep_passing;
pub use wants::Needs;
