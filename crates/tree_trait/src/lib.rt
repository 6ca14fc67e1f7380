//! The tree of files that a scan reads: the trait that stands for it, what it answers, and a form
//! in memory that answers by a script; the trait that stands for what reads a file; the trait that
//! stands for who may hold a thread at a point; and the trait that stands for the time between
//! passes, with a form in memory. The real tree and the real clock stand in `dbgd_edges`.
#![tactic(auto)]

mod answer;
mod clock;
mod dir;
mod entry;
mod filling;
mod folder;
mod found;
mod gate;
mod heard;
mod mem_clock;
mod mem_tree;
mod opened;
mod opening;
mod reader;
mod script;
mod stage;
mod stat;
mod swaps;
mod tree;
mod turn_gate;
mod two_world;

pub use answer::LoadAnswer;
pub use clock::{Clock, Waited, Wake};
pub use dir::DirAnswer;
pub use entry::{Entry, EntryKind, is_entry_name};
pub use filling::{FillAnswer, fill};
pub use found::Found;
pub use gate::{Gate, NoGate, Point};
pub use mem_clock::MemClock;
pub use mem_tree::MemTree;
pub use opened::Opened;
pub use opening::{OpenAnswer, RoomAnswer};
pub use reader::{Reader, ViewAnswer};
pub use script::Script;
pub use stat::StatAnswer;
pub use tree::Tree;
pub use turn_gate::{Hold, TurnGate};
pub use two_world::TwoWorld;
