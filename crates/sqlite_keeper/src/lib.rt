//! The store in a file: rows that are kept by the SQL of `sqlite`, and what its answers mean for a
//! keeper. What the bytes of a row are is said elsewhere. The tables of a database in memory are
//! told.
#![tactic(auto)]

mod adopt;
mod disk_keeper;
mod fault;
mod file_keeper;
mod file_store;
mod held_store;
mod keeper;
mod rows;
mod schema;
mod sql;
mod telling;

pub use adopt::AdoptAnswer;
pub use file_keeper::FileKeeper;
pub use file_store::SqliteStore;
pub use held_store::HeldStore;
pub use keeper::SqliteKeeper;
pub use telling::Telling;
