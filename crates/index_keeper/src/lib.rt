//! The store that rows are kept in, and the keeper that changes it: the traits that stand for them,
//! what they answer, and forms in memory that fail by a plan. What the bytes of a row are is said
//! below.
#![tactic(auto)]

mod answer;
mod edit;
mod keeper;
mod kept;
mod mem_keeper;
mod mem_store;
mod plan;
mod shelf;
mod store;
mod tables;

pub use answer::{KeepAnswer, KeptAnswer, StoreAnswer};
pub use keeper::Keeper;
pub use kept::Kept;
pub use mem_keeper::MemKeeper;
pub use mem_store::MemStore;
pub use store::Store;
