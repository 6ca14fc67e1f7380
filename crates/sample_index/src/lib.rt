//! Indexes on stores in memory, for the tests of the crates above: without rows, in a pass, with the
//! rows of the reference tree, and behind a lock with a token; and what work on them comes to, as
//! texts.
#![tactic(auto)]

mod index;
mod outcome;
mod reference;
mod shared;

pub use index::{Index, begin, empty_index, empty_store, opened, passing};
pub use outcome::{Outcome, missed_text, outcome_of};
pub use reference::{name_of, names_of, reference_index};
pub use shared::{Lock, Shared, Token, Unspared, cut, empty_shared, put_behind, taken};
