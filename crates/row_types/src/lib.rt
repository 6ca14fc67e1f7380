//! What a scan keeps and what is true of it: build-ids, stamps, identities, worlds, and the words on
//! faults that every trait of the outside shares. Reading files and spelling rows in bytes stand in the
//! crates above.
#![tactic(auto)]

mod build_id;
mod faults;
mod identity;
mod limits;
mod name;
mod path;
mod reading;
mod row;
mod sources;
mod stamp;
mod true_row;
mod world;

pub use build_id::{BuildId, LONGEST_ID, SHORTEST_ID};
pub use faults::Faults;
pub use file_formats::Why;
pub use identity::{Ident, Kind};
pub use limits::{EDITION, FILE_LIMIT, PATH_LIMIT, READ_LIMIT, SEPARATOR};
pub use name::Name;
pub use path::{CanonPath, is_canonical};
pub use reading::Reading;
pub use row::Row;
pub use sources::Sources;
pub use stamp::{NANOS_PER_SECOND, Stamp};
pub use true_row::TrueRow;
pub use world::{OpenWorld, Truth};
