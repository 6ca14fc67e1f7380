//! Pictures of files: the size of a file, and those of its bytes that are known, each at its place.
//! How they are read, and what they mean, is left out.
#![tactic(auto)]

mod count;
mod difference;
mod joins;
mod picture;
mod piece;
mod places;
mod view;

pub use count::{known_with, known_with_all};
pub use difference::Difference;
pub use picture::Picture;
pub use view::{Need, View};
