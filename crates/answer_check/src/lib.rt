//! Bytes that are known to be a file of a build-id and a class, pictures of which this is known of
//! each file that agrees, and bytes that pass as an answer to a route. Where they come from, and
//! whether there are more of them, is left to the caller.
#![tactic(auto)]

mod certified;
mod checked;
mod checked_section;
mod file_section;
mod passed;
mod passing;
mod view;

pub use certified::{Certified, CheckFault, certify};
pub use checked::{Checked, check_view};
pub use checked_section::CheckedSection;
pub use file_section::FileSection;
pub use passed::Passed;
pub use passing::{Checking, check};
pub use view::ViewFault;
