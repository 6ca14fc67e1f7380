//! The commands of `dbgd` that end by themselves, over objects of the outside that are handed in: what each
//! reads, says and ends with.
#![tactic(auto)]

mod handed;
mod ident;
mod kinds;
mod lent;
mod query;
mod query_end;
mod scan;
mod scan_end;
mod scan_sayings;
mod scan_texts;
mod section;
mod sources;
mod speech;
mod status;
mod texts;
mod trial;
mod trial_keeper;
mod trial_sum;
mod trial_text;

pub use handed::{Handed, Outside, Staged};
pub use ident::run_ident;
pub use kinds::{Kinds, Of};
pub use lent::{Others, lend, rejoin};
pub use query::run_query;
pub use scan::run_scan;
pub use scan_end::ScanEnd;
pub use scan_sayings::{say_end, say_pass, say_refusal};
pub use scan_texts::push_count;
pub use section::run_section;
pub use sources::run_sources;
pub use speech::{say, say_error, say_no_memory, tell, write_line};
pub use status::Status;
pub use trial::run_trial;
