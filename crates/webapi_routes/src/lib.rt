//! The routes of the web API: what a request's target asks, and the target of a route (RFC 3986).
//! Reading requests and answering them stand in the crates above.
#![tactic(auto)]

mod fault;
mod printing;
mod reading;
mod route;
mod section_name;
mod target;
mod written;

pub use fault::{RouteFault, SpellFault};
pub use printing::print;
pub use reading::parse;
pub use route::Route;
pub use section_name::SectionName;
pub use target::spelled;
