//! Upstream servers: what another server says is certified before it is given. Links that are asked in
//! order, the first of their answers that passes, and their addresses. Nothing here looks at the local index.
#![tactic(auto)]

mod address;
mod asking;
mod http_link;
mod judging;
mod link;
mod link_row;
mod mem_link;
mod one_link;

pub use address::{HTTP_PORT, UpstreamAt, read_address};
pub use asking::{HOP_LIMIT, Upstream, ask_all};
pub use http_link::HttpLink;
pub use link::{Link, LinkAnswer};
pub use mem_link::{LinkQuestion, MemLink};
