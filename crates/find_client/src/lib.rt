//! A client with a cache: what a route asks for is looked for in the cache, and then asked of links. What
//! a cache holds counts only where it passes, as a link's answer does.
#![tactic(auto)]

mod cache;
mod given;
mod look;
mod mem_cache;
mod searching;

pub use cache::{Cache, CacheAnswer, CachePut, VALUE_LIMIT};
pub use mem_cache::{CacheCall, MemCache};
pub use searching::{FindEnd, find};
