//! What no clause says: that memory suffices, and the whole bytes of replies.

mod changed;
mod cut_heads;
mod cut_responses;
mod edges;
mod failing;
mod gates;
pub mod helpers;
mod metrics;
mod open;
mod pieces;
mod replies;
pub mod texts;
