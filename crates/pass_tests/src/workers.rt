//! What no clause says: that memory suffices, what the reading of one name gives, call by call,
//! and what the work on an index comes to.

mod cases;
mod gates;
mod helpers;
mod reads;
mod reference;
