//! What no clause says: that memory suffices, and what becomes of rows.

mod cases;
mod helpers;
mod orders;
