//! What no clause says: that memory suffices, and which routes are answered by which file.

mod helpers;
mod told;
