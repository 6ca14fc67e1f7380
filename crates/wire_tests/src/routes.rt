//! What no clause says: that memory suffices, and what targets say that are known from elsewhere.

mod printed;
mod said;
