//! What no clause says: that memory suffices, and what settlings and passes come to.

mod beside;
mod cases;
mod ends;
mod missed;
mod passes;
mod selected;
mod shared;
mod tokens;
mod whole;
