//! A table of counters that threads share, a row for each thread, and the text of the metrics page.
//! It decides nothing about what is worth counting, and knows no reply and no index.
#![tactic(auto)]

mod book;
mod count;
mod counting;
mod distinct;
mod number;
mod page;
mod plays;
mod share;
mod totals;
mod view;

pub use book::{Book, MOST_ROWS};
pub use count::{Count, Counted};
pub use number::{NUMBERS, Number, RouteName, STATUSES};
pub use share::{Drawn, Share, ShareSplit};
pub use view::Load;
