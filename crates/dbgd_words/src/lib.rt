//! The words of a command line: what they ask, and the help of the commands whose words are options.
//! Nothing is looked at but the words.
#![tactic(auto)]

mod arguments;
mod find;
mod line;
mod number;
mod patterns;
mod program;
mod query;
mod reading;
mod refusal;
mod roots;
mod scan;
mod serve;
mod trial;
mod upstream;

pub use line::{FindLine, Line, ScanLine, ServeLine};
pub use patterns::Patterns;
pub use reading::read_line;
