//! One connection: its requests, each with the reply that the rules name; and the connections of a
//! door, one after the other. A file is sent in pieces, each of which is compared with what was checked
//! of it. Heads are cut from the stream, routes are read, local answers are found and other servers
//! are asked in the crates below.
#![tactic(auto)]

mod body;
mod buffers;
mod connection;
mod counting;
mod decide;
mod door;
mod follow;
mod found_file;
mod lend;
mod method;
mod objects;
mod page;
mod pieces;
mod plan;
mod reason;
mod report;
mod send;
mod send_fault;
mod service;
mod turn;

pub use connection::{REQUESTS, serve_connection};
pub use door::{DoorEnd, serve_door};
pub use pieces::PIECE;
pub use reason::Reason;
pub use report::{Asked, BodyCause, ConnEnd, ConnReport, Served};
