//! HTTP/1.1 to another server, as bytes on a stream: what its response is and the reader of one, the exact
//! bytes of a request, and what connects (RFC 9112). Nothing here knows what is asked, or whether an answer
//! passes.
#![tactic(auto)]

mod chunked;
mod data;
mod dial;
mod dial_conn;
mod exchange;
mod fault;
mod framing;
mod head;
mod limits;
mod lines;
mod mem_dial;
mod numbers;
mod question;
mod response;
mod to_end;
mod trailers;
mod waiting;

pub use dial::{Dial, DialAnswer};
pub use dial_conn::DialConn;
pub use exchange::{Answer, ask_over};
pub use fault::ResponseFault;
pub use framing::Framing;
pub use limits::BODY_LIMIT;
pub use mem_dial::{AskedHost, MemDial};
pub use question::request;
pub use response::{Response, read_response};
