//! HTTP/1.1 as bytes on a stream: the streams that bytes go through, the doors through which they
//! come, the heads of requests, and the exact bytes of replies (RFC 9112). Nothing here knows what a
//! target means or picks a status.
#![tactic(auto)]

mod door;
mod fields;
mod find;
mod head;
mod limits;
mod look;
mod mem_calls;
mod mem_conn;
mod mem_door;
mod mem_sink;
mod reader;
mod reply;
mod reply_lines;
mod room;
mod sink;
mod source;
mod stream;

pub use door::{Door, DoorAnswer, DoorSaid};
pub use fields::Said;
pub use head::{Head, HeadAnswer, HeadFault};
pub use limits::{FIELD_LIMIT, HEAD_LIMIT};
pub use look::{Found, Look, look_at};
pub use mem_calls::MemCall;
pub use mem_conn::MemConn;
pub use mem_door::{MemDoor, MemDoorCall};
pub use mem_sink::MemSink;
pub use reader::HeadReader;
pub use reply::{ReplyFault, ReplyHead, write_head, write_reply};
pub use room::Room;
pub use sink::{Sink, WriteAnswer, WriteFault, write_all, write_both};
pub use source::{ReadAnswer, Source};
pub use stream::Stream;
