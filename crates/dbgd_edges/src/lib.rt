//! The real outside: the files of this machine as a tree, a folder of them as a cache, the standard streams
//! as sinks, a listening socket and the connections that no worker holds as doors, dialled sockets, and the
//! time of the system. Each call is one of std, or of epoll, whose errors are counted.
#![tactic(auto)]

mod accept_fault;
mod ahead;
mod dial_fault;
mod dialled_conn;
mod doors;
mod entry_read;
mod entry_write;
mod file_load;
mod file_open;
mod folder_cache;
mod folder_read;
mod front;
mod hall;
mod hands;
mod keep_fault;
mod lead;
mod lobby;
mod lobby_conn;
mod lobby_door;
mod lobby_limits;
mod look;
mod moment;
mod outbox;
mod parked;
mod read_fault;
mod real_clock;
mod real_dial;
mod real_sink;
mod real_tree;
mod stream_call;
mod stream_fault;
mod tries;
mod waits;
mod wire;

pub use dialled_conn::DialledConn;
pub use doors::{every_ipv4, every_ipv6, listen, lobby_doors, real_doors};
pub use file_open::RealFile;
pub use folder_cache::FolderCache;
pub use hands::real_hands;
pub use lobby_conn::LobbyConn;
pub use lobby_door::LobbyDoor;
pub use lobby_limits::LobbyLimits;
pub use real_clock::RealClock;
pub use real_dial::RealDial;
pub use real_sink::{RealSink, StdStream};
pub use real_tree::RealTree;
