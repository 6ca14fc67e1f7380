//! Sockets of this machine, and doors over them.

use dbgd_edges::{LobbyDoor, LobbyLimits, listen, lobby_doors};
use std::net::{Ipv4Addr, Net, SocketAddr, TcpListener, TcpStream};
use std::process::Abort;
use std::time::Duration;

/// A listening socket, and its port.
pub fn bound<R>(rt: &R) -> (TcpListener, u16)
where
    R: Net<Listener = TcpListener, Stream = TcpStream> + Abort,
{
    let listener = listen(rt, 0).expect(rt, "a listening socket");
    let port = port_of(rt, &listener);
    (listener, port)
}

/// A listening socket that waits for nothing, and its port.
pub fn bound_open<R>(rt: &R) -> (TcpListener, u16)
where
    R: Net<Listener = TcpListener, Stream = TcpStream> + Abort,
{
    let (listener, port) = bound(rt);
    listener.set_nonblocking(true).expect(rt, "an option");
    (listener, port)
}

/// The port of a listening socket.
pub fn port_of(rt: &impl Abort, listener: &TcpListener) -> u16 {
    listener.local_addr().expect(rt, "an address").port()
}

/// A client's stream to a port of this machine, by IPv4.
pub fn client_of<R>(rt: &R, port: u16) -> TcpStream
where
    R: Net<Listener = TcpListener, Stream = TcpStream> + Abort,
{
    let address = SocketAddr::from((Ipv4Addr::LOCALHOST, port));
    let client = TcpStream::connect(rt, address).expect(rt, "a client");
    client
        .set_read_timeout(Some(Duration::from_secs(10)))
        .expect(rt, "a time limit");
    client.set_nodelay(true).expect(rt, "an option");
    client
}

/// The limits of a server with four workers and many descriptors.
pub fn usual() -> LobbyLimits {
    LobbyLimits::beside(4, 4096)
}

/// So many doors over a listening socket, with these limits.
pub fn doors_over(
    rt: &HostRuntime,
    abort: &impl Abort,
    listener: TcpListener,
    limits: LobbyLimits,
    count: u64,
) -> Vec<LobbyDoor<HostRuntime>> {
    lobby_doors(rt, rt.alloc(), *rt, listener, limits, count).expect(abort, "doors")
}

/// A door over a listening socket, with these limits.
pub fn door_over(
    rt: &HostRuntime,
    abort: &impl Abort,
    listener: TcpListener,
    limits: LobbyLimits,
) -> LobbyDoor<HostRuntime> {
    doors_over(rt, abort, listener, limits, 1)
        .pop()
        .expect(abort, "a door")
}
