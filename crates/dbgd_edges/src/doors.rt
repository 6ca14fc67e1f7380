//! The doors of a run.

ghost use Rattle.std.specs.Prelude.{◌≡◌, vec_len, IfOk};
ghost use Rattle.dbgd_edges.specs.Listens.{IsEveryIpv4, IsEveryIpv6};

use crate::lead::Lead;
use crate::lobby::Lobby;
use crate::lobby_door::LobbyDoor;
use crate::lobby_limits::{LobbyLimits, files_here};
use std::alloc::Global;
use std::io;
use std::net::{IpAddr, Ipv4Addr, Ipv6Addr, Net, SocketAddr, TcpListener, TcpStream};
use std::os::fd::AsRawFd;
use std::sync::{Arc, Mutex};

/// A port at every address of IPv6, and by that also of IPv4 where the system doesn't part them.
pub fn every_ipv6(port: u16) -> SocketAddr
    ensures { IsEveryIpv6 port result }
{
    SocketAddr::new(IpAddr::V6(Ipv6Addr::new(0, 0, 0, 0, 0, 0, 0, 0)), port)
}

/// A port at every address of IPv4.
pub fn every_ipv4(port: u16) -> SocketAddr
    ensures { IsEveryIpv4 port result }
{
    SocketAddr::new(IpAddr::V4(Ipv4Addr::new(0, 0, 0, 0)), port)
}

/// Listens on a port for IPv6 and IPv4, or for IPv4 alone where there is no IPv6. The port is taken
/// again at once after another process ended that had it.
pub fn listen<R>(net: &R, port: u16) -> io::Result<TcpListener>
where
    R: Net<Listener = TcpListener, Stream = TcpStream>,
{
    let addrs = [every_ipv6(port), every_ipv4(port)];
    TcpListener::bind(net, addrs.as_slice())
}

/// So many doors over a listening socket that waits for nothing, which share one lobby of these limits.
pub fn lobby_doors<N: Net, R: Copy + Drop, L: AsRawFd + Drop>(
    net: &N,
    alloc: Global,
    clock: R,
    listener: L,
    limits: LobbyLimits,
    count: u64,
) -> io::Result<Vec<LobbyDoor<R, L>>>
    ensures { IfOk result (λ doors. vec_len doors ≡ count) }
{
    let lead = Lead::new(net, alloc, listener)?;
    let lobby = Lobby::new(alloc, limits, lead.poll().registry().try_clone()?);
    let lobby = Arc::new(alloc, lobby)?;
    let lead = Arc::new(alloc, Mutex::new(lead))?;
    let mut doors = Vec::new(alloc);
    while (doors.len() as u64) < count {
        doors.push(LobbyDoor::new(
            clock,
            alloc,
            Arc::try_clone(&lobby)?,
            Arc::try_clone(&lead)?,
        ))?;
    }
    Ok(doors)
}

/// So many doors on one port, which share one lobby. Where none are asked for, none is opened.
pub fn real_doors(
    rt: &HostRuntime,
    port: u16,
    count: u64,
) -> io::Result<Vec<LobbyDoor<HostRuntime>>>
    ensures { IfOk result (λ doors. vec_len doors ≡ count) }
{
    if count == 0 {
        return Ok(Vec::new(rt.alloc()));
    }
    let listener = listen(rt, port)?;
    listener.set_nonblocking(true)?;
    let limits = LobbyLimits::beside(count, files_here());
    lobby_doors(rt, rt.alloc(), *rt, listener, limits, count)
}
