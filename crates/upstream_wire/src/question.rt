//! Requests to other servers.

ghost use Rattle.std.specs.Prelude.{◌≡◌, ◌++◌, codes, replicate, IfOk, OnOk};
ghost use Rattle.std.specs.List.{concat};
ghost use Rattle.http_wire.specs.Reply.{head_line};
ghost use Rattle.upstream_wire.specs.Request.{get_line, hops_line, host_line, request_bytes};

use itoa::Buffer;
use std::alloc::{AllocError, Global};

/// The bytes of a request: for a target below a base, to a port of a host, and one forwarder more than
/// the question came through.
#[tactic(auto, unfolding(http_wire::specs::Reply::head_line))]
pub fn request(
    alloc: Global,
    base: &str,
    target: &[u8],
    host: &str,
    port: u16,
    hops: u64,
) -> Result<Vec<u8>, AllocError>
    ensures { IfOk result (λ bytes. bytes.items ≡ request_bytes base.now target.now host.now port hops) }
{
    let mut bytes = Vec::new(alloc);
    push_front(&mut bytes, base, target, host, port)?;
    push_line(&mut bytes, b"Accept-Encoding: ", b"identity")?;
    push_hops(&mut bytes, hops)?;
    push_line(&mut bytes, b"Connection: ", b"close")?;
    bytes.extend_from_slice(b"\r\n")?;
    Ok(bytes)
}

/// Adds the request line and the server's name.
fn push_front(
    bytes: &mut Vec<u8>,
    base: &str,
    target: &[u8],
    host: &str,
    port: u16,
) -> Result<(), AllocError>
    ensures { OnOk result (bytes.new.items
        ≡ bytes.old.items ++ get_line base.now target.now ++ host_line host.now port) }
{
    push_target(bytes, base, target)?;
    push_host(bytes, host, port)
}

/// Adds the request line.
#[tactic(auto, unfolding(crate::specs::Request::get_line, http_wire::specs::Reply::head_line))]
fn push_target(bytes: &mut Vec<u8>, base: &str, target: &[u8]) -> Result<(), AllocError>
    ensures { OnOk result (bytes.new.items ≡ bytes.old.items ++ get_line base.now target.now) }
{
    bytes.extend_from_slice(b"GET ")?;
    bytes.extend_from_slice(base.as_bytes())?;
    push_line(bytes, target, b" HTTP/1.1")
}

/// Adds the server's name and port.
#[tactic(auto, unfolding(crate::specs::Request::host_line, http_wire::specs::Reply::head_line))]
fn push_host(bytes: &mut Vec<u8>, host: &str, port: u16) -> Result<(), AllocError>
    ensures { OnOk result (bytes.new.items ≡ bytes.old.items ++ host_line host.now port) }
{
    bytes.extend_from_slice(b"Host: ")?;
    bytes.extend_from_slice(host.as_bytes())?;
    push_line(bytes, b":", Buffer::new().format(port).as_bytes())
}

/// Adds the forwarders.
#[tactic(auto, unfolding(crate::specs::Request::hops_line, http_wire::specs::Reply::head_line))]
fn push_hops(bytes: &mut Vec<u8>, hops: u64) -> Result<(), AllocError>
    ensures { OnOk result (bytes.new.items ≡ bytes.old.items ++ hops_line hops) }
{
    bytes.extend_from_slice(b"X-Forwarded-For: ")?;
    bytes.extend_from_slice(b"unknown")?;
    push_more(bytes, hops)?;
    bytes.extend_from_slice(b"\r\n")
}

/// Adds so many forwarders more.
fn push_more(bytes: &mut Vec<u8>, hops: u64) -> Result<(), AllocError>
    ensures { OnOk result (bytes.new.items ≡ bytes.old.items ++ concat (replicate hops (codes ", unknown"))) }
{
    let mut left = hops;
    while left > 0 {
        bytes.extend_from_slice(b", unknown")?;
        left -= 1;
    }
    Ok(())
}

/// Adds a line.
#[tactic(auto, unfolding(http_wire::specs::Reply::head_line))]
fn push_line(bytes: &mut Vec<u8>, name: &[u8], value: &[u8]) -> Result<(), AllocError>
    ensures { OnOk result (bytes.new.items ≡ bytes.old.items ++ head_line name.now value.now) }
{
    bytes.extend_from_slice(name)?;
    bytes.extend_from_slice(value)?;
    bytes.extend_from_slice(b"\r\n")
}
