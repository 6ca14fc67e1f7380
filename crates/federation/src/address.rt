//! Addresses of other servers.

ghost use Rattle.std.specs.Prelude.{◌≡◌, IfOk};
ghost use Rattle.federation.specs.Address.{base_of, is_server_url, server_of_text, server_of_url};

use std::alloc::{AllocError, Global};
use std::marker::Model;
use url::{ParseError, Url};

/// The port of `http`, where an address has none.
pub const HTTP_PORT: u16 = 80;

/// Where another server is. Contracts see it as a record of the bytes.
#[derive(Drop)]
pub struct UpstreamAt {
    /// The host as a URL writes it, so with brackets around an address of IPv6.
    pub host: String,
    pub port: u16,
    /// What stands before each route.
    pub base: String,
}

impl Model for UpstreamAt {
    ghost use Rattle.std.specs.String.{string_bytes};
    ghost use Rattle.federation.specs.Server.{ServerFacts};

    ghost Value = { ServerFacts };

    ghost view = { λ a. record { host = string_bytes a.host; port = a.port; base = string_bytes a.base } };
}

/// Where the server of an address is, if the text is an address: a URL of `http` with a host, and without
/// user, query and fragment. A text that is too long for a URL wants memory.
pub fn read_address(alloc: Global, text: &str) -> Result<Option<UpstreamAt>, AllocError>
    ensures address { IfOk result (λ at. at ≡ server_of_text text.now) }
    ensures port { HTTP_PORT ≡ 80 }
{
    match Url::parse(alloc, text) {
        Ok(url) => address_of(alloc, &url),
        Err(ParseError::OutOfMemory | ParseError::Overflow) => Err(AllocError),
        Err(_) => Ok(None),
    }
}

/// Where the server of a URL is, if that is an address.
fn address_of(alloc: Global, url: &Url) -> Result<Option<UpstreamAt>, AllocError>
    ensures { IfOk result (λ at. at ≡ server_of_url url.now) }
{
    if !is_address(url) {
        return Ok(None);
    }
    let Some(host) = url.host_str() else {
        return Ok(None);
    };
    Ok(Some(UpstreamAt {
        host: String::from_str(alloc, host)?,
        port: url.port().unwrap_or(HTTP_PORT),
        base: String::from_str(alloc, base_of(url.path()))?,
    }))
}

/// Whether a URL is an address.
fn is_address(url: &Url) -> bool
    ensures { result ≡ is_server_url url.now }
{
    url.scheme() == "http"
        && url.username().is_empty()
        && url.password().is_none()
        && url.has_host()
        && url.query().is_none()
        && url.fragment().is_none()
}

/// A path without a last slash.
fn base_of(path: &str) -> &str
    ensures { result.now ≡ base_of path.now }
{
    match path.strip_suffix('/') {
        Some(base) => base,
        None => path,
    }
}
