//! A link over HTTP.

ghost use Rattle.std.specs.Prelude.{◌≡◌, IfOk};
ghost use Rattle.std.specs.String.{string_bytes};
ghost use Rattle.federation.specs.HttpLink.{answer_told, count_after, shown_http};
ghost use Rattle.federation.specs.Link.{AsksOfLink};
ghost use Rattle.upstream_wire.specs.Ask.{AsksDial};
ghost use Rattle.upstream_wire.specs.Request.{request_bytes};
ghost use Rattle.webapi_routes.specs.Printed.{printed};

use crate::link::{Link, LinkAnswer};
use row_types::Faults;
use std::alloc::{AllocError, Global};
use std::sync::Wait;
use upstream_wire::{Answer, Dial, Response, ask_over, request};
use webapi_routes::{Route, print};

/// Another server that is asked over HTTP/1.1, with a connection for each question. It tells no
/// questions, and counts each that failed.
#[derive(Drop)]
pub struct HttpLink<D: Dial> {
    dial: D,
    server: Server,
    faults: Faults,
}

/// Where a server is.
#[derive(Drop)]
struct Server {
    host: String,
    port: u16,
    base: String,
}

impl<D: Dial> HttpLink<D> {
    /// The server at a port of a host, which is written as in a URL; what stands before each route is
    /// the base. It hasn't failed.
    pub fn new(dial: D, host: String, port: u16, base: String) -> HttpLink<D>
        ensures dial { result.dial ≡ dial }
        ensures host { result.server.host ≡ host }
        ensures port { result.server.port ≡ port }
        ensures base { result.server.base ≡ base }
        ensures faults { result.faults ≡ 0 }
    {
        HttpLink {
            dial,
            server: Server { host, port, base },
            faults: Faults::new(),
        }
    }

    /// The dial.
    pub fn dial(&self) -> &D
        ensures { result.now ≡ self.now.dial }
    {
        &self.dial
    }

    /// How often it has failed.
    pub fn count(&self) -> u64
        ensures { result ≡ self.now.faults }
    {
        self.faults.count()
    }
}

/// Asks a server over a dial.
fn ask_server<D: Dial, Rt: Wait>(
    rt: &Rt,
    alloc: Global,
    dial: &mut D,
    server: &Server,
    route: &Route,
    hops: u64,
) -> Answer
    ensures { AsksDial (D.shows dial.old) (string_bytes server.now.host) server.now.port
        (request_bytes (string_bytes server.now.base) (printed route.now) (string_bytes server.now.host) server.now.port hops)
        result (D.shows dial.new) }
{
    let host = server.host.as_str();
    match request_for(alloc, route, server.base.as_str(), host, server.port, hops) {
        Ok(request) => ask_over(rt, alloc, dial, host, server.port, request.as_slice()),
        Err(_) => Answer::OutOfMemory,
    }
}

/// The bytes of the request for a route.
fn request_for(
    alloc: Global,
    route: &Route,
    base: &str,
    host: &str,
    port: u16,
    hops: u64,
) -> Result<Vec<u8>, AllocError>
    ensures { IfOk result (λ bytes. bytes.items ≡ request_bytes base.now (printed route.now) host.now port hops) }
{
    let target = print(alloc, route)?;
    request(alloc, base, target.as_slice(), host, port, hops)
}

impl<D: Dial + Send> Link for HttpLink<D> {
    ghost use Rattle.federation.specs.HttpLink.{shown_http};

    ghost shows = { λ l. shown_http l.faults };

    fn ask<Rt: Wait + Sync>(
        &mut self,
        rt: &Rt,
        alloc: Global,
        route: &Route,
        hops: u64,
    ) -> LinkAnswer
        ensures asks { AsksOfLink (shown_http self.old.faults) route.now hops result (shown_http self.new.faults) }
        ensures dials { AsksDial (D.shows self.old.dial) (string_bytes self.old.server.host) self.old.server.port
            (request_bytes (string_bytes self.old.server.base) (printed route.now)
            (string_bytes self.old.server.host) self.old.server.port hops)
            (answer_told result) (D.shows self.new.dial) }
        ensures counts { self.new.faults ≡ count_after result self.old.faults }
        ensures server { self.new.server ≡ self.old.server }
    {
        match ask_server(rt, alloc, &mut self.dial, &self.server, route, hops) {
            Answer::Response(response) => {
                let Response { status, body } = response;
                LinkAnswer::Reply { status, body }
            }
            Answer::Failed => {
                self.faults.raise();
                LinkAnswer::Failed
            }
            Answer::OutOfMemory => LinkAnswer::OutOfMemory,
        }
    }
}
