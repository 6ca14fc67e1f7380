//! The trait that stands for another server.

ghost use Rattle.federation.specs.Link.{AsksOfLink, ShownLink};

use std::alloc::Global;
use std::sync::Wait;
use webapi_routes::Route;

/// What a link answers.
#[derive(Drop)]
pub enum LinkAnswer {
    /// The server's response.
    Reply {
        /// Its status, below 1000.
        status: u16,
        /// Its body.
        body: Vec<u8>,
    },
    /// There is none, and the link's count of faults rose.
    Failed,
    /// There was not enough memory.
    OutOfMemory,
}

/// Another server: one that is asked over HTTP, or a list of answers in memory. Each object counts its
/// own faults.
pub trait Link: Send + Drop {
    /// What it shows at a moment. Its count of faults never falls, and stands still at 2^64 - 1.
    ghost shows: { Self → ShownLink };

    /// Asks the server for a route, with the number of forwarders that the question came through.
    fn ask<Rt: Wait + Sync>(
        &mut self,
        rt: &Rt,
        alloc: Global,
        route: &Route,
        hops: u64,
    ) -> LinkAnswer
        ensures asks { AsksOfLink (shows self.old) route.now hops result (shows self.new) };
}
