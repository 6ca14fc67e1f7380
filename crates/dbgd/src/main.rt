//! The program: it makes the real objects, hands them to the top call, and ends with its status. Each
//! step makes one kind of objects and hands them to the next, which is generic in what it is handed:
//! the prover takes long for a call, and for an end, at which a type made of others is named.
#![tactic(auto)]

ghost use Rattle.std.specs.Prelude.{◌≡◌, ◌<◌, ◌≤◌, All, length, map, vec_len, IfOk};
ghost use Rattle.std.specs.String.{string_bytes};
ghost use Rattle.dbgd_words.specs.Words.{line_of};
ghost use Rattle.dbgd.specs.Servers.{server_of};
ghost use Rattle.dbgd_run.specs.Needs.{HasEnough, doors_of, hands_of, rows_of, servers_of};

use dbgd_edges::{
    FolderCache, LobbyDoor, RealClock, RealDial, RealSink, StdStream, real_doors, real_hands,
};
use dbgd_run::{Needs, Outside, Status, needs, run, write_all};
use federation::{HttpLink, Link, UpstreamAt};
use find_client::Cache;
use http_wire::Door;
use row_types::OpenWorld;
use sqlite_keeper::SqliteStore;
use std::alloc::{AllocError, Global};
use std::io::ErrorKind;
use std::marker::PhantomData;
use std::net::Net;
use std::process::{self, ExitCode};
use std::sync::Wait;
use std::thread::Threads;
use std::{env, time};
use tree_trait::{Clock, NoGate, Tree};

/// Why the program ended before it did what its words ask.
enum Early {
    /// There was not enough memory.
    OutOfMemory,
    /// The port can't be listened on.
    NoDoors,
}

impl From<AllocError> for Early {
    fn from(_: AllocError) -> Early {
        Early::OutOfMemory
    }
}

/// The words after the program's name. There are none where one isn't UTF-8, and none are no
/// command.
fn words(rt: &HostRuntime) -> Result<Vec<String>, AllocError> {
    match env::args(rt) {
        Ok(args) => args.skip(1).collect(rt.alloc()),
        Err(error) if error.kind() == ErrorKind::OutOfMemory => Err(AllocError),
        Err(_) => Ok(Vec::new(rt.alloc())),
    }
}

/// So many doors on a port, of which none is opened where none are needed.
fn doors(rt: &HostRuntime, needs: &Needs) -> Result<Vec<LobbyDoor<HostRuntime>>, Early>
    ensures { IfOk result (λ doors. vec_len doors ≡ needs.now.doors) }
{
    match real_doors(rt, needs.port, needs.doors) {
        Ok(doors) => Ok(doors),
        Err(error) if error.kind() == ErrorKind::OutOfMemory => Err(Early::OutOfMemory),
        Err(_) => Err(Early::NoDoors),
    }
}

/// A link to a server over the sockets of a system.
fn link<R: Net + time::Clock + Copy>(
    alloc: Global,
    net: R,
    at: &UpstreamAt,
) -> Result<HttpLink<RealDial<R>>, AllocError>
    ensures { IfOk result (λ link. server_of link ≡ at.now) }
{
    let host = String::from_str(alloc, at.host.as_str())?;
    let base = String::from_str(alloc, at.base.as_str())?;
    Ok(HttpLink::new(RealDial::new(net), host, at.port, base))
}

/// A link to each of these servers, in order.
fn row<R: Net + time::Clock + Copy>(
    alloc: Global,
    net: R,
    upstream: &[UpstreamAt],
) -> Result<Vec<HttpLink<RealDial<R>>>, AllocError>
    ensures { IfOk result (λ links. map server_of links.items ≡ upstream.now) }
{
    let mut links = Vec::new(alloc);
    for at in upstream {
        links.push(link(alloc, net, at)?)?;
    }
    Ok(links)
}

/// So many rows of links, each with a link to each server, in order.
fn rows<R: Net + time::Clock + Copy>(
    alloc: Global,
    net: R,
    upstream: &[UpstreamAt],
    count: u64,
) -> Result<Vec<Vec<HttpLink<RealDial<R>>>>, AllocError>
    ensures count { IfOk result (λ rows. vec_len rows ≡ count) }
    ensures servers { IfOk result (λ rows. All (λ row. map server_of row.items ≡ upstream.now) rows.items) }
{
    let mut rows = Vec::new(alloc);
    for _ in 0..count {
        rows.push(row(alloc, net, upstream)?)?;
    }
    Ok(rows)
}

/// The name of the folder of the cache that is needed; none where none is needed, and nothing is asked of
/// it then.
fn folder(alloc: Global, needs: &Needs) -> Result<String, AllocError> {
    match &needs.cache {
        Some(folder) => String::from_str(alloc, folder.as_str()),
        None => Ok(String::new(alloc)),
    }
}

/// Runs the program over these hands, doors, links, clock and cache, and over the store in a file and the
/// standard streams, and gives its exit status.
fn run_over<
    T: Tree<OpenWorld>,
    D: Door,
    L: Link,
    C: Clock + Drop,
    H: Cache + Drop,
    Rt: Threads + Wait + Sync,
>(
    rt: &HostRuntime,
    threads: &Rt,
    words: &[String],
    hands: Vec<T>,
    doors: Vec<D>,
    links: Vec<Vec<L>>,
    clock: C,
    cache: H,
) -> u8
    requires hand { 0 < vec_len hands }
    requires enough { HasEnough (line_of (map string_bytes words.now)) (vec_len hands)
        (vec_len doors) links.items }
{
    let mut outside = Outside {
        hands,
        store: SqliteStore::new(*rt),
        doors,
        links,
        clock,
        out: RealSink::new(StdStream::Out(rt.stdout())),
        err: RealSink::new(StdStream::Err(rt.stderr())),
        gate: NoGate,
        cache,
        of: PhantomData::<OpenWorld>,
    };
    run(threads, rt.alloc(), words, &mut outside)
}

/// Opens the doors, and runs the program over them and these hands, links and cache.
fn run_linked<T: Tree<OpenWorld>, L: Link, H: Cache + Drop, Rt: Threads + Wait + Sync>(
    rt: &HostRuntime,
    threads: &Rt,
    words: &[String],
    needs: &Needs,
    hands: Vec<T>,
    links: Vec<Vec<L>>,
    cache: H,
) -> Result<u8, Early>
    requires hand { 0 < vec_len hands }
    requires hands { hands_of (line_of (map string_bytes words.now)) ≤ vec_len hands }
    requires doors { needs.now.doors ≡ doors_of (line_of (map string_bytes words.now)) }
    requires rows { rows_of (line_of (map string_bytes words.now)) ≤ vec_len links }
    requires linked { All (λ row. length row.items
        ≡ length (servers_of (line_of (map string_bytes words.now)))) links.items }
{
    let doors = doors(rt, needs)?;
    let clock = RealClock::new(*rt);
    Ok(run_over(rt, threads, words, hands, doors, links, clock, cache))
}

/// Makes the links, and runs the program over them and these hands and cache.
fn run_handed<T: Tree<OpenWorld>, H: Cache + Drop, Rt: Threads + Wait + Sync>(
    rt: &HostRuntime,
    threads: &Rt,
    words: &[String],
    needs: &Needs,
    hands: Vec<T>,
    cache: H,
) -> Result<u8, Early>
    requires hand { 0 < vec_len hands }
    requires hands { hands_of (line_of (map string_bytes words.now)) ≤ vec_len hands }
    requires doors { needs.now.doors ≡ doors_of (line_of (map string_bytes words.now)) }
    requires rows { needs.now.rows ≡ rows_of (line_of (map string_bytes words.now)) }
    requires upstream { needs.now.upstream.items ≡ servers_of (line_of (map string_bytes words.now)) }
{
    let links = rows(rt.alloc(), *rt, needs.upstream.as_slice(), needs.rows)?;
    run_linked(rt, threads, words, needs, hands, links, cache)
}

/// Makes the hands and the cache, and runs the program by its words.
fn run_words<Rt: Threads + Wait + Sync>(
    rt: &HostRuntime,
    threads: &Rt,
    words: &[String],
) -> Result<u8, Early> {
    let needs = needs(rt.alloc(), words)?;
    let hands = real_hands(rt, needs.hands)?;
    let folder = folder(rt.alloc(), &needs)?;
    let cache = FolderCache::new(*rt, folder, process::id(rt.process()));
    run_handed(rt, threads, words, &needs, hands, cache)
}

/// Runs the program over the real objects, and gives its exit status. Threads are made by the
/// second handle.
fn run_real<Rt: Threads + Wait + Sync>(rt: &HostRuntime, threads: &Rt) -> Result<u8, Early> {
    let words = words(rt)?;
    run_words(rt, threads, words.as_slice())
}

/// Says a line on the standard error. A write that fails changes nothing.
fn say(rt: &HostRuntime, line: &[u8]) {
    let _ = write_all(&mut RealSink::new(StdStream::Err(rt.stderr())), line);
}

fn main(rt: HostRuntime) -> ExitCode {
    match run_real(&rt, &rt) {
        Ok(status) => ExitCode::from(status),
        Err(Early::OutOfMemory) => {
            say(&rt, b"dbgd: out of memory\n");
            ExitCode::from(Status::OutOfMemory.code())
        }
        Err(Early::NoDoors) => {
            say(&rt, b"dbgd: fault door\n");
            ExitCode::from(Status::Fault.code())
        }
    }
}
