//! Searches by the top call: what is written and said, the status, and what the cache holds then.

use crate::runs::rig::{Memory, SOUND, compare, empty_store, outside_of, sink_of, words_of};
use crate::runs::serves_rig::are_linked;
use dbgd_run::{needs, run};
use federation::{LinkAnswer, MemLink};
use find_client::MemCache;
use row_types::OpenWorld;
use sample_files::{both_classes, executable};
use std::alloc::Global;
use std::process::Abort;
use std::sync::Wait;
use std::thread::Threads;
use tree_trait::MemTree;

/// What a link answers to its one question.
#[derive(Clone, Copy)]
enum Said {
    /// The program of the id C, of 408 bytes.
    Program,
    /// A file of another id.
    Other,
    Absent,
    Failed,
    NoMemory,
}

/// A search for the executable of the id C: what the cache holds under its name, what the links answer,
/// the calls of the cache and the writes on out that fail, how much of the program is written, what is
/// said, and the status.
struct Search {
    holds: Option<Said>,
    links: &'static [Said],
    bad_calls: &'static [u64],
    bad_out: &'static [u64],
    written: usize,
    err: &'static str,
    status: u8,
}

/// The objects of a search.
type Around = Memory<OpenWorld, MemTree<OpenWorld>>;

/// The name of the program's entry.
static NAME: &str = "404142434445464748494a4b4c4d4e4f50515253-executable";

/// The words of a search on one server, and on two.
static ALONE: [&str; 7] = [
    "find",
    "--cache",
    "c",
    "--upstream",
    "http://a",
    "executable",
    "404142434445464748494a4b4c4d4e4f50515253",
];

static BOTH: [&str; 7] = [
    "find",
    "--cache",
    "c",
    "--upstream",
    "http://a http://b",
    "executable",
    "404142434445464748494A4B4C4D4E4F50515253",
];

/// The bytes of a file.
fn bytes_of(rt: &impl Abort, alloc: Global, said: Said) -> Vec<u8> {
    match said {
        Said::Program => executable(alloc).expect(rt, "memory"),
        Said::Other => both_classes(alloc).expect(rt, "memory"),
        Said::Absent | Said::Failed | Said::NoMemory => Vec::new(alloc),
    }
}

/// The answer of a link.
fn answer_of(rt: &impl Abort, alloc: Global, said: Said) -> LinkAnswer {
    match said {
        Said::Program | Said::Other => LinkAnswer::Reply {
            status: 200,
            body: bytes_of(rt, alloc, said),
        },
        Said::Absent => LinkAnswer::Reply {
            status: 404,
            body: Vec::new(alloc),
        },
        Said::Failed => LinkAnswer::Failed,
        Said::NoMemory => LinkAnswer::OutOfMemory,
    }
}

/// A row of links that answer so, once each.
fn row_of(rt: &impl Abort, alloc: Global, links: &[Said]) -> Vec<MemLink> {
    let mut row = Vec::new(alloc);
    for said in links {
        let answers = vec![in alloc; answer_of(rt, alloc, *said)].expect(rt, "memory");
        let pushed = row.push(MemLink::new(alloc, answers));
        assert!(rt; pushed.is_ok(), "memory");
    }
    row
}

/// A cache that holds this under the program's name, and of which these calls fail.
fn cache_of(rt: &impl Abort, alloc: Global, holds: Option<Said>, bad_calls: &[u64]) -> MemCache {
    let bad_calls = Vec::from_slice(alloc, bad_calls).expect(rt, "memory");
    let mut values = Vec::new(alloc);
    if let Some(said) = holds {
        let name = String::from_str(alloc, NAME).expect(rt, "memory");
        let pushed = values.push((name, bytes_of(rt, alloc, said)));
        assert!(rt; pushed.is_ok(), "memory");
    }
    MemCache::new(alloc, values, bad_calls)
}

/// The objects of a search: no hand, no door, and one row of links.
fn around(rt: &impl Abort, alloc: Global, search: &Search) -> Around {
    let store = empty_store(rt, alloc, &SOUND);
    let mut outside = outside_of(rt, alloc, Vec::new(alloc), store, &SOUND);
    outside.links = vec![in alloc; row_of(rt, alloc, search.links)].expect(rt, "memory");
    outside.cache = cache_of(rt, alloc, search.holds, search.bad_calls);
    outside.out = sink_of(rt, alloc, search.bad_out, 200);
    outside
}

/// The status of a search by these words.
fn status_of<Rt: Threads + Wait + Sync + Abort>(
    rt: &Rt,
    alloc: Global,
    outside: &mut Around,
    words: &[&str],
) -> u8 {
    let texts = words_of(rt, alloc, words);
    let needs = needs(alloc, texts.as_slice()).expect(rt, "memory");
    assert!(rt; needs.hands == 0, "no hand");
    assert!(rt; needs.doors == 0, "no door");
    assert!(rt; needs.rows == 1, "one row");
    assert!(rt; outside.links.len() == 1, "one row");
    let folder = needs.cache.as_ref().expect(rt, "a folder");
    assert!(rt; folder.as_str() == "c", "{folder}");
    are_linked(rt, outside.links.as_slice(), needs.upstream.len());
    run(rt, alloc, texts.as_slice(), outside)
}

/// Searches, and compares what was written and said, and the status.
fn search_once<Rt: Threads + Wait + Sync + Abort>(
    rt: &Rt,
    alloc: Global,
    outside: &mut Around,
    search: &Search,
) {
    let words = if search.links.len() == 1 {
        &ALONE
    } else {
        &BOTH
    };
    let ended = status_of(rt, alloc, outside, words);
    let program = executable(alloc).expect(rt, "memory");
    let front = program
        .as_slice()
        .get(..search.written)
        .expect(rt, "a front");
    compare(rt, &outside.out.sink, front, "out", words);
    compare(rt, &outside.err.sink, search.err.as_bytes(), "err", words);
    assert!(rt; ended == search.status, "{}: {ended}", search.err);
}

/// Searches whose files pass, and whose output takes them.
static WRITTEN: [Search; 4] = [
    Search {
        holds: Some(Said::Program),
        links: &[Said::Failed],
        bad_calls: &[],
        bad_out: &[],
        written: 408,
        err: "",
        status: 0,
    },
    Search {
        holds: Some(Said::Other),
        links: &[Said::Program],
        bad_calls: &[],
        bad_out: &[],
        written: 408,
        err: "",
        status: 0,
    },
    Search {
        holds: None,
        links: &[Said::Failed, Said::Program],
        bad_calls: &[0],
        bad_out: &[],
        written: 408,
        err: "",
        status: 0,
    },
    Search {
        holds: None,
        links: &[Said::Program],
        bad_calls: &[1],
        bad_out: &[],
        written: 408,
        err: "dbgd: fault cache\n",
        status: 1,
    },
];

/// Searches that write nothing, or a part.
static UNWRITTEN: [Search; 7] = [
    Search {
        holds: Some(Said::Other),
        links: &[Said::Absent],
        bad_calls: &[],
        bad_out: &[],
        written: 0,
        err: "dbgd: nothing found\n",
        status: 3,
    },
    Search {
        holds: None,
        links: &[Said::Other, Said::Absent],
        bad_calls: &[],
        bad_out: &[],
        written: 0,
        err: "dbgd: nothing found\n",
        status: 3,
    },
    Search {
        holds: Some(Said::Program),
        links: &[Said::Failed],
        bad_calls: &[0],
        bad_out: &[],
        written: 0,
        err: "dbgd: fault cache\n",
        status: 1,
    },
    Search {
        holds: None,
        links: &[Said::Absent, Said::Failed],
        bad_calls: &[],
        bad_out: &[],
        written: 0,
        err: "dbgd: fault upstream\n",
        status: 1,
    },
    Search {
        holds: Some(Said::Program),
        links: &[Said::Absent],
        bad_calls: &[],
        bad_out: &[1],
        written: 200,
        err: "dbgd: fault output\n",
        status: 1,
    },
    Search {
        holds: None,
        links: &[Said::Program],
        bad_calls: &[],
        bad_out: &[0],
        written: 0,
        err: "dbgd: fault output\n",
        status: 1,
    },
    Search {
        holds: None,
        links: &[Said::NoMemory],
        bad_calls: &[],
        bad_out: &[],
        written: 0,
        err: "dbgd: out of memory\n",
        status: 6,
    },
];

/// Searches by each of these, over objects of its own.
fn search_each<Rt: Threads + Wait + Sync + Abort>(rt: &Rt, alloc: Global, searches: &[Search]) {
    for search in searches {
        let mut outside = around(rt, alloc, search);
        search_once(rt, alloc, &mut outside, search);
    }
}

#[test]
fn what_passes_is_written(rt: HostRuntime) {
    search_each(&rt, rt.alloc(), &WRITTEN);
}

#[test]
fn the_end_of_a_search_says_what_failed(rt: HostRuntime) {
    search_each(&rt, rt.alloc(), &UNWRITTEN);
}

/// A search on a server that has the program, and then one on a server that fails.
static FETCHED: Search = Search {
    holds: None,
    links: &[Said::Program],
    bad_calls: &[],
    bad_out: &[],
    written: 408,
    err: "",
    status: 0,
};

static CACHED: Search = Search {
    holds: None,
    links: &[Said::Failed],
    bad_calls: &[],
    bad_out: &[],
    written: 408,
    err: "",
    status: 0,
};

/// Searches twice over one cache, and compares the number of its values.
fn search_twice<Rt: Threads + Wait + Sync + Abort>(rt: &Rt, alloc: Global) {
    let mut outside = around(rt, alloc, &FETCHED);
    search_once(rt, alloc, &mut outside, &FETCHED);
    outside.links = vec![in alloc; row_of(rt, alloc, CACHED.links)].expect(rt, "memory");
    outside.out = sink_of(rt, alloc, &[], 200);
    search_once(rt, alloc, &mut outside, &CACHED);
    assert!(rt; outside.cache.held().len() == 1, "one value");
}

#[test]
fn what_was_fetched_is_found_again(rt: HostRuntime) {
    search_twice(&rt, rt.alloc());
}
