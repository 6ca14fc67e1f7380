//! A search over objects in memory: what is asked, and how its case runs.

use federation::{LinkAnswer, LinkQuestion, MemLink};
use find_client::{Cache, CacheAnswer, CacheCall, CachePut, FindEnd, MemCache, find};
use http_wire::{MemSink, Sink, Stream, WriteAnswer};
use row_types::{BuildId, CanonPath};
use sample_files::{ID_C, both_classes, debug_companion, executable};
use std::alloc::{AllocError, Global};
use std::fmt::Write;
use std::process::Abort;
use std::sync::Wait;
use webapi_routes::{Route, SectionName};

/// What is asked of the id C: a file, a section by its name, or a source.
#[derive(Clone, Copy)]
pub enum Wanted {
    Executable,
    Debuginfo,
    Section(&'static [u8]),
    Source,
}

/// Bytes that a cache holds or a link answers.
#[derive(Clone, Copy)]
pub enum Sample {
    /// The program of the id C, of 408 bytes.
    Program,
    /// The same without its last byte.
    Cut,
    /// The debug file of the id C, of 584 bytes: its code stands elsewhere.
    Companion,
    /// A file of both classes of the id A, of 488 bytes.
    Other,
    /// These bytes.
    Plain(&'static [u8]),
}

/// What a link answers.
#[derive(Clone, Copy)]
pub enum Said {
    /// A response of this status with these bytes.
    Reply(u16, Sample),
    /// No response.
    Failed,
    /// That memory was refused.
    NoMemory,
}

/// Values of a cache, by what follows the id's digits and a dash in their names.
pub type Values = &'static [(&'static str, Sample)];

/// The calls of the cache and the writes to the output that fail.
#[derive(Clone, Copy)]
pub struct Bad(pub &'static [u64], pub &'static [u64]);

/// A search, and what it leaves.
#[derive(Clone, Copy)]
pub struct Case {
    pub says: &'static str,
    pub wanted: Wanted,
    pub held: Values,
    /// What each link answers in turn.
    pub links: &'static [&'static [Said]],
    pub bad: Bad,
    pub end: FindEnd,
    /// So many bytes of the front of these were written.
    pub written: (Sample, usize),
    /// A line for each call of the cache, with what it answered.
    pub calls: &'static str,
    pub kept: Values,
    /// What each link was asked, by what follows the id in its targets.
    pub asked: &'static [&'static [&'static str]],
}

/// What stands before a class in the name of a value.
static NAME_FRONT: &str = "404142434445464748494a4b4c4d4e4f50515253-";

/// What stands before a class or a source in a target.
static TARGET_FRONT: &[u8] = b"/buildid/404142434445464748494a4b4c4d4e4f50515253/";

/// The program without its last byte.
fn cut(rt: &impl Abort, alloc: Global) -> Vec<u8> {
    let mut bytes = executable(alloc).expect(rt, "memory");
    bytes.truncate(407);
    bytes
}

/// The bytes of a sample.
fn bytes_of(rt: &impl Abort, alloc: Global, sample: Sample) -> Vec<u8> {
    match sample {
        Sample::Program => executable(alloc).expect(rt, "memory"),
        Sample::Cut => cut(rt, alloc),
        Sample::Companion => debug_companion(alloc).expect(rt, "memory"),
        Sample::Other => both_classes(alloc).expect(rt, "memory"),
        Sample::Plain(bytes) => Vec::from_slice(alloc, bytes).expect(rt, "memory"),
    }
}

/// Whether bytes are the first of a sample, so many.
fn is_front(rt: &impl Abort, alloc: Global, bytes: &[u8], sample: Sample, count: usize) -> bool {
    let whole = bytes_of(rt, alloc, sample);
    whole.len() >= count && bytes == &whole[..count]
}

/// Whether bytes are a sample.
fn is_whole(rt: &impl Abort, alloc: Global, bytes: &[u8], sample: Sample) -> bool {
    let whole = bytes_of(rt, alloc, sample);
    bytes == whole.as_slice()
}

/// The route of what is asked.
fn route_of(rt: &impl Abort, alloc: Global, wanted: Wanted) -> Route {
    let id = BuildId::new(&ID_C).expect(rt, "20 bytes are an id");
    match wanted {
        Wanted::Executable => Route::Executable(id),
        Wanted::Debuginfo => Route::Debuginfo(id),
        Wanted::Section(name) => {
            let name = Vec::from_slice(alloc, name).expect(rt, "memory");
            Route::Section(id, SectionName::new(name))
        }
        Wanted::Source => {
            let text = String::from_str(alloc, "/w/main.c").expect(rt, "memory");
            match CanonPath::check(text) {
                Ok(path) => Route::Source(id, path),
                Err(_) => panic!(rt; "a canonical path"),
            }
        }
    }
}

/// A cache in memory with a text of its calls: a line for each, with what was answered.
#[derive(Drop)]
pub struct Telling {
    pub cache: MemCache,
    pub calls: String,
}

/// What is written of a name: where the id's digits and a dash stand before it, the rest.
fn short(name: &str) -> &str {
    match name.strip_prefix(NAME_FRONT) {
        Some(rest) => rest,
        None => name,
    }
}

/// Adds a question and its answer to a text.
fn tell_get(calls: &mut String, name: &str, answer: &CacheAnswer) -> Result<(), AllocError> {
    let name = short(name);
    match answer {
        CacheAnswer::Held(bytes) => writeln!(calls, "get {name}: {}", bytes.len()),
        CacheAnswer::Absent => writeln!(calls, "get {name}: absent"),
        CacheAnswer::Failed => writeln!(calls, "get {name}: failed"),
        CacheAnswer::OutOfMemory => writeln!(calls, "get {name}: no memory"),
    }
}

/// What a put answered.
fn said_of_put(answer: CachePut) -> &'static str {
    match answer {
        CachePut::Done => "done",
        CachePut::Failed => "failed",
        CachePut::OutOfMemory => "no memory",
    }
}

/// Adds a put and its answer to a text.
fn tell_put(
    calls: &mut String,
    name: &str,
    bytes: &[u8],
    answer: CachePut,
) -> Result<(), AllocError> {
    let said = said_of_put(answer);
    let name = short(name);
    writeln!(calls, "put {name} {}: {said}", bytes.len())
}

impl Cache for Telling {
    ghost use Rattle.find_client.specs.MemCache.{shown_mem_cache};

    ghost shows = { λ c. shown_mem_cache c.cache };

    fn get(&mut self, alloc: Global, name: &str) -> CacheAnswer {
        let answer = self.cache.get(alloc, name);
        let _ = tell_get(&mut self.calls, name, &answer);
        answer
    }

    fn put(&mut self, alloc: Global, name: &str, bytes: &[u8]) -> CachePut {
        let answer = self.cache.put(alloc, name, bytes);
        let _ = tell_put(&mut self.calls, name, bytes, answer);
        answer
    }
}

/// A sink in memory that takes 200 bytes at most at a time.
#[derive(Drop)]
pub struct Narrow {
    pub sink: MemSink,
}

impl Stream for Narrow {
    ghost use Rattle.http_wire.specs.MemSink.{shown_sink};

    ghost shows = { λ s. shown_sink s.sink };
}

impl Sink for Narrow {
    fn write(&mut self, bytes: &[u8]) -> WriteAnswer {
        self.sink.write(&bytes[..bytes.len().min(200)])
    }
}

/// What a search is given.
#[derive(Drop)]
pub struct Objects {
    pub cache: Telling,
    pub links: Vec<MemLink>,
    pub out: Narrow,
}

/// The value of a name that ends so.
fn value_of(rt: &impl Abort, alloc: Global, ending: &str, sample: Sample) -> (String, Vec<u8>) {
    let name = format!(in alloc; "{NAME_FRONT}{ending}").expect(rt, "memory");
    (name, bytes_of(rt, alloc, sample))
}

/// The values of a cache.
fn values_of(rt: &impl Abort, alloc: Global, held: Values) -> Vec<(String, Vec<u8>)> {
    let mut values = Vec::new(alloc);
    for (ending, sample) in held {
        let pushed = values.push(value_of(rt, alloc, ending, *sample));
        assert!(rt; pushed.is_ok(), "memory");
    }
    values
}

/// A cache that holds these values, and of which these calls fail.
fn cache_of(rt: &impl Abort, alloc: Global, held: Values, bad_calls: &[u64]) -> Telling {
    let bad_calls = Vec::from_slice(alloc, bad_calls).expect(rt, "memory");
    Telling {
        cache: MemCache::new(alloc, values_of(rt, alloc, held), bad_calls),
        calls: String::new(alloc),
    }
}

/// What a link answers.
fn answer_of(rt: &impl Abort, alloc: Global, said: Said) -> LinkAnswer {
    match said {
        Said::Reply(status, sample) => LinkAnswer::Reply {
            status,
            body: bytes_of(rt, alloc, sample),
        },
        Said::Failed => LinkAnswer::Failed,
        Said::NoMemory => LinkAnswer::OutOfMemory,
    }
}

/// A link that answers so in turn.
fn link_of(rt: &impl Abort, alloc: Global, said: &[Said]) -> MemLink {
    let mut answers = Vec::new(alloc);
    for one in said {
        let pushed = answers.push(answer_of(rt, alloc, *one));
        assert!(rt; pushed.is_ok(), "memory");
    }
    MemLink::new(alloc, answers)
}

/// Links that answer so in turn.
fn links_of(rt: &impl Abort, alloc: Global, said: &[&[Said]]) -> Vec<MemLink> {
    let mut links = Vec::new(alloc);
    for one in said {
        let pushed = links.push(link_of(rt, alloc, one));
        assert!(rt; pushed.is_ok(), "memory");
    }
    links
}

/// An output of which these writes fail.
fn out_of(rt: &impl Abort, alloc: Global, bad_writes: &[u64]) -> Narrow {
    let bad_writes = Vec::from_slice(alloc, bad_writes).expect(rt, "memory");
    Narrow {
        sink: MemSink::new(alloc, bad_writes),
    }
}

/// The objects of a case.
pub fn objects_of(rt: &impl Abort, alloc: Global, case: &Case) -> Objects {
    Objects {
        cache: cache_of(rt, alloc, case.held, case.bad.0),
        links: links_of(rt, alloc, case.links),
        out: out_of(rt, alloc, case.bad.1),
    }
}

/// Puts the links and the output of a case in the place of those that are there.
pub fn again(rt: &impl Abort, alloc: Global, case: &Case, objects: &mut Objects) {
    objects.links = links_of(rt, alloc, case.links);
    objects.out = out_of(rt, alloc, case.bad.1);
}

/// Adds what the cache tells of a call to a text.
fn push_call(calls: &mut String, call: &CacheCall) -> Result<(), AllocError> {
    match call {
        CacheCall::Got { name, .. } => write!(calls, "get {}, ", short(name.as_str())),
        CacheCall::Put { name, answer, .. } => {
            let said = said_of_put(*answer);
            write!(calls, "put {}: {said}, ", short(name.as_str()))
        }
    }
}

/// What the cache tells of its calls, as a text.
pub fn called(rt: &impl Abort, alloc: Global, cache: &Telling) -> String {
    let mut calls = String::new(alloc);
    for call in cache.cache.asked() {
        push_call(&mut calls, call).expect(rt, "memory");
    }
    calls
}

/// Searches, and gives the end.
fn search<R: Abort + Wait + Sync>(
    rt: &R,
    alloc: Global,
    wanted: Wanted,
    objects: &mut Objects,
) -> FindEnd {
    let route = route_of(rt, alloc, wanted);
    find(
        rt,
        alloc,
        &route,
        &mut objects.cache,
        objects.links.as_mut_slice(),
        &mut objects.out,
    )
}

/// The first bytes of a sample were written, and no more.
fn has_written(rt: &impl Abort, alloc: Global, out: &Narrow, case: &Case) {
    let written = out.sink.written().expect(rt, "it is told");
    let (sample, count) = case.written;
    assert!(rt;
        is_front(rt, alloc, written, sample, count),
        "{}: {}",
        case.says,
        written.len()
    );
}

/// A value stands under the name that ends so, and is the sample.
fn is_value(
    rt: &impl Abort,
    alloc: Global,
    value: &(String, Vec<u8>),
    wanted: &(&'static str, Sample),
) -> bool {
    short(value.0.as_str()) == wanted.0 && is_whole(rt, alloc, value.1.as_slice(), wanted.1)
}

/// The cache was called so, and holds exactly these values in order.
fn has_kept(rt: &impl Abort, alloc: Global, cache: &Telling, case: &Case) {
    let calls = cache.calls.as_str();
    assert!(rt; calls == case.calls, "{}: {calls}", case.says);
    let held = cache.cache.held();
    assert!(rt;
        held.len() == case.kept.len(),
        "{}: {} values",
        case.says,
        held.len()
    );
    for (value, wanted) in held.iter().zip(case.kept) {
        assert!(rt;
            is_value(rt, alloc, value, wanted),
            "{}: {}",
            case.says,
            wanted.0
        );
    }
}

/// Whether a question is of a target that ends so, and came through no forwarder.
fn is_question(question: &LinkQuestion, ending: &str) -> bool {
    question.hops() == 0 && question.target().strip_prefix(TARGET_FRONT) == Some(ending.as_bytes())
}

/// A link was asked exactly these in order.
fn is_asked(rt: &impl Abort, link: &MemLink, wanted: &[&str], says: &str) {
    let asked = link.asked();
    assert!(rt;
        asked.len() == wanted.len(),
        "{says}: {} questions",
        asked.len()
    );
    for (question, ending) in asked.iter().zip(wanted) {
        assert!(rt; is_question(question, ending), "{says}: {ending}");
    }
}

/// Searches by a case, and compares all that it leaves.
pub fn run<R: Abort + Wait + Sync>(rt: &R, alloc: Global, case: &Case, objects: &mut Objects) {
    let end = search(rt, alloc, case.wanted, objects);
    assert!(rt; end == case.end, "{}", case.says);
    has_written(rt, alloc, &objects.out, case);
    has_kept(rt, alloc, &objects.cache, case);
    let links = objects.links.as_slice();
    assert!(rt; links.len() == case.asked.len(), "{}", case.says);
    for (link, asked) in links.iter().zip(case.asked) {
        is_asked(rt, link, asked, case.says);
    }
}
