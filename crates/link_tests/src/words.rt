//! What no clause says: that memory suffices, that the definitions mean what the words' description
//! says, and the help.

mod helps;
mod lines;

use crate::words::helps::{
    FIND_HELP, FIND_HELPS, PROGRAM_HELP, PROGRAM_HELPS, QUERY_HELP, QUERY_HELPS, SCAN_HELP,
    SCAN_HELPS, SERVE_HELP, SERVE_HELPS, VERSIONS,
};
use crate::words::lines::{
    FILES, OPTIONS, PATTERNS, QUERIES, SCANS, SEARCHES, SERVE_OPTIONS, SERVERS, TRIALS, UNSOUGHT,
};
use dbgd_words::{FindLine, Line, Patterns, ScanLine, ServeLine, read_line};
use federation::UpstreamAt;
use row_types::{BuildId, CanonPath};
use std::alloc::Global;
use std::process::Abort;
use webapi_routes::print;

/// The words as the program gets them.
fn words_of(rt: &impl Abort, alloc: Global, words: &[&str]) -> Vec<String> {
    let mut texts = Vec::new(alloc);
    for word in words {
        let text = String::from_str(alloc, word).expect(rt, "memory");
        texts.push(text).expect(rt, "memory");
    }
    texts
}

/// What a query says.
fn said_of_query(rt: &impl Abort, alloc: Global, store: &str, id: &BuildId) -> String {
    let id = id.print(alloc).expect(rt, "memory");
    format!(in alloc; "query {store} {id}").expect(rt, "memory")
}

/// Adds a pattern to a text, behind its mark.
fn push_pattern(rt: &impl Abort, text: &mut String, mark: &str, pattern: Option<&str>) {
    if let Some(pattern) = pattern {
        text.push_str(mark).expect(rt, "memory");
        text.push_str(pattern).expect(rt, "memory");
    }
}

/// Adds both patterns to a text.
fn push_patterns(rt: &impl Abort, text: &mut String, patterns: Patterns<'_>) {
    push_pattern(rt, text, " -I", patterns.include);
    push_pattern(rt, text, " -X", patterns.exclude);
}

/// What a scan says: its number, its folders and its patterns.
fn said_of_scan(rt: &impl Abort, alloc: Global, line: &ScanLine<'_>) -> String {
    let (store, workers) = (line.store, line.workers);
    let mut text = format!(in alloc; "scan {store} {workers}").expect(rt, "memory");
    push_folders(rt, &mut text, " ", line.roots.as_slice());
    push_patterns(rt, &mut text, line.patterns);
    text
}

/// Adds folders to a text, each behind this mark.
fn push_folders(rt: &impl Abort, text: &mut String, mark: &str, folders: &[CanonPath]) {
    for folder in folders {
        text.push_str(mark).expect(rt, "memory");
        text.push_str(folder.text()).expect(rt, "memory");
    }
}

/// Adds servers to a text, each behind this mark.
fn push_servers(
    rt: &impl Abort,
    alloc: Global,
    text: &mut String,
    mark: &str,
    servers: &[UpstreamAt],
) {
    for server in servers {
        let (host, port, base) = (server.host.as_str(), server.port, server.base.as_str());
        let at = format!(in alloc; "{mark}{host}:{port}{base}").expect(rt, "memory");
        text.push_str(at.as_str()).expect(rt, "memory");
    }
}

/// What a server says: its numbers, its folders, those for sources behind a colon each, the servers that
/// it asks, behind a greater-than sign each, and its patterns.
fn said_of_server(rt: &impl Abort, alloc: Global, line: &ServeLine<'_>) -> String {
    let (store, workers, port, secs) = (line.store, line.workers, line.port, line.secs);
    let mut text = format!(in alloc; "serve {store} {workers} {port} {secs}").expect(rt, "memory");
    push_folders(rt, &mut text, " ", line.roots.as_slice());
    push_folders(rt, &mut text, ":", line.sources.as_slice());
    push_servers(rt, alloc, &mut text, ">", line.upstream.as_slice());
    push_patterns(rt, &mut text, line.patterns);
    text
}

/// What a search says: its folder, the target of its route, and the servers that it asks, behind a
/// greater-than sign each.
fn said_of_search(rt: &impl Abort, alloc: Global, line: &FindLine<'_>) -> String {
    let target = print(alloc, &line.route).expect(rt, "memory");
    let target = String::from_utf8(target).ok().expect(rt, "UTF-8");
    let cache = line.cache;
    let mut text = format!(in alloc; "find {cache} {target}").expect(rt, "memory");
    push_servers(rt, alloc, &mut text, ">", line.upstream.as_slice());
    text
}

/// What a line says, in a word and its texts.
fn said(rt: &impl Abort, alloc: Global, line: &Line<'_>) -> String {
    let text = match line {
        Line::Ident { path } => format!(in alloc; "ident {path}"),
        Line::Sources { path } => format!(in alloc; "sources {path}"),
        Line::Section { path, name } => format!(in alloc; "section {path} {name}"),
        Line::Query { store, id } => Ok(said_of_query(rt, alloc, store, id)),
        Line::Scan(line) => Ok(said_of_scan(rt, alloc, line)),
        Line::Serve(line) => Ok(said_of_server(rt, alloc, line)),
        Line::Find(line) => Ok(said_of_search(rt, alloc, line)),
        Line::Trial {
            seed,
            files,
            workers,
        } => format!(in alloc; "trial {seed} {files} {workers}"),
        Line::Program { text } => String::from_str(alloc, text),
        Line::Help { text } => String::from_str(alloc, text.as_str()),
        Line::Usage => String::from_str(alloc, "usage"),
    };
    text.expect(rt, "memory")
}

/// What words say.
fn read(rt: &impl Abort, alloc: Global, words: &[String]) -> String {
    let line = read_line(alloc, words).expect(rt, "memory");
    said(rt, alloc, &line)
}

/// Words and what they say.
#[derive(Clone, Copy)]
pub struct Case<'a>(pub &'a [&'a str], pub &'a str);

/// Reads each line and compares.
fn each_says(rt: &impl Abort, alloc: Global, cases: &[Case<'_>]) {
    for Case(words, want) in cases {
        let texts = words_of(rt, alloc, words);
        let text = read(rt, alloc, texts.as_slice());
        assert!(rt; text.as_str() == *want, "{words:?} {text}");
    }
}

/// Reads each line, and compares with the one text.
fn all_say(rt: &impl Abort, alloc: Global, lines: &[&[&str]], want: &str) {
    for words in lines {
        each_says(rt, alloc, &[Case(words, want)]);
    }
}

#[test]
fn words_ask_what_they_say(rt: HostRuntime) {
    let alloc = rt.alloc();
    each_says(&rt, alloc, &FILES);
    each_says(&rt, alloc, &TRIALS);
    each_says(&rt, alloc, &QUERIES);
    each_says(&rt, alloc, &SCANS);
    each_says(&rt, alloc, &OPTIONS);
    each_says(&rt, alloc, &PATTERNS);
    each_says(&rt, alloc, &SERVERS);
    each_says(&rt, alloc, &SERVE_OPTIONS);
    each_says(&rt, alloc, &SEARCHES);
    each_says(&rt, alloc, &UNSOUGHT);
    each_says(&rt, alloc, &VERSIONS);
    all_say(&rt, alloc, &PROGRAM_HELPS, PROGRAM_HELP);
    all_say(&rt, alloc, &SCAN_HELPS, SCAN_HELP);
    all_say(&rt, alloc, &QUERY_HELPS, QUERY_HELP);
    all_say(&rt, alloc, &SERVE_HELPS, SERVE_HELP);
    all_say(&rt, alloc, &FIND_HELPS, FIND_HELP);
}

/// A text, and behind it a character so many times.
fn lengthened(rt: &impl Abort, alloc: Global, front: &str, last: char, times: u64) -> String {
    let mut text = String::from_str(alloc, front).expect(rt, "memory");
    for _ in 0..times {
        text.push(last).expect(rt, "memory");
    }
    text
}

/// These words with one more behind them say this.
fn says_behind(rt: &impl Abort, alloc: Global, words: &[&str], last: String, want: &str) {
    let mut texts = words_of(rt, alloc, words);
    texts.push(last).expect(rt, "memory");
    let text = read(rt, alloc, texts.as_slice());
    assert!(rt; text.as_str() == want, "{words:?} {text}");
}

/// An id of so many digits is read whole.
fn reads_id(rt: &impl Abort, alloc: Global, digits: u64) {
    let id = lengthened(rt, alloc, "", 'a', digits);
    let whole = lengthened(rt, alloc, "query m ", 'a', digits);
    says_behind(rt, alloc, &["query", "-d", "m"], id, whole.as_str());
}

/// An id of so many digits can't be read.
fn refuses_id(rt: &impl Abort, alloc: Global, digits: u64) {
    let id = lengthened(rt, alloc, "", 'a', digits);
    says_behind(rt, alloc, &["query", "-d", "m"], id, "usage");
}

/// The folder `/w` with so many slashes behind it says this.
fn reads_folder(rt: &impl Abort, alloc: Global, slashes: u64, want: &str) {
    let folder = lengthened(rt, alloc, "/w", '/', slashes);
    says_behind(rt, alloc, &["scan", "-d", "m"], folder, want);
}

// An id has up to 128 digits, a folder up to 4096 bytes.
#[test]
fn texts_have_their_limits(rt: HostRuntime) {
    let alloc = rt.alloc();
    reads_id(&rt, alloc, 128);
    refuses_id(&rt, alloc, 130);
    reads_folder(&rt, alloc, 4094, "scan m 4 /w");
    reads_folder(&rt, alloc, 4095, "usage");
}
