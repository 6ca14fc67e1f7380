//! The words of `serve`.

ghost use Rattle.std.specs.Prelude.{◌≡◌, Some, map, codes, IfOk};
ghost use Rattle.std.specs.String.{string_bytes};
ghost use Rattle.clap.specs.Kinds.{FailsBy};
ghost use Rattle.clap.specs.Matches.{found_of};
ghost use Rattle.clap.specs.Simple.{app_of};
ghost use Rattle.clap.specs.Walk.{all_of, first_of, rows_of};
ghost use Rattle.dbgd_words.specs.Lines.{asked_by};
ghost use Rattle.dbgd_words.specs.Options.{numbers_app, patterns_app, serve_app, serve_faults};
ghost use Rattle.dbgd_words.specs.Options.{serve_rows};
ghost use Rattle.dbgd_words.specs.Patterns.{pattern_texts, patterns_in};
ghost use Rattle.dbgd_words.specs.Words.{number_given, serve_asked, serve_line, served_by};
ghost use Rattle.dbgd_words.specs.Words.{source_folders, upstream_texts};
ghost use Rattle.dbgd_words.specs.declared.scan.TheConstants.{MOST_WORKERS};
ghost use Rattle.dbgd_words.specs.declared.serve.TheConstants.{MOST_PORT, MOST_SECS};

use crate::arguments::{
    command, concurrency, database, exclude, folders, include, port, rescan_time, scan_file_dir,
    sources, text_of, texts_of, upstream,
};
use crate::line::{Line, ServeLine};
use crate::number::number_in;
use crate::patterns::{Patterns, patterns_of};
use crate::refusal::refused;
use crate::roots::{are_roots, paths_of};
use crate::scan::MOST_WORKERS;
use crate::upstream::{servers_of, upstream_of};
use clap::{ArgMatches, Command, Error};
use std::alloc::{AllocError, Global};

/// The largest port.
pub const MOST_PORT: u64 = 65_535;

/// The most seconds from one scan to the next.
pub const MOST_SECS: u64 = 86_400;

/// What stands below the arguments in the help.
const AFTER: &str = "\
Keeps a row for each selected file under the folders in the store, as dbgd scan does, at its start and
again after each wait, and answers HTTP requests by what the scans have found: executables, debug files,
sections and source files by build-id, and its counters at /metrics. Requests that come during the
first scan wait for its end, later ones for none. A source file is served where a debug file names it
and it lies under one of the folders or of those of --sources. What isn't found here is asked of the
servers of --upstream, in order.

A PATTERN is a regular expression, looked for in the whole path of a file: \\.debug$ has a match where
the path ends so, ^/usr/ where it begins so, and an empty one in each. A file is selected where that of
-X, if it is there, has no match, and that of -I, if it is there, has one: what both match isn't scanned.
The row of a file that isn't selected is dropped; source files go by folders alone. A pattern that begins
with - is written -X=-x or --exclude=-x.

Prints on standard output that it serves, on which port and with how many workers, and then a line of
counts for each scan; a scan that is cut short says why on standard error, and the next one goes on.
Where the store takes a row no more, as on a full disk, each scan from then on says `dbgd: fault store`
and finds nothing new, dbgd_passes_total at /metrics stands still, and requests are answered by the
rows that stand: mend the cause, and start the server again, which it doesn't do by itself.

It runs until a signal ends it: each row is on the disk before the next one is kept, so that at most
the one in flight is lost. While it runs nothing else can open the store. A connection is ended
after 100 requests in a row, where it is idle for 75 seconds, where a request isn't whole 5 seconds
after it began, and where the client takes nothing for 30. DEBUGINFOD_URLS tells debuggers where the
server is.

Exit status: 0 done, 1 a call of the store, the port or the output failed, 2 words that can't be read,
5 too many rows, 6 memory was refused, 7 a value that is no row.

Example: dbgd serve -d index.db -p 8002 /usr/bin /usr/lib/debug
and then: DEBUGINFOD_URLS=http://localhost:8002 gdb /usr/bin/ls";

/// The numbers of a server.
#[derive(Clone, Copy)]
struct Numbers {
    workers: u64,
    port: u64,
    secs: u64,
}

/// The command with its store and its numbers alone.
fn with_numbers<'a>(alloc: Global) -> Result<Command<'a>, AllocError>
    ensures { IfOk result (λ command. app_of command ≡ numbers_app) }
{
    command(
        alloc,
        "serve",
        "dbgd serve",
        "Serves the files under folders by build-id",
        AFTER,
    )?
    .arg(database(alloc))?
    .arg(concurrency(
        alloc,
        "Files read, and requests answered, at a time, 1 to 64",
    ))?
    .arg(port(alloc))?
    .arg(rescan_time(alloc))
}

/// The command with these and its patterns alone.
fn with_patterns<'a>(alloc: Global) -> Result<Command<'a>, AllocError>
    ensures { IfOk result (λ command. app_of command ≡ patterns_app) }
{
    with_numbers(alloc)?
        .arg(include(alloc))?
        .arg(exclude(alloc))
}

/// The command.
fn serve_command<'a>(alloc: Global) -> Result<Command<'a>, AllocError>
    ensures { IfOk result (λ command. app_of command ≡ serve_app) }
{
    with_patterns(alloc)?
        .arg(scan_file_dir(alloc))?
        .arg(sources(alloc))?
        .arg(upstream(alloc))?
        .arg(folders(alloc))
}

/// Lets the words be read as the command's.
#[tactic(auto, unfolding(crate::specs::Options::serve_faults, crate::specs::Options::serve_rows))]
fn parse<'a>(alloc: Global, words: &'a [String]) -> Result<ArgMatches<'a>, Error>
    ensures faults { FailsBy (serve_faults (map string_bytes words.now)) result }
    ensures rows { IfOk result (λ matches. rows_of (found_of matches)
        ≡ serve_rows (map string_bytes words.now)) }
{
    let command = serve_command(alloc)?;
    command.try_get_matches_from(words)
}

/// The number that the text of an argument spells, where it is one of these.
fn number_of(matches: &ArgMatches<'_>, name: &str, least: u64, most: u64) -> Option<u64>
    ensures { result ≡ number_given least most name.now (rows_of (found_of matches.now)) }
{
    match text_of(matches, name) {
        Some(text) => number_in(text, least, most),
        None => None,
    }
}

/// The pieces of a text between its colons, in order.
fn pieces(alloc: Global, text: &str) -> Result<Vec<&str>, AllocError>
    ensures { IfOk result (λ all. map (λ piece. piece.now) all.items
        ≡ source_folders (Some text.now)) }
{
    text.split(':').collect(alloc)
}

/// The folders for sources, which the text of an argument names.
fn sources_of<'a>(alloc: Global, matches: &ArgMatches<'a>) -> Result<Vec<&'a str>, AllocError>
    ensures { IfOk result (λ all. map (λ piece. piece.now) all.items
        ≡ source_folders (first_of (codes "sources") (rows_of (found_of matches.now)))) }
{
    match text_of(matches, "sources") {
        Some(text) => pieces(alloc, text),
        None => Ok(Vec::new(alloc)),
    }
}

/// What is asked of a store with these numbers, patterns, further folders for sources, other servers,
/// and folders.
fn with_folders<'a>(
    alloc: Global,
    store: &'a str,
    numbers: Numbers,
    patterns: Patterns<'a>,
    sources: &[&str],
    others: &[&str],
    folders: &[&str],
) -> Result<Line<'a>, AllocError>
    ensures { IfOk result (λ line. asked_by line
        ≡ served_by store.now numbers.workers numbers.port numbers.secs
        (map (λ folder. folder.now) sources.now) (map (λ text. text.now) others.now)
        (pattern_texts patterns.entry) (map (λ folder. folder.now) folders.now)) }
{
    if !are_roots(folders) {
        return Ok(Line::Usage);
    }
    if !are_roots(sources) {
        return Ok(Line::Usage);
    }
    let servers = servers_of(alloc, others)?;
    let sources = paths_of(alloc, sources)?;
    let roots = paths_of(alloc, folders)?;
    let Numbers {
        workers,
        port,
        secs,
    } = numbers;
    match servers {
        Some(upstream) => Ok(Line::Serve(ServeLine {
            store,
            workers,
            port,
            secs,
            sources,
            upstream,
            patterns,
            roots,
        })),
        None => Ok(Line::Usage),
    }
}

/// What the texts of the arguments ask.
fn serve_of<'a>(alloc: Global, matches: &ArgMatches<'a>) -> Result<Line<'a>, AllocError>
    ensures { IfOk result (λ line. asked_by line
        ≡ serve_asked (first_of (codes "database") (rows_of (found_of matches.now)))
        (number_given 1 MOST_WORKERS (codes "concurrency") (rows_of (found_of matches.now)))
        (number_given 1 MOST_PORT (codes "port") (rows_of (found_of matches.now)))
        (number_given 0 MOST_SECS (codes "rescan-time") (rows_of (found_of matches.now)))
        (source_folders (first_of (codes "sources") (rows_of (found_of matches.now))))
        (upstream_texts (first_of (codes "upstream") (rows_of (found_of matches.now))))
        (patterns_in (rows_of (found_of matches.now)))
        (all_of (codes "DIR") (rows_of (found_of matches.now)))) }
{
    let Some(store) = text_of(matches, "database") else {
        return Ok(Line::Usage);
    };
    let Some(workers) = number_of(matches, "concurrency", 1, MOST_WORKERS) else {
        return Ok(Line::Usage);
    };
    let Some(port) = number_of(matches, "port", 1, MOST_PORT) else {
        return Ok(Line::Usage);
    };
    let Some(secs) = number_of(matches, "rescan-time", 0, MOST_SECS) else {
        return Ok(Line::Usage);
    };
    let Some(folders) = texts_of(matches, "DIR") else {
        return Ok(Line::Usage);
    };
    let numbers = Numbers {
        workers,
        port,
        secs,
    };
    let sources = sources_of(alloc, matches)?;
    let others = upstream_of(alloc, matches)?;
    with_folders(
        alloc,
        store,
        numbers,
        patterns_of(matches),
        sources.as_slice(),
        others.as_slice(),
        folders,
    )
}

/// Reads the words of `serve`, its name among them.
pub fn read_serve(alloc: Global, words: &[String]) -> Result<Line<'_>, AllocError>
    ensures { IfOk result (λ line. asked_by line ≡ serve_line (map string_bytes words.now)) }
{
    match parse(alloc, words) {
        Ok(matches) => serve_of(alloc, &matches),
        Err(error) => refused(alloc, &error),
    }
}
