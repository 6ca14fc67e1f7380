//! What a run needs of the outside, by its words.

ghost use Rattle.std.specs.Prelude.{◌≡◌, map, option_map, IfOk};
ghost use Rattle.std.specs.String.{string_bytes};
ghost use Rattle.dbgd_words.specs.Limits.{FitsLimits};
ghost use Rattle.dbgd_words.specs.Lines.{asked_by};
ghost use Rattle.dbgd_words.specs.Words.{line_of};
ghost use Rattle.dbgd_run.specs.Needs.{cache_of, doors_of, hands_of, port_of, rows_of};
ghost use Rattle.dbgd_run.specs.Needs.{servers_of};

use crate::wants::Needs;
use dbgd_words::{Line, read_line};
use federation::UpstreamAt;
use std::alloc::{AllocError, Global};

/// What a run of these words needs.
pub fn needs(alloc: Global, words: &[String]) -> Result<Needs, AllocError>
    ensures hands { IfOk result (λ needs. needs.hands ≡ hands_of (line_of (map string_bytes words.now))) }
    ensures doors { IfOk result (λ needs. needs.doors ≡ doors_of (line_of (map string_bytes words.now))) }
    ensures port { IfOk result (λ needs. needs.port ≡ port_of (line_of (map string_bytes words.now))) }
    ensures upstream { IfOk result (λ needs. needs.upstream.items
        ≡ servers_of (line_of (map string_bytes words.now))) }
    ensures rows { IfOk result (λ needs. needs.rows ≡ rows_of (line_of (map string_bytes words.now))) }
    ensures cache { IfOk result (λ needs. option_map string_bytes needs.cache
        ≡ cache_of (line_of (map string_bytes words.now))) }
{
    let line = read_line(alloc, words)?;
    let (doors, port) = doors_for(&line);
    let cache = cache_for(alloc, &line)?;
    Ok(Needs {
        hands: hands_for(&line),
        doors,
        port,
        rows: rows_for(&line),
        upstream: upstream_in(alloc, line),
        cache,
    })
}

/// How many hands a line needs: one for a file, none for rows or generated files, two and one for each
/// worker for a scan of folders, and two and two for each worker for a server.
fn hands_for(line: &Line<'_>) -> u64
    ensures { result ≡ hands_of (asked_by line.now) }
{
    match line {
        Line::Ident { .. } | Line::Sources { .. } | Line::Section { .. } => 1,
        Line::Scan(line) => line.workers.saturating_add(2),
        Line::Serve(line) => line.workers.saturating_mul(2).saturating_add(2),
        Line::Query { .. }
        | Line::Find(_)
        | Line::Trial { .. }
        | Line::Program { .. }
        | Line::Help { .. }
        | Line::Usage => 0,
    }
}

/// How many doors a line needs, and their port: one for each worker of a server.
fn doors_for(line: &Line<'_>) -> (u64, u16)
    requires { FitsLimits (asked_by line.now) }
    ensures doors { result.0 ≡ doors_of (asked_by line.now) }
    ensures port { result.1 ≡ port_of (asked_by line.now) }
{
    match line {
        Line::Serve(line) => (line.workers, line.port as u16),
        Line::Ident { .. }
        | Line::Sources { .. }
        | Line::Section { .. }
        | Line::Query { .. }
        | Line::Scan(_)
        | Line::Find(_)
        | Line::Trial { .. }
        | Line::Program { .. }
        | Line::Help { .. }
        | Line::Usage => (0, 0),
    }
}

/// How many rows of links a line needs: one for each worker of a server, and one for a search.
fn rows_for(line: &Line<'_>) -> u64
    ensures { result ≡ rows_of (asked_by line.now) }
{
    match line {
        Line::Serve(line) => line.workers,
        Line::Find(_) => 1,
        Line::Ident { .. }
        | Line::Sources { .. }
        | Line::Section { .. }
        | Line::Query { .. }
        | Line::Scan(_)
        | Line::Trial { .. }
        | Line::Program { .. }
        | Line::Help { .. }
        | Line::Usage => 0,
    }
}

/// The folder of the cache that a line needs.
fn cache_for(alloc: Global, line: &Line<'_>) -> Result<Option<String>, AllocError>
    ensures { IfOk result (λ cache. option_map string_bytes cache ≡ cache_of (asked_by line.now)) }
{
    match line {
        Line::Find(line) => Ok(Some(String::from_str(alloc, line.cache)?)),
        Line::Ident { .. }
        | Line::Sources { .. }
        | Line::Section { .. }
        | Line::Query { .. }
        | Line::Scan(_)
        | Line::Serve(_)
        | Line::Trial { .. }
        | Line::Program { .. }
        | Line::Help { .. }
        | Line::Usage => Ok(None),
    }
}

/// The servers that a line asks for what isn't here, in order.
fn upstream_in(alloc: Global, line: Line<'_>) -> Vec<UpstreamAt>
    ensures { result.items ≡ servers_of (asked_by line.entry) }
{
    match line {
        Line::Serve(line) => line.upstream,
        Line::Find(line) => line.upstream,
        Line::Ident { .. }
        | Line::Sources { .. }
        | Line::Section { .. }
        | Line::Query { .. }
        | Line::Scan(_)
        | Line::Trial { .. }
        | Line::Program { .. }
        | Line::Help { .. }
        | Line::Usage => Vec::new(alloc),
    }
}
