//! The words of `find`.

ghost use Rattle.std.specs.Prelude.{◌≡◌, map, codes, option_and_then, option_map, IfOk};
ghost use Rattle.std.specs.String.{string_bytes};
ghost use Rattle.clap.specs.Kinds.{FailsBy};
ghost use Rattle.clap.specs.Matches.{found_of};
ghost use Rattle.clap.specs.Simple.{app_of};
ghost use Rattle.clap.specs.Walk.{first_of, rows_of};
ghost use Rattle.dbgd_words.specs.Lines.{asked_by};
ghost use Rattle.dbgd_words.specs.Options.{find_app, find_faults, find_rows, sought_app};
ghost use Rattle.dbgd_words.specs.Words.{file_named, find_asked, find_line, route_named};
ghost use Rattle.dbgd_words.specs.Words.{section_named, sought_by, source_named, upstream_texts};

use crate::arguments::{cache, command, id, kind, name, servers, text_of};
use crate::line::{FindLine, Line};
use crate::query::id_of;
use crate::refusal::refused;
use crate::roots::{is_root, path_of};
use crate::upstream::{servers_of, upstream_of};
use clap::{ArgMatches, Command, Error};
use row_types::BuildId;
use std::alloc::{AllocError, Global};
use webapi_routes::{Route, SectionName};

/// What stands below the arguments in the help.
const AFTER: &str = "\
KIND is debuginfo, executable, source or section. The last two take a NAME: the path of a source, from /
on, or the name of a section. A NAME that begins with - stands behind --.

DIR has the files that were fetched before, each by the name of its build-id and kind. One of them counts
only where its bytes have the build-id and the class that are asked for, and is looked at anew each time;
a section is looked for in the debug file and then in the executable. What isn't found there is asked of
the servers, in order, and a file that one of them sends is kept in DIR once it is written. Sections and
sources aren't kept. No variable of the environment is read.

Exit status: 0 done, 1 a call of the folder, of a server or of the output failed, 2 words that can't be
read, 3 nobody has it, 6 memory was refused.

Example: dbgd find --cache cache --upstream http://localhost:8002 debuginfo \\
15dfff3239aa7c3b16a71e6b2e3b6e4009dab998 > ls.debug";

/// The command with its folder and its servers alone.
fn with_servers<'a>(alloc: Global) -> Result<Command<'a>, AllocError>
    ensures { IfOk result (λ command. app_of command ≡ sought_app) }
{
    command(
        alloc,
        "find",
        "dbgd find",
        "Writes the bytes that a build-id names, where debuginfod-find prints the path of its copy",
        AFTER,
    )?
    .arg(cache(alloc))?
    .arg(servers(alloc))
}

/// The command.
fn find_command<'a>(alloc: Global) -> Result<Command<'a>, AllocError>
    ensures { IfOk result (λ command. app_of command ≡ find_app) }
{
    with_servers(alloc)?
        .arg(kind(alloc))?
        .arg(id(alloc))?
        .arg(name(alloc))
}

/// Lets the words be read as the command's.
#[tactic(auto, unfolding(crate::specs::Options::find_faults, crate::specs::Options::find_rows))]
fn parse<'a>(alloc: Global, words: &'a [String]) -> Result<ArgMatches<'a>, Error>
    ensures faults { FailsBy (find_faults (map string_bytes words.now)) result }
    ensures rows { IfOk result (λ matches. rows_of (found_of matches)
        ≡ find_rows (map string_bytes words.now)) }
{
    let command = find_command(alloc)?;
    command.try_get_matches_from(words)
}

/// A file, which has no name.
fn file(route: Route, name: Option<&str>) -> Option<Route>
    ensures { result ≡ file_named route (option_map (λ text. text.now) name.entry) }
{
    match name {
        Some(_) => None,
        None => Some(route),
    }
}

/// The source of an id at the path that is its name.
fn source(alloc: Global, id: BuildId, name: Option<&str>) -> Result<Option<Route>, AllocError>
    ensures { IfOk result (λ route. route
        ≡ option_and_then (source_named id) (option_map (λ text. text.now) name.entry)) }
{
    let Some(name) = name else {
        return Ok(None);
    };
    if !is_root(name) {
        return Ok(None);
    }
    let path = path_of(alloc, name)?;
    Ok(Some(Route::Source(id, path)))
}

/// The section of an id that has its name.
fn section(alloc: Global, id: BuildId, name: Option<&str>) -> Result<Option<Route>, AllocError>
    ensures { IfOk result (λ route. route
        ≡ option_and_then (section_named id) (option_map (λ text. text.now) name.entry)) }
{
    let Some(name) = name else {
        return Ok(None);
    };
    if name.is_empty() {
        return Ok(None);
    }
    let mut bytes = Vec::new(alloc);
    bytes.extend_from_slice(name.as_bytes())?;
    Ok(Some(Route::Section(id, SectionName::new(bytes))))
}

/// The route of a kind and an id, by its name if there is one.
fn route_of(
    alloc: Global,
    kind: &str,
    id: BuildId,
    name: Option<&str>,
) -> Result<Option<Route>, AllocError>
    ensures { IfOk result (λ route. route
        ≡ route_named kind.now id (option_map (λ text. text.now) name.entry)) }
{
    match kind {
        "debuginfo" => Ok(file(Route::Debuginfo(id), name)),
        "executable" => Ok(file(Route::Executable(id), name)),
        "source" => source(alloc, id, name),
        "section" => section(alloc, id, name),
        _ => Ok(None),
    }
}

/// A search for a route, on the servers of these addresses.
fn sought<'a>(
    alloc: Global,
    cache: &'a str,
    others: &[&str],
    route: Route,
) -> Result<Line<'a>, AllocError>
    ensures { IfOk result (λ line. asked_by line
        ≡ sought_by cache.now (map (λ text. text.now) others.now) route) }
{
    let servers = servers_of(alloc, others)?;
    match servers {
        Some(upstream) => Ok(Line::Find(FindLine {
            cache,
            route,
            upstream,
        })),
        None => Ok(Line::Usage),
    }
}

/// What the texts of the arguments ask.
fn find_of<'a>(alloc: Global, matches: &ArgMatches<'a>) -> Result<Line<'a>, AllocError>
    ensures { IfOk result (λ line. asked_by line
        ≡ find_asked (first_of (codes "cache") (rows_of (found_of matches.now)))
        (first_of (codes "KIND") (rows_of (found_of matches.now)))
        (first_of (codes "ID") (rows_of (found_of matches.now)))
        (first_of (codes "NAME") (rows_of (found_of matches.now)))
        (upstream_texts (first_of (codes "upstream") (rows_of (found_of matches.now))))) }
{
    let Some(cache) = text_of(matches, "cache") else {
        return Ok(Line::Usage);
    };
    let Some(kind) = text_of(matches, "KIND") else {
        return Ok(Line::Usage);
    };
    let Some(digits) = text_of(matches, "ID") else {
        return Ok(Line::Usage);
    };
    let Some(id) = id_of(digits) else {
        return Ok(Line::Usage);
    };
    let route = route_of(alloc, kind, id, text_of(matches, "NAME"))?;
    let others = upstream_of(alloc, matches)?;
    match route {
        Some(route) => sought(alloc, cache, others.as_slice(), route),
        None => Ok(Line::Usage),
    }
}

/// Reads the words of `find`, its name among them.
pub fn read_find(alloc: Global, words: &[String]) -> Result<Line<'_>, AllocError>
    ensures { IfOk result (λ line. asked_by line ≡ find_line (map string_bytes words.now)) }
{
    match parse(alloc, words) {
        Ok(matches) => find_of(alloc, &matches),
        Err(error) => refused(alloc, &error),
    }
}
