//! The words of `query`.

ghost use Rattle.std.specs.Prelude.{◌≡◌, map, codes, IfOk};
ghost use Rattle.std.specs.String.{string_bytes};
ghost use Rattle.clap.specs.Kinds.{FailsBy};
ghost use Rattle.clap.specs.Matches.{found_of};
ghost use Rattle.clap.specs.Simple.{app_of};
ghost use Rattle.clap.specs.Walk.{first_of, rows_of};
ghost use Rattle.dbgd_words.specs.Lines.{asked_by};
ghost use Rattle.dbgd_words.specs.Options.{query_app, query_faults, query_rows};
ghost use Rattle.dbgd_words.specs.Words.{spelled_id, query_asked, query_line};

use crate::arguments::{command, database, id, text_of};
use crate::line::Line;
use crate::refusal::refused;
use clap::{ArgMatches, Command, Error};
use row_types::BuildId;
use std::alloc::{AllocError, Global};

/// What stands below the arguments in the help.
const AFTER: &str = "\
Prints a line for each row of the id that the store holds, by path: executable, debuginfo, both or
none, a space, and the path.

Exit status: 0 done, 1 a call of the store or the output failed, 2 words that can't be read,
3 no row has the id, 5 too many rows, 6 memory was refused, 7 a value that is no row.

Example: dbgd query -d index.db 15dfff3239aa7c3b16a71e6b2e3b6e4009dab998";

/// The command.
fn query_command<'a>(alloc: Global) -> Result<Command<'a>, AllocError>
    ensures { IfOk result (λ command. app_of command ≡ query_app) }
{
    command(
        alloc,
        "query",
        "dbgd query",
        "Prints the files of a build-id that an index has",
        AFTER,
    )?
    .arg(database(alloc))?
    .arg(id(alloc))
}

/// Lets the words be read as the command's.
#[tactic(auto, unfolding(crate::specs::Options::query_faults, crate::specs::Options::query_rows))]
fn parse<'a>(alloc: Global, words: &'a [String]) -> Result<ArgMatches<'a>, Error>
    ensures faults { FailsBy (query_faults (map string_bytes words.now)) result }
    ensures rows { IfOk result (λ matches. rows_of (found_of matches)
        ≡ query_rows (map string_bytes words.now)) }
{
    let command = query_command(alloc)?;
    command.try_get_matches_from(words)
}

/// What the texts of the arguments ask.
fn query_of<'a>(matches: &ArgMatches<'a>) -> Line<'a>
    ensures { asked_by result
        ≡ query_asked (first_of (codes "database") (rows_of (found_of matches.now)))
        (first_of (codes "ID") (rows_of (found_of matches.now))) }
{
    let Some(store) = text_of(matches, "database") else {
        return Line::Usage;
    };
    let Some(id) = text_of(matches, "ID") else {
        return Line::Usage;
    };
    match id_of(id) {
        Some(id) => Line::Query { store, id },
        None => Line::Usage,
    }
}

/// The id that a text spells.
pub fn id_of(text: &str) -> Option<BuildId>
    ensures { result ≡ spelled_id text.now }
{
    let id = BuildId::parse(text.as_bytes())?;
    // For its clause alone: an id has 2 to 64 bytes.
    let _bytes = id.bytes();
    Some(id)
}

/// Reads the words of `query`, its name among them.
pub fn read_query(alloc: Global, words: &[String]) -> Result<Line<'_>, AllocError>
    ensures { IfOk result (λ line. asked_by line ≡ query_line (map string_bytes words.now)) }
{
    match parse(alloc, words) {
        Ok(matches) => Ok(query_of(&matches)),
        Err(error) => refused(alloc, &error),
    }
}
