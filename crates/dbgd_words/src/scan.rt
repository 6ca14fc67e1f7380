//! The words of `scan`.

ghost use Rattle.std.specs.Prelude.{◌≡◌, map, codes, IfOk};
ghost use Rattle.std.specs.String.{string_bytes};
ghost use Rattle.clap.specs.Kinds.{FailsBy};
ghost use Rattle.clap.specs.Matches.{found_of};
ghost use Rattle.clap.specs.Simple.{app_of};
ghost use Rattle.clap.specs.Walk.{all_of, first_of, rows_of};
ghost use Rattle.dbgd_words.specs.Lines.{asked_by};
ghost use Rattle.dbgd_words.specs.Options.{options_app, scan_app, scan_faults, scan_rows};
ghost use Rattle.dbgd_words.specs.Patterns.{patterns_in};
ghost use Rattle.dbgd_words.specs.Words.{scan_asked, scan_line};

use crate::arguments::{
    command, concurrency, database, exclude, folders, include, scan_file_dir, text_of, texts_of,
};
use crate::line::{Line, ScanLine};
use crate::number::number_in;
use crate::patterns::patterns_of;
use crate::refusal::refused;
use crate::roots::{are_roots, paths_of};
use clap::{ArgMatches, Command, Error};
use std::alloc::{AllocError, Global};

/// The most workers that a scan may have.
pub const MOST_WORKERS: u64 = 64;

/// What stands below the arguments in the help.
const AFTER: &str = "\
Walks the folders, reads each selected file that has no row yet, and keeps the rows in the store. Prints
one line of counts: files, rows added, replaced, dropped and kept, executables, debug information.

A PATTERN is a regular expression, looked for in the whole path of a file: \\.debug$ has a match where
the path ends so, ^/usr/ where it begins so, and an empty one in each. A file is selected where that of
-X, if it is there, has no match, and that of -I, if it is there, has one: what both match isn't scanned.
The row of a file that isn't selected is dropped. A pattern that begins with - is written -X=-x or
--exclude=-x.

Exit status: 0 done, 1 a call of the file system, the store or the output failed, 2 words that can't
be read, 3 nothing is at a folder's path, 4 a file was altered or appeared meanwhile, 5 too many files,
entries, rows or changes, 6 memory was refused, 7 a value that is no row.

Example: dbgd scan -d index.db /usr/bin /usr/lib/debug
and of shared libraries alone: dbgd scan -d index.db -I '\\.so[.0-9]*$' /usr/lib";

/// The command with the options alone that take a text.
fn with_options<'a>(alloc: Global) -> Result<Command<'a>, AllocError>
    ensures { IfOk result (λ command. app_of command ≡ options_app) }
{
    command(
        alloc,
        "scan",
        "dbgd scan",
        "Keeps a row for each file under folders",
        AFTER,
    )?
    .arg(database(alloc))?
    .arg(concurrency(alloc, "How many files are read at a time, 1 to 64"))?
    .arg(include(alloc))?
    .arg(exclude(alloc))
}

/// The command.
fn scan_command<'a>(alloc: Global) -> Result<Command<'a>, AllocError>
    ensures { IfOk result (λ command. app_of command ≡ scan_app) }
{
    with_options(alloc)?
        .arg(scan_file_dir(alloc))?
        .arg(folders(alloc))
}

/// Lets the words be read as the command's.
#[tactic(auto, unfolding(crate::specs::Options::scan_faults, crate::specs::Options::scan_rows))]
fn parse<'a>(alloc: Global, words: &'a [String]) -> Result<ArgMatches<'a>, Error>
    ensures faults { FailsBy (scan_faults (map string_bytes words.now)) result }
    ensures rows { IfOk result (λ matches. rows_of (found_of matches)
        ≡ scan_rows (map string_bytes words.now)) }
{
    let command = scan_command(alloc)?;
    command.try_get_matches_from(words)
}

/// What the texts of the arguments ask.
fn scan_of<'a>(alloc: Global, matches: &ArgMatches<'a>) -> Result<Line<'a>, AllocError>
    ensures { IfOk result (λ line. asked_by line
        ≡ scan_asked (first_of (codes "database") (rows_of (found_of matches.now)))
        (first_of (codes "concurrency") (rows_of (found_of matches.now)))
        (patterns_in (rows_of (found_of matches.now)))
        (all_of (codes "DIR") (rows_of (found_of matches.now)))) }
{
    let Some(store) = text_of(matches, "database") else {
        return Ok(Line::Usage);
    };
    let Some(number) = text_of(matches, "concurrency") else {
        return Ok(Line::Usage);
    };
    let Some(workers) = number_in(number, 1, MOST_WORKERS) else {
        return Ok(Line::Usage);
    };
    let Some(folders) = texts_of(matches, "DIR") else {
        return Ok(Line::Usage);
    };
    if !are_roots(folders) {
        return Ok(Line::Usage);
    }
    let roots = paths_of(alloc, folders)?;
    Ok(Line::Scan(ScanLine {
        store,
        workers,
        patterns: patterns_of(matches),
        roots,
    }))
}

/// Reads the words of `scan`, its name among them.
pub fn read_scan(alloc: Global, words: &[String]) -> Result<Line<'_>, AllocError>
    ensures { IfOk result (λ line. asked_by line ≡ scan_line (map string_bytes words.now)) }
{
    match parse(alloc, words) {
        Ok(matches) => scan_of(alloc, &matches),
        Err(error) => refused(alloc, &error),
    }
}
