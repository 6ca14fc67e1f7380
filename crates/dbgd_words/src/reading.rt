//! The words of a command line.

ghost use Rattle.std.specs.Prelude.{◌≡◌, map, IfErr, IfOk, IsTrue};
ghost use Rattle.std.specs.String.{string_bytes};
ghost use Rattle.dbgd_words.specs.Lines.{asked_by};
ghost use Rattle.dbgd_words.specs.Pinned.{ArePinnedWordLimits};
ghost use Rattle.dbgd_words.specs.Words.{has_options, ident_line, line_of, section_line};
ghost use Rattle.dbgd_words.specs.Words.{sources_line};

use crate::find::read_find;
use crate::line::Line;
use crate::program::{HELP, VERSION, program};
use crate::query::read_query;
use crate::scan::read_scan;
use crate::serve::read_serve;
use crate::trial::trial;
use std::alloc::{AllocError, Global};

/// Reads the words after the program's name. Those that are options take memory, and so does a help
/// text.
pub fn read_line(alloc: Global, words: &[String]) -> Result<Line<'_>, AllocError>
    ensures line { IfOk result (λ line. asked_by line ≡ line_of (map string_bytes words.now)) }
    ensures memory { IfErr result (λ _. IsTrue (has_options (map string_bytes words.now))) }
    ensures limits { ArePinnedWordLimits }
{
    let Some((command, rest)) = words.split_first() else {
        return Ok(Line::Usage);
    };
    match command.as_str() {
        "ident" => Ok(ident(rest)),
        "sources" => Ok(sources(rest)),
        "section" => Ok(section(rest)),
        "query" => read_query(alloc, words),
        "scan" => read_scan(alloc, words),
        "serve" => read_serve(alloc, words),
        "find" => read_find(alloc, words),
        "trial" => Ok(trial(rest)),
        "--help" | "-h" => Ok(program(rest, HELP)),
        "--version" | "-V" => Ok(program(rest, VERSION)),
        _ => Ok(Line::Usage),
    }
}

/// Reads the words of `ident`.
fn ident(words: &[String]) -> Line<'_>
    ensures { asked_by result ≡ ident_line (map string_bytes words.now) }
{
    match words {
        [path] => Line::Ident {
            path: path.as_str(),
        },
        _ => Line::Usage,
    }
}

/// Reads the words of `sources`.
fn sources(words: &[String]) -> Line<'_>
    ensures { asked_by result ≡ sources_line (map string_bytes words.now) }
{
    match words {
        [path] => Line::Sources {
            path: path.as_str(),
        },
        _ => Line::Usage,
    }
}

/// Reads the words of `section`.
fn section(words: &[String]) -> Line<'_>
    ensures { asked_by result ≡ section_line (map string_bytes words.now) }
{
    match words {
        [path, name] => Line::Section {
            path: path.as_str(),
            name: name.as_str(),
        },
        _ => Line::Usage,
    }
}
