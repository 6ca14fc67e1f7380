//! The help and the version of the program.

ghost use Rattle.std.specs.Prelude.{◌≡◌, map};
ghost use Rattle.std.specs.String.{string_bytes};
ghost use Rattle.dbgd_words.specs.Lines.{asked_by};
ghost use Rattle.dbgd_words.specs.Words.{program_line};

use crate::line::Line;

/// What `--version` answers.
pub const VERSION: &str = "dbgd 0.1.0\n";

/// What `--help` answers.
pub const HELP: &str = "\
A debug file server: names programs, debug files and sources by build-id

Usage: dbgd COMMAND WORDS..

Commands:
  ident FILE                  Prints the build-id of an ELF file, and what the file holds
  sources FILE                Prints the source paths that the DWARF of a file names
  section FILE NAME           Writes the bytes of a section
  scan -d DB [-c N] DIR..     Keeps a row for each file under folders in a store
  query -d DB ID              Prints the rows of a build-id that a store holds
  trial SEED FILES WORKERS    Scans generated files in memory, and prints what it has then
  serve -d DB DIR..           Serves the files under folders to debuggers, over HTTP
  find WORDS..                Writes what a build-id names, from a cache or from other servers

Options:
  -h, --help       Print help
  -V, --version    Print version

`dbgd serve --help`, `dbgd scan --help`, `dbgd query --help` and `dbgd find --help` have the options of
these four with their defaults, and their exit statuses. The manual is docs/COMMANDS.md, of the server docs/SERVING.md.

Example: dbgd serve -d index.db -p 8002 /usr/bin /usr/lib/debug
and then: DEBUGINFOD_URLS=http://localhost:8002 gdb /usr/bin/ls
";

/// Reads the words behind one that asks for the help or the version of the program: there are none.
pub fn program(rest: &[String], text: &'static str) -> Line<'static>
    ensures { asked_by result ≡ program_line (map string_bytes rest.now) }
{
    match rest {
        [] => Line::Program { text },
        _ => Line::Usage,
    }
}
