//! Lines that are answered with a text, whatever else follows.

use crate::words::Case;

/// Lines that ask for the help of the program.
pub static PROGRAM_HELPS: [&[&str]; 2] = [&["--help"], &["-h"]];

/// The help of the program.
pub static PROGRAM_HELP: &str =
    "A debug file server: names programs, debug files and sources by build-id

Usage: dbgd COMMAND WORDS..

Commands:
  ident FILE                  Prints the build-id of an ELF file, and what the file holds
  sources FILE                Prints the source paths that the DWARF of a file names
  section FILE NAME           Writes the bytes of a section
  scan -d DB [-c N] DIR..     Keeps a row for each file under folders in a store
  query -d DB ID              Prints the rows of a build-id that a store holds
  trial SEED FILES WORKERS    Scans generated files in memory, and prints what it has then
  serve -d DB DIR..           Serves the files under folders to debuggers, over HTTP
  find WORDS..                Writes what a build-id names, from a cache or from other servers

Options:
  -h, --help       Print help
  -V, --version    Print version

`dbgd serve --help`, `dbgd scan --help`, `dbgd query --help` and `dbgd find --help` have the options of
these four with their defaults, and their exit statuses. The manual is docs/COMMANDS.md, of the server docs/SERVING.md.

Example: dbgd serve -d index.db -p 8002 /usr/bin /usr/lib/debug
and then: DEBUGINFOD_URLS=http://localhost:8002 gdb /usr/bin/ls
";

/// Lines that ask for the help of `scan`.
pub static SCAN_HELPS: [&[&str]; 3] = [
    &["scan", "--help"],
    &["scan", "-h", "--bad"],
    &["scan", "-d", "m", "/w", "--help"],
];

/// The help of `scan`.
pub static SCAN_HELP: &str = "Keeps a row for each file under folders

Usage: dbgd scan [OPTIONS] --database <FILE> <DIR>...

Arguments:
  <DIR>...  The folders, each from / on and of at most 4096 bytes

Options:
  -d, --database <FILE>    The store of the index; it is made where it isn't there
  -c, --concurrency <N>    How many files are read at a time, 1 to 64 [default: 4]
  -I, --include <PATTERN>  Only files with a match of this expression in their path are scanned
  -X, --exclude <PATTERN>  No file with a match of this expression in its path is scanned
  -F, --scan-file-dir      Changes nothing: files in folders are what is scanned
  -h, --help               Print help
  -V, --version            Print version

Walks the folders, reads each selected file that has no row yet, and keeps the rows in the store. Prints
one line of counts: files, rows added, replaced, dropped and kept, executables, debug information.

A PATTERN is a regular expression, looked for in the whole path of a file: \\.debug$ has a match where
the path ends so, ^/usr/ where it begins so, and an empty one in each. A file is selected where that of
-X, if it is there, has no match, and that of -I, if it is there, has one: what both match isn't scanned.
The row of a file that isn't selected is dropped. A pattern that begins with - is written -X=-x or
--exclude=-x.

Exit status: 0 done, 1 a call of the file system, the store or the output failed, 2 words that can't
be read, 3 nothing is at a folder's path, 4 a file was altered or appeared meanwhile, 5 too many files,
entries, rows or changes, 6 memory was refused, 7 a value that is no row.

Example: dbgd scan -d index.db /usr/bin /usr/lib/debug
and of shared libraries alone: dbgd scan -d index.db -I '\\.so[.0-9]*$' /usr/lib
";

/// Lines that ask for the help of `query`.
pub static QUERY_HELPS: [&[&str]; 2] = [&["query", "--help"], &["query", "-h"]];

/// The help of `query`.
pub static QUERY_HELP: &str = "Prints the files of a build-id that an index has

Usage: dbgd query --database <FILE> <ID>

Arguments:
  <ID>  A build-id: 4 to 128 hexadecimal digits, two for each byte

Options:
  -d, --database <FILE>  The store of the index; it is made where it isn't there
  -h, --help             Print help
  -V, --version          Print version

Prints a line for each row of the id that the store holds, by path: executable, debuginfo, both or
none, a space, and the path.

Exit status: 0 done, 1 a call of the store or the output failed, 2 words that can't be read,
3 no row has the id, 5 too many rows, 6 memory was refused, 7 a value that is no row.

Example: dbgd query -d index.db 15dfff3239aa7c3b16a71e6b2e3b6e4009dab998
";

/// Lines that ask for the help of `serve`.
pub static SERVE_HELPS: [&[&str]; 2] = [&["serve", "--help"], &["serve", "-h", ""]];

/// The help of `serve`.
pub static SERVE_HELP: &str = "Serves the files under folders by build-id

Usage: dbgd serve [OPTIONS] --database <FILE> <DIR>...

Arguments:
  <DIR>...  The folders, each from / on and of at most 4096 bytes

Options:
  -d, --database <FILE>     The store of the index; it is made where it isn't there
  -c, --concurrency <N>     Files read, and requests answered, at a time, 1 to 64 [default: 4]
  -p, --port <PORT>         The port, 1 to 65535, on which requests are answered [default: 8002]
  -t, --rescan-time <SECS>  Seconds between scans, 0 to 86400; 0 for one scan alone [default: 300]
  -I, --include <PATTERN>   Only files with a match of this expression in their path are scanned
  -X, --exclude <PATTERN>   No file with a match of this expression in its path is scanned
  -F, --scan-file-dir       Changes nothing: files in folders are what is scanned
      --sources <DIRS>      Folders that sources are served from, too, with colons between them
      --upstream <URLS>     Servers to ask for what isn't here, with spaces between them
  -h, --help                Print help
  -V, --version             Print version

Keeps a row for each selected file under the folders in the store, as dbgd scan does, at its start and
again after each wait, and answers HTTP requests by what the scans have found: executables, debug files,
sections and source files by build-id, and its counters at /metrics. Requests that come during the
first scan wait for its end, later ones for none. A source file is served where a debug file names it
and it lies under one of the folders or of those of --sources. What isn't found here is asked of the
servers of --upstream, in order.

A PATTERN is a regular expression, looked for in the whole path of a file: \\.debug$ has a match where
the path ends so, ^/usr/ where it begins so, and an empty one in each. A file is selected where that of
-X, if it is there, has no match, and that of -I, if it is there, has one: what both match isn't scanned.
The row of a file that isn't selected is dropped; source files go by folders alone. A pattern that begins
with - is written -X=-x or --exclude=-x.

Prints on standard output that it serves, on which port and with how many workers, and then a line of
counts for each scan; a scan that is cut short says why on standard error, and the next one goes on.
Where the store takes a row no more, as on a full disk, each scan from then on says `dbgd: fault store`
and finds nothing new, dbgd_passes_total at /metrics stands still, and requests are answered by the
rows that stand: mend the cause, and start the server again, which it doesn't do by itself.

It runs until a signal ends it: each row is on the disk before the next one is kept, so that at most
the one in flight is lost. While it runs nothing else can open the store. A connection is ended
after 100 requests in a row, where it is idle for 75 seconds, where a request isn't whole 5 seconds
after it began, and where the client takes nothing for 30. DEBUGINFOD_URLS tells debuggers where the
server is.

Exit status: 0 done, 1 a call of the store, the port or the output failed, 2 words that can't be read,
5 too many rows, 6 memory was refused, 7 a value that is no row.

Example: dbgd serve -d index.db -p 8002 /usr/bin /usr/lib/debug
and then: DEBUGINFOD_URLS=http://localhost:8002 gdb /usr/bin/ls
";

/// Lines that ask for the help of `find`.
pub static FIND_HELPS: [&[&str]; 2] = [&["find", "--help"], &["find", "-h", ""]];

/// The help of `find`.
pub static FIND_HELP: &str =
    "Writes the bytes that a build-id names, where debuginfod-find prints the path of its copy

Usage: dbgd find --cache <DIR> --upstream <URLS> <KIND> <ID> [NAME]

Arguments:
  <KIND>  What is wanted: debuginfo, executable, source or section
  <ID>    A build-id: 4 to 128 hexadecimal digits, two for each byte
  [NAME]  The path of a source, from / on, or the name of a section

Options:
      --cache <DIR>      The folder of files that were fetched; it is made where it isn't there
      --upstream <URLS>  Servers to ask for what isn't in the folder, with spaces between them
  -h, --help             Print help
  -V, --version          Print version

KIND is debuginfo, executable, source or section. The last two take a NAME: the path of a source, from /
on, or the name of a section. A NAME that begins with - stands behind --.

DIR has the files that were fetched before, each by the name of its build-id and kind. One of them counts
only where its bytes have the build-id and the class that are asked for, and is looked at anew each time;
a section is looked for in the debug file and then in the executable. What isn't found there is asked of
the servers, in order, and a file that one of them sends is kept in DIR once it is written. Sections and
sources aren't kept. No variable of the environment is read.

Exit status: 0 done, 1 a call of the folder, of a server or of the output failed, 2 words that can't be
read, 3 nobody has it, 6 memory was refused.

Example: dbgd find --cache cache --upstream http://localhost:8002 debuginfo \\
15dfff3239aa7c3b16a71e6b2e3b6e4009dab998 > ls.debug
";

/// Lines that ask for a version.
pub static VERSIONS: [Case; 6] = [
    Case(&["--version"], "dbgd 0.1.0\n"),
    Case(&["-V"], "dbgd 0.1.0\n"),
    Case(&["query", "--version"], "dbgd query 0.1.0\n"),
    Case(&["scan", "-V"], "dbgd scan 0.1.0\n"),
    Case(&["serve", "-V"], "dbgd serve 0.1.0\n"),
    Case(&["find", "--version"], "dbgd find 0.1.0\n"),
];
