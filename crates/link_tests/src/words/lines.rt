//! Lines of words, and what they say.

use crate::words::Case;

/// Lines of one file.
pub static FILES: [Case; 9] = [
    Case(&["ident", "/w/a"], "ident /w/a"),
    Case(&["ident", "--help"], "ident --help"),
    Case(&["sources", "/w/a"], "sources /w/a"),
    Case(&["section", "/w/a", ".text"], "section /w/a .text"),
    Case(&[], "usage"),
    Case(&["IDENT", "/w/a"], "usage"),
    Case(&["--help", "ident"], "usage"),
    Case(&["ident"], "usage"),
    Case(&["sources", "/w/a", "/w/a"], "usage"),
];

/// Lines of `trial`. A number has 1 to 20 digits.
pub static TRIALS: [Case; 23] = [
    Case(&["trial", "7", "40", "1"], "trial 7 40 1"),
    Case(&["trial", "0", "1", "64"], "trial 0 1 64"),
    Case(
        &["trial", "18446744073709551615", "100000", "1"],
        "trial 18446744073709551615 100000 1",
    ),
    Case(
        &["trial", "00000000000000000007", "040", "03"],
        "trial 7 40 3",
    ),
    Case(&["trial", "18446744073709551616", "1", "1"], "usage"),
    Case(&["trial", "000000000000000000007", "1", "1"], "usage"),
    Case(&["trial", "7", "0", "1"], "usage"),
    Case(&["trial", "7", "100001", "1"], "usage"),
    Case(&["trial", "7", "40", "0"], "usage"),
    Case(&["trial", "7", "40", "65"], "usage"),
    Case(&["trial", "+7", "40", "1"], "usage"),
    Case(&["trial", "-7", "40", "1"], "usage"),
    Case(&["trial", "7", "+40", "1"], "usage"),
    Case(&["trial", "7", "40", " 1"], "usage"),
    Case(&["trial", "", "40", "1"], "usage"),
    Case(&["trial", "7", "", "1"], "usage"),
    Case(&["trial", "0x7", "40", "1"], "usage"),
    Case(&["trial", "7", "4e1", "1"], "usage"),
    Case(&["trial"], "usage"),
    Case(&["trial", "7", "40"], "usage"),
    Case(&["trial", "7", "40", "1", "1"], "usage"),
    Case(&["trial", "--help"], "usage"),
    Case(&["trial", "7", "40", "--version"], "usage"),
];

/// Lines of `query`. An id has 4 to 128 digits, an even number.
pub static QUERIES: [Case; 19] = [
    Case(&["query", "-d", "m", "99be"], "query m 99be"),
    Case(&["query", "--database", "m", "99BE"], "query m 99be"),
    Case(&["query", "--database=m", "99Be"], "query m 99be"),
    Case(&["query", "99be", "-dm"], "query m 99be"),
    Case(&["query", "-d=m", "--", "99be"], "query m 99be"),
    Case(
        &["query", "-d", "/srv/a b", "000000"],
        "query /srv/a b 000000",
    ),
    Case(&["query"], "usage"),
    Case(&["query", "99be"], "usage"),
    Case(&["query", "-d", "m"], "usage"),
    Case(&["query", "-d"], "usage"),
    Case(&["query", "-d", "m", ""], "usage"),
    Case(&["query", "-d", "m", "99"], "usage"),
    Case(&["query", "-d", "m", "99b"], "usage"),
    Case(&["query", "-d", "m", "99bg"], "usage"),
    Case(&["query", "-d", "m", "0x99be"], "usage"),
    Case(&["query", "-d", "m", "99be", "99be"], "usage"),
    Case(&["query", "-d", "m", "-d", "m", "99be"], "usage"),
    Case(&["query", "-d", "m", "-c", "2", "99be"], "usage"),
    Case(&["query", "-d", "m", "-x", "99be"], "usage"),
];

/// Lines of `scan`. Options may stand before and behind the folders.
pub static SCANS: [Case; 15] = [
    Case(&["scan", "-d", "m", "/w"], "scan m 4 /w"),
    Case(
        &["scan", "-d", "m", "-c", "2", "/srv/bin", "/w/"],
        "scan m 2 /srv/bin /w",
    ),
    Case(
        &["scan", "/w", "-c", "64", "--database=m", "/a"],
        "scan m 64 /w /a",
    ),
    Case(&["scan", "-Fdm", "/w"], "scan m 4 /w"),
    Case(
        &["scan", "--scan-file-dir", "-d", "m", "-c1", "/"],
        "scan m 1 /",
    ),
    Case(
        &["scan", "--concurrency=007", "-d", "m", "//w/.././a/"],
        "scan m 7 /a",
    ),
    Case(&["scan", "-d", "m", "/w", "--", "/-x"], "scan m 4 /w /-x"),
    Case(
        &["scan", "-d", "m", "-c", "00000000000000000064", "/w"],
        "scan m 64 /w",
    ),
    Case(&["scan", "-d", "m", "/w", "w"], "usage"),
    Case(&["scan", "-d", "m", "--", "-x"], "usage"),
    Case(&["scan", "-d", "m", ""], "usage"),
    Case(&["scan", "-d", "m"], "usage"),
    Case(&["scan", "/w"], "usage"),
    Case(&["scan", "/w", "-d"], "usage"),
    Case(&["scan"], "usage"),
];

/// Lines of `scan` with an option that can't be read.
pub static OPTIONS: [Case; 15] = [
    Case(&["scan", "-d", "m", "-c", "0", "/w"], "usage"),
    Case(&["scan", "-d", "m", "-c", "65", "/w"], "usage"),
    Case(&["scan", "-d", "m", "-c", "+4", "/w"], "usage"),
    Case(&["scan", "-d", "m", "-c", "-4", "/w"], "usage"),
    Case(&["scan", "-d", "m", "-c", "4 ", "/w"], "usage"),
    Case(&["scan", "-d", "m", "-c", "", "/w"], "usage"),
    Case(&["scan", "-d", "m", "-c", "four", "/w"], "usage"),
    Case(
        &["scan", "-d", "m", "-c", "000000000000000000004", "/w"],
        "usage",
    ),
    Case(
        &["scan", "-d", "m", "-c", "18446744073709551620", "/w"],
        "usage",
    ),
    Case(&["scan", "-d", "m", "-c", "4", "-c", "4", "/w"], "usage"),
    Case(&["scan", "-d", "m", "--database", "m", "/w"], "usage"),
    Case(&["scan", "-d", "m", "-F", "-F", "/w"], "usage"),
    Case(&["scan", "-d", "m", "-F=1", "/w"], "usage"),
    Case(&["scan", "-d", "m", "-R", "/w"], "usage"),
    Case(&["scan", "-d", "m", "--port", "80", "/w"], "usage"),
];

/// Lines with patterns. One that isn't a pattern is read all the same.
pub static PATTERNS: [Case; 24] = [
    Case(&["scan", "-d", "m", "-I", "x", "/w"], "scan m 4 /w -Ix"),
    Case(&["scan", "-d", "m", "-X", "x", "/w"], "scan m 4 /w -Xx"),
    Case(
        &[
            "scan",
            "-d",
            "m",
            "--include=a|b",
            "/w",
            "--exclude",
            "\\.o$",
        ],
        "scan m 4 /w -Ia|b -X\\.o$",
    ),
    Case(
        &["scan", "-Xb", "-d", "m", "/w", "-Ia"],
        "scan m 4 /w -Ia -Xb",
    ),
    Case(
        &["scan", "-d", "m", "-I=x", "-X==", "/w"],
        "scan m 4 /w -Ix -X=",
    ),
    Case(&["scan", "-FI.", "-dm", "/w"], "scan m 4 /w -I."),
    Case(&["scan", "-d", "m", "-I", "", "/w"], "scan m 4 /w -I"),
    Case(&["scan", "-d", "m", "--exclude=", "/w"], "scan m 4 /w -X"),
    Case(
        &["scan", "-d", "m", "-X=-x", "--include=-I", "/w"],
        "scan m 4 /w -I-I -X-x",
    ),
    Case(
        &["scan", "-d", "m", "-I", "(", "-X", "a b", "/w"],
        "scan m 4 /w -I( -Xa b",
    ),
    Case(
        &["serve", "-d", "m", "-I", "a", "-X", "b", "/w"],
        "serve m 4 8002 300 /w -Ia -Xb",
    ),
    Case(
        &[
            "serve",
            "-d",
            "m",
            "--exclude=-x",
            "--sources=/s",
            "--upstream=http://h",
            "/w",
        ],
        "serve m 4 8002 300 /w:/s>h:80 -X-x",
    ),
    Case(
        &["serve", "-d", "m", "/w", "-I", ""],
        "serve m 4 8002 300 /w -I",
    ),
    Case(&["scan", "-d", "m", "-I", "a", "-I", "a", "/w"], "usage"),
    Case(&["scan", "-d", "m", "-Xa", "--exclude=b", "/w"], "usage"),
    Case(&["scan", "-d", "m", "/w", "-I"], "usage"),
    Case(&["scan", "-d", "m", "/w", "-X"], "usage"),
    Case(&["scan", "-d", "m", "/w", "--include"], "usage"),
    Case(&["scan", "-d", "m", "-X", "-x", "/w"], "usage"),
    Case(&["scan", "-d", "m", "-I", "/w"], "usage"),
    Case(&["serve", "-d", "m", "-X", "a", "-X", "a", "/w"], "usage"),
    Case(
        &["serve", "-d", "m", "--include", "a", "-I", "b", "/w"],
        "usage",
    ),
    Case(&["serve", "-d", "m", "/w", "-X"], "usage"),
    Case(&["query", "-d", "m", "-I", "x", "99be"], "usage"),
];

/// Lines of `serve`. What follows the number of workers is the port, the seconds from one scan to the
/// next, the folders, and those for sources.
pub static SERVERS: [Case; 16] = [
    Case(&["serve", "-d", "m", "/w"], "serve m 4 8002 300 /w"),
    Case(
        &[
            "serve", "-d", "m", "-c", "64", "-p", "65535", "-t", "86400", "/w/", "/a",
        ],
        "serve m 64 65535 86400 /w /a",
    ),
    Case(
        &[
            "serve",
            "/w",
            "--port=1",
            "--rescan-time",
            "0",
            "--database=m",
            "-c1",
        ],
        "serve m 1 1 0 /w",
    ),
    Case(&["serve", "-Fdm", "-p080", "/w"], "serve m 4 80 300 /w"),
    Case(
        &["serve", "-d", "m", "--sources", "/usr/src", "/w"],
        "serve m 4 8002 300 /w:/usr/src",
    ),
    Case(
        &["serve", "-d", "m", "--sources=/b/../c:/:/a//b", "/w"],
        "serve m 4 8002 300 /w:/c:/:/a/b",
    ),
    Case(
        &["serve", "-d", "m", "--upstream", "http://h", "/w"],
        "serve m 4 8002 300 /w>h:80",
    ),
    Case(
        &[
            "serve",
            "-d",
            "m",
            "--upstream=http://a:8002 http://[::1]/debug/ HTTP://B//",
            "/w",
        ],
        "serve m 4 8002 300 /w>a:8002>[::1]:80/debug>b:80/",
    ),
    Case(
        &["serve", "-d", "m", "--upstream", "http://h", "w"],
        "usage",
    ),
    Case(&["serve"], "usage"),
    Case(&["serve", "/w"], "usage"),
    Case(&["serve", "-d", "m"], "usage"),
    Case(&["serve", "-d", "m", "w"], "usage"),
    Case(&["serve", "-d", "m", "-d", "m", "/w"], "usage"),
    Case(&["serve", "-d", "m", "/w", "--bad"], "usage"),
    Case(&["serve", "-d", "m", "-R", "/w"], "usage"),
];

/// Lines of `serve` with an option that can't be read.
pub static SERVE_OPTIONS: [Case; 25] = [
    Case(&["serve", "-d", "m", "-c", "0", "/w"], "usage"),
    Case(&["serve", "-d", "m", "-c", "65", "/w"], "usage"),
    Case(&["serve", "-d", "m", "-p", "0", "/w"], "usage"),
    Case(&["serve", "-d", "m", "-p", "65536", "/w"], "usage"),
    Case(&["serve", "-d", "m", "-p", "http", "/w"], "usage"),
    Case(&["serve", "-d", "m", "-p", "80", "-p", "80", "/w"], "usage"),
    Case(&["serve", "-d", "m", "-t", "86401", "/w"], "usage"),
    Case(&["serve", "-d", "m", "-t", "-1", "/w"], "usage"),
    Case(&["serve", "-d", "m", "-t", "1h", "/w"], "usage"),
    Case(&["serve", "-d", "m", "-t", "", "/w"], "usage"),
    Case(&["serve", "-d", "m", "--sources", "", "/w"], "usage"),
    Case(&["serve", "-d", "m", "--sources", "src", "/w"], "usage"),
    Case(&["serve", "-d", "m", "--sources", "/a::/b", "/w"], "usage"),
    Case(&["serve", "-d", "m", "--sources", "/a:", "/w"], "usage"),
    Case(&["serve", "-d", "m", "/w", "--sources"], "usage"),
    Case(
        &[
            "serve",
            "-d",
            "m",
            "--sources",
            "/a",
            "--sources",
            "/a",
            "/w",
        ],
        "usage",
    ),
    Case(
        &[
            "serve",
            "-d",
            "m",
            "--upstream",
            "http://h",
            "--upstream",
            "http://h",
            "/w",
        ],
        "usage",
    ),
    Case(&["serve", "-d", "m", "--upstream", "", "/w"], "usage"),
    Case(&["serve", "-d", "m", "--upstream", "h", "/w"], "usage"),
    Case(
        &["serve", "-d", "m", "--upstream", "https://h", "/w"],
        "usage",
    ),
    Case(
        &["serve", "-d", "m", "--upstream", "http://u@h", "/w"],
        "usage",
    ),
    Case(
        &["serve", "-d", "m", "--upstream", "http://h/?q", "/w"],
        "usage",
    ),
    Case(
        &["serve", "-d", "m", "--upstream", "http://h ", "/w"],
        "usage",
    ),
    Case(
        &["serve", "-d", "m", "--upstream", "http://a  http://b", "/w"],
        "usage",
    ),
    Case(
        &["serve", "-d", "m", "--upstream", "http://a h", "/w"],
        "usage",
    ),
];

/// Lines of `find`, by the targets of their routes.
pub static SEARCHES: [Case; 9] = [
    Case(
        &[
            "find",
            "--cache",
            "c",
            "--upstream",
            "http://a",
            "debuginfo",
            "99be",
        ],
        "find c /buildid/99be/debuginfo>a:80",
    ),
    Case(
        &[
            "find",
            "executable",
            "99BE",
            "--cache=",
            "--upstream=http://a:8/b/ http://c",
        ],
        "find  /buildid/99be/executable>a:8/b>c:80",
    ),
    Case(
        &[
            "find",
            "--cache=/x y",
            "--upstream=http://a",
            "source",
            "99be",
            "/w//./a.c",
        ],
        "find /x y /buildid/99be/source/w/a.c>a:80",
    ),
    Case(
        &[
            "find",
            "--cache=c",
            "--upstream=http://a",
            "section",
            "99be",
            ".text",
        ],
        "find c /buildid/99be/section/.text>a:80",
    ),
    Case(
        &[
            "find",
            "--cache=c",
            "--upstream=http://a",
            "section",
            "99be",
            "a/b",
        ],
        "find c /buildid/99be/section/a/b>a:80",
    ),
    Case(
        &[
            "find",
            "--cache=c",
            "--upstream=http://a",
            "section",
            "99be",
            "é",
        ],
        "find c /buildid/99be/section/%C3%A9>a:80",
    ),
    Case(
        &[
            "find",
            "--cache=c",
            "--upstream=http://a",
            "section",
            "99be",
            "--",
            "-x",
        ],
        "find c /buildid/99be/section/-x>a:80",
    ),
    Case(
        &[
            "find",
            "--cache=c",
            "--upstream=http://a",
            "source",
            "99be",
            "/",
        ],
        "find c /buildid/99be/source/>a:80",
    ),
    Case(
        &[
            "find",
            "--upstream=http://a",
            "--cache=c",
            "--",
            "executable",
            "99be",
        ],
        "find c /buildid/99be/executable>a:80",
    ),
];

/// Lines of `find` that can't be read.
pub static UNSOUGHT: [Case; 22] = [
    Case(&["find"], "usage"),
    Case(&["find", "debuginfo", "99be"], "usage"),
    Case(&["find", "--cache=c", "debuginfo", "99be"], "usage"),
    Case(
        &["find", "--upstream=http://a", "debuginfo", "99be"],
        "usage",
    ),
    Case(
        &["find", "--cache=c", "--upstream=http://a", "debuginfo"],
        "usage",
    ),
    Case(&["find", "--cache=c", "--upstream=http://a"], "usage"),
    Case(
        &[
            "find",
            "--cache=c",
            "--upstream=http://a",
            "Debuginfo",
            "99be",
        ],
        "usage",
    ),
    Case(
        &["find", "--cache=c", "--upstream=http://a", "", "99be"],
        "usage",
    ),
    Case(
        &[
            "find",
            "--cache=c",
            "--upstream=http://a",
            "debuginfo",
            "99b",
        ],
        "usage",
    ),
    Case(
        &[
            "find",
            "--cache=c",
            "--upstream=http://a",
            "debuginfo",
            "99",
        ],
        "usage",
    ),
    Case(
        &[
            "find",
            "--cache=c",
            "--upstream=http://a",
            "debuginfo",
            "99bg",
        ],
        "usage",
    ),
    Case(
        &[
            "find",
            "--cache=c",
            "--upstream=http://a",
            "debuginfo",
            "99be",
            "x",
        ],
        "usage",
    ),
    Case(
        &[
            "find",
            "--cache=c",
            "--upstream=http://a",
            "executable",
            "99be",
            "/x",
        ],
        "usage",
    ),
    Case(
        &["find", "--cache=c", "--upstream=http://a", "source", "99be"],
        "usage",
    ),
    Case(
        &[
            "find",
            "--cache=c",
            "--upstream=http://a",
            "source",
            "99be",
            "a.c",
        ],
        "usage",
    ),
    Case(
        &[
            "find",
            "--cache=c",
            "--upstream=http://a",
            "section",
            "99be",
        ],
        "usage",
    ),
    Case(
        &[
            "find",
            "--cache=c",
            "--upstream=http://a",
            "section",
            "99be",
            "",
        ],
        "usage",
    ),
    Case(
        &[
            "find",
            "--cache=c",
            "--upstream=http://a",
            "section",
            "99be",
            ".a",
            ".b",
        ],
        "usage",
    ),
    Case(
        &[
            "find",
            "--cache=c",
            "--upstream=https://a",
            "debuginfo",
            "99be",
        ],
        "usage",
    ),
    Case(
        &["find", "--cache=c", "--upstream=", "debuginfo", "99be"],
        "usage",
    ),
    Case(
        &[
            "find",
            "--cache=c",
            "--cache=d",
            "--upstream=http://a",
            "debuginfo",
            "99be",
        ],
        "usage",
    ),
    Case(
        &[
            "find",
            "--cache=c",
            "--upstream=http://a",
            "-d",
            "m",
            "debuginfo",
            "99be",
        ],
        "usage",
    ),
];
