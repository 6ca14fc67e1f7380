//! Second tables beside that of the rows: the store's own, and others of its name.

use crate::rig::after;
use crate::stores::left::stays;
use index_keeper::Keeper;
use sqlite::{Connection, MemStore};
use sqlite_keeper::{AdoptAnswer, SqliteKeeper};
use std::alloc::Global;
use std::process::Abort;

/// A second table with which no store opens.
struct Second {
    /// What is strange in it.
    strange: &'static str,
    /// What defines it, behind its name.
    columns: &'static str,
    /// Its row.
    row: &'static str,
}

/// Tables of other shapes than the store's, and one whose CHECK refuses the next number.
static REFUSED: &[Second] = &[
    Second {
        strange: "a further column",
        columns: "(one INTEGER PRIMARY KEY CHECK (one = 1), n INTEGER NOT NULL, more TEXT) STRICT",
        row: "(1, 41, 'more')",
    },
    Second {
        strange: "a column fewer",
        columns: "(n INTEGER PRIMARY KEY) STRICT",
        row: "(41)",
    },
    Second {
        strange: "the columns in another order",
        columns: "(n INTEGER NOT NULL, one INTEGER PRIMARY KEY CHECK (one = 1)) STRICT",
        row: "(41, 1)",
    },
    Second {
        strange: "another name of the key",
        columns: "(once INTEGER PRIMARY KEY CHECK (once = 1), n INTEGER NOT NULL) STRICT",
        row: "(1, 41)",
    },
    Second {
        strange: "a text",
        columns: "(one INTEGER PRIMARY KEY CHECK (one = 1), n TEXT NOT NULL) STRICT",
        row: "(1, '41')",
    },
    Second {
        strange: "a real number",
        columns: "(one INTEGER PRIMARY KEY CHECK (one = 1), n REAL NOT NULL) STRICT",
        row: "(1, 41.0)",
    },
    Second {
        strange: "bytes",
        columns: "(one INTEGER PRIMARY KEY CHECK (one = 1), n BLOB NOT NULL) STRICT",
        row: "(1, x'29')",
    },
    Second {
        strange: "any type",
        columns: "(one INTEGER PRIMARY KEY CHECK (one = 1), n ANY NOT NULL) STRICT",
        row: "(1, 41)",
    },
    Second {
        strange: "no NOT NULL",
        columns: "(one INTEGER PRIMARY KEY CHECK (one = 1), n INTEGER) STRICT",
        row: "(1, 41)",
    },
    Second {
        strange: "a table that isn't strict",
        columns: "(one INTEGER PRIMARY KEY CHECK (one = 1), n INTEGER NOT NULL)",
        row: "(1, 41)",
    },
    Second {
        strange: "a default",
        columns: "(one INTEGER PRIMARY KEY CHECK (one = 1), n INTEGER NOT NULL DEFAULT 7) STRICT",
        row: "(1, 41)",
    },
    Second {
        strange: "a default that is computed",
        columns: "(one INTEGER PRIMARY KEY CHECK (one = 1), \
            n INTEGER NOT NULL DEFAULT (7 + 1)) STRICT",
        row: "(1, 41)",
    },
    Second {
        strange: "the key in another place",
        columns: "(one INTEGER NOT NULL CHECK (one = 1), n INTEGER PRIMARY KEY NOT NULL) STRICT",
        row: "(1, 41)",
    },
    Second {
        strange: "no key",
        columns: "(one INTEGER NOT NULL CHECK (one = 1), n INTEGER NOT NULL) STRICT",
        row: "(1, 41)",
    },
    Second {
        strange: "a counted key",
        columns: "(one INTEGER PRIMARY KEY AUTOINCREMENT CHECK (one = 1), \
            n INTEGER NOT NULL) STRICT",
        row: "(1, 41)",
    },
    Second {
        strange: "a number that is unique",
        columns: "(one INTEGER PRIMARY KEY CHECK (one = 1), n INTEGER NOT NULL UNIQUE) STRICT",
        row: "(1, 41)",
    },
    Second {
        strange: "a reference",
        columns: "(one INTEGER PRIMARY KEY CHECK (one = 1), \
            n INTEGER NOT NULL REFERENCES epoch) STRICT",
        row: "(1, 1)",
    },
    Second {
        strange: "a condition that the next number doesn't meet",
        columns: "(one INTEGER PRIMARY KEY, n INTEGER NOT NULL CHECK (n < 42)) STRICT",
        row: "(1, 41)",
    },
];

/// The statements of a database whose first table is that of the rows, with one row, and whose second
/// one has these columns and this row.
fn with_second(rt: &impl Abort, alloc: Global, columns: &str, row: &str) -> String {
    format!(in alloc;
        "CREATE TABLE kept(path TEXT PRIMARY KEY NOT NULL, body BLOB NOT NULL) STRICT;
        INSERT INTO kept VALUES ('/a', x'01');
        CREATE TABLE epoch{columns};
        INSERT INTO epoch VALUES {row}"
    )
    .expect(rt, "memory")
}

/// Gives the row of the first table, and the number of the second one with its type.
const ROWS: &str = "SELECT path || hex(body) || typeof(n) || n FROM kept, epoch";

#[test]
fn a_strange_second_table_is_refused_and_stays(rt: HostRuntime) {
    for case in REFUSED {
        let sql = with_second(&rt, rt.alloc(), case.columns, case.row);
        stays(&rt, rt.alloc(), sql.as_str(), ROWS);
    }
}

/// The store's own table, as it makes it, and with other CHECKs.
static OWN: [&str; 3] = [
    "(one INTEGER PRIMARY KEY CHECK (one = 1), n INTEGER NOT NULL) STRICT",
    "(one INTEGER PRIMARY KEY, n INTEGER NOT NULL) STRICT",
    "(one INTEGER PRIMARY KEY, n INTEGER NOT NULL, CHECK (n >= one)) STRICT",
];

/// The number of the opening.
fn number_of(rt: &impl Abort, connection: Connection<MemStore>) -> u64 {
    match SqliteKeeper::adopt(connection) {
        AdoptAnswer::Adopted(keeper) => keeper.epoch(),
        _ => panic!(rt; "the connection isn't taken over"),
    }
}

#[test]
fn the_second_table_is_taken_whatever_it_checks(rt: HostRuntime) {
    let alloc = rt.alloc();
    assert!(rt;
        number_of(&rt, after(&rt, alloc, "")) == 1,
        "a database without tables"
    );
    for columns in OWN {
        let sql = with_second(&rt, alloc, columns, "(1, 41)");
        let connection = after(&rt, alloc, sql.as_str());
        assert!(rt; number_of(&rt, connection) == 42, "{columns}");
    }
}
